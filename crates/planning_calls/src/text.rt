//! The load generator and the comparison of two air logs on lent buffers: document 02, A5 and A8. A
//! refused call writes nothing.

ghost use Rattle.std.specs.Prelude.{◌≡◌, length};
ghost use Rattle.load_spec.specs.Calls.{wanted, host_refusal, host_buffer, host_places};
ghost use Rattle.air_logs_spec.specs.Compare.{refusal_of, outcome_of, position_of};
ghost use Rattle.planning_calls.specs.Compare.{compare_returned, compare_buffer};

use air_logs_spec::Compared;
use bodies::refusals::{DONE, Refusal};

/// A call of the generator: 1, 9, or 0 with the lines in the buffer, the next state in next[0] and
/// their length in next[1]. The `N` line is wanted where head is not 0.
pub fn load_into(
    state: u32,
    n: u32,
    due: u32,
    head: u32,
    buffer: &mut [u8],
    next: &mut [u32],
) -> u32
    ensures returned { result
        ≡ host_refusal state n due (wanted head) (length buffer.old) (length next.old) }
    ensures buffer { buffer.new
        ≡ host_buffer state n due (wanted head) (length next.old) buffer.old }
    ensures next { next.new ≡ host_places state n due (wanted head) (length buffer.old) next.old }
{
    if !load::numbers_fit(n as usize, due) {
        return Refusal::BadNumber.number();
    }
    if next.len() < 2 {
        return Refusal::ShortBuffer.number();
    }
    let made = load::generate(buffer, state, n as usize, due, head != 0);
    if made.refusal != DONE {
        return made.refusal;
    }
    next[0] = made.state;
    next[1] = made.len as u32;
    DONE
}

// An answer's refusal, or 0.
fn refusal_of(answer: Compared) -> u32
    ensures { result ≡ refusal_of answer }
{
    match answer {
        Compared::Refused { refusal } => refusal,
        Compared::Equal
        | Compared::FirstBegins
        | Compared::SecondBegins
        | Compared::Different { .. } => DONE,
    }
}

// Which of the four answers it is: 0 equal, 1 first begins second, 2 second begins first, 3
// different.
fn outcome_of(answer: Compared) -> u64
    ensures { result ≡ outcome_of answer }
{
    match answer {
        Compared::Equal | Compared::Refused { .. } => 0,
        Compared::FirstBegins => 1,
        Compared::SecondBegins => 2,
        Compared::Different { .. } => 3,
    }
}

// The position of the first different edit; 0 where there is none.
fn position_of(answer: Compared) -> u64
    ensures { result ≡ position_of answer }
{
    match answer {
        Compared::Different { position } => position as u64,
        Compared::Equal
        | Compared::FirstBegins
        | Compared::SecondBegins
        | Compared::Refused { .. } => 0,
    }
}

/// How two air logs compare, put as two numbers into a lent buffer: 0, or the refusal.
#[tactic(auto, unfolding(crate::specs::Pair::pair_returned, crate::specs::Pair::pair_buffer), using(crate::proofs::Pair::two_put))]
pub fn compare_into(first: &[u8], p: u32, second: &[u8], q: u32, answer: &mut [u64]) -> u32
    ensures returned { result ≡ compare_returned first.now p second.now q answer.old }
    ensures answer { answer.new ≡ compare_buffer first.now p second.now q answer.old }
{
    let told = air_logs::compare(first, p as usize, second, q as usize);
    let refusal = refusal_of(told);
    if refusal != DONE {
        return refusal;
    }
    if answer.len() < 2 {
        return Refusal::ShortBuffer.number();
    }
    answer[0] = outcome_of(told);
    answer[1] = position_of(told);
    DONE
}
