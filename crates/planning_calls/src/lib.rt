//! The calls on lent buffers that need no state: document 02, A1, A10, A11 and A13 here, A5 and A8
//! in `text`. A refused call writes nothing.

#![tactic(auto)]

pub mod text;

ghost use Rattle.std.specs.Prelude.{[], ◌∷◌, ◌≡◌, ◌≤◌, length, slice_index, slice_index_or};
ghost use Rattle.lists.specs.Below.{set_below};
ghost use Rattle.planning_spec.specs.Forecast.{forecast_call, forecast_into_refusal, written_into};
ghost use Rattle.planning_spec.specs.Merge.{merged_log, front_written, merge_into_refusal};
ghost use Rattle.planning_spec.specs.Questions.{most_questions, never, arrival_number, answer_numbers};
ghost use Rattle.planning_spec.specs.Questions.{questions_into_refusal};
ghost use Rattle.planning_calls.specs.Contest.{contest_returned, contest_buffer};

use bodies::refusals::Refusal;
use planning_spec::Arrival;

// A forecast has an entry for each of sixteen stations.
const PLACES: usize = 16;

// A question is three numbers: sender, receiver and the number of the broadcast.
const PARTS: usize = 3;

// What stands for never: no round has this number.
const NEVER: u32 = 4294967295;

// Writes sixteen entries to the front of a buffer.
fn write_entries(buffer: &mut [u16], entries: &[u16; 16])
    requires { 16 ≤ length buffer.old }
    ensures { buffer.new ≡ set_below 16 (λ k. slice_index entries.now k) buffer.old }
{
    buffer[..PLACES].copy_from_slice(entries);
}

/// The forecast of a log into two lent buffers, sixteen entries each: 0, or the refusal.
#[tactic(auto, unfolding(planning_spec::specs::Forecast::forecast_call, planning_spec::specs::Forecast::forecast_into_refusal, planning_spec::specs::Forecast::written_into), using(planning_spec::proofs::Refused::refused))]
pub fn forecast_into(log: &[u16], n: u32, ends: &mut [u16], last: &mut [u16]) -> u32
    ensures returned { result ≡ forecast_into_refusal n log.now ends.old last.old }
    ensures ends { ends.new ≡ written_into result (forecast_call n log.now).ends ends.old }
    ensures last { last.new ≡ written_into result (forecast_call n log.now).last last.old }
{
    let told = match planning::forecast::forecast(log, n as usize) {
        Ok(told) => told,
        Err(bad_log) => return bad_log.number(),
    };
    if ends.len() < PLACES || last.len() < PLACES {
        return Refusal::ShortBuffer.number();
    }
    write_entries(ends, &told.ends);
    write_entries(last, &told.last);
    0
}

/// The merged log into a lent buffer, and its number of masks into another: 0, or the refusal.
#[tactic(auto, unfolding(planning_spec::specs::Merge::merge_call, planning_spec::specs::Merge::merge_into_refusal, planning_spec::specs::Merge::merge_refusal, planning_spec::specs::Merge::front_written), using(planning_spec::proofs::Refused::refused, planning_spec::proofs::Merge::merged_length))]
pub fn merge_into(
    first: &[u16],
    second: &[u16],
    n: u32,
    merged: &mut [u16],
    masks: &mut [u32],
) -> u32
    ensures returned { result ≡ merge_into_refusal n first.now second.now merged.old masks.old }
    ensures merged { merged.new
        ≡ front_written result (merged_log n first.now second.now) merged.old }
    ensures masks { masks.new
        ≡ front_written result (length (merged_log n first.now second.now) ∷ []) masks.old }
{
    if masks.is_empty() {
        return match planning::merge::judge_logs(first.len(), second.len(), n as usize) {
            Ok(()) => Refusal::ShortBuffer.number(),
            Err(bad_log) => bad_log.number(),
        };
    }
    match planning::merge::merge(first, second, n as usize, merged) {
        Ok(count) => {
            masks[0] = count as u32;
            0
        }
        Err(refusal) => refusal.number(),
    }
}

// The number that an answer is in a lent buffer.
#[tactic(auto, unfolding(planning_spec::specs::Questions::arrival_number))]
fn arrival_number(arrival: Arrival) -> u32
    ensures { result ≡ arrival_number arrival }
{
    match arrival {
        Some(round) => round as u32,
        None => NEVER,
    }
}

// Writes the first answers to the front of a buffer.
#[tactic(auto, unfolding(lists::specs::Below::set_below), using(lists::proofs::Laws::set_below_more))]
fn write_answers(buffer: &mut [u32], answers: &[Arrival; 64], count: usize)
    requires few { count ≤ most_questions }
    requires room { count ≤ length buffer.old }
    ensures { buffer.new
        ≡ set_below count (λ i. arrival_number (slice_index_or answers.now i never)) buffer.old }
{
    for i in 0..count {
        buffer[i] = arrival_number(answers[i]);
    }
}

/// The answers to a page of questions into a lent buffer, one a question: 0, or the refusal.
#[tactic(auto, unfolding(planning_spec::specs::Questions::questions_call, planning_spec::specs::Questions::questions_into_refusal, planning_spec::specs::Merge::front_written), using(planning_spec::proofs::Refused::refused))]
pub fn questions_into(log: &[u16], n: u32, page: &[u32], answers: &mut [u32]) -> u32
    ensures returned { result ≡ questions_into_refusal n log.now page.now answers.old }
    ensures answers { answers.new
        ≡ front_written result (answer_numbers n log.now page.now) answers.old }
{
    let told = match planning::questions::answer(log, n as usize, page) {
        Ok(told) => told,
        Err(bad_page) => return bad_page.number(),
    };
    let count = page.len() / PARTS;
    if answers.len() < count {
        return Refusal::ShortBuffer.number();
    }
    write_answers(answers, &told, count);
    0
}

/// Who can force the result of a contest, put as two numbers into a lent buffer, 0 the breaker or 1
/// the keeper and the keeper's first pick, else 0: 0, or the refusal.
#[tactic(auto, unfolding(crate::specs::Pair::pair_returned, crate::specs::Pair::pair_buffer, crate::specs::Contest::answer_refusal, crate::specs::Contest::answer_winner, crate::specs::Contest::answer_pick), using(planning_spec::proofs::Refused::refused, crate::proofs::Pair::two_put))]
pub fn contest_into(n: u32, s: u32, sets: &[u16], rounds: u32, answer: &mut [u32]) -> u32
    ensures returned { result ≡ contest_returned n s sets.now rounds answer.old }
    ensures answer { answer.new ≡ contest_buffer n s sets.now rounds answer.old }
{
    let told = match contest::contest(n as usize, s as usize, sets, rounds as usize) {
        Ok(told) => told,
        Err(bad_contest) => return bad_contest.number(),
    };
    if answer.len() < 2 {
        return Refusal::ShortBuffer.number();
    }
    let (winner, pick) = match told {
        Some(pick) => (1, pick),
        None => (0, 0),
    };
    answer[0] = winner;
    answer[1] = pick;
    0
}
