//! A page of questions for one log (document 02, A11): by which round has a station received a
//! broadcast? One pass over the log answers the whole page.

ghost use Rattle.std.specs.Prelude.{◌≡◌, ℕ, ◌*◌, ◌<◌, ◌≤◌, length, slice_index};
ghost use Rattle.bodies.specs.Refusals.{number_of};
ghost use Rattle.lists.specs.Below.{any_below};
ghost use Rattle.planning_spec.specs.LinkLog.{rounds_of, links_of, log_refusal};
ghost use Rattle.planning_spec.specs.Questions.{question_at, is_bad, page_refusal, questions_refusal, Asked};
ghost use Rattle.planning_spec.specs.Questions.{most_questions, questions_call, page_answer};
ghost use Rattle.planning.specs.Sets.{highest_count};
ghost use Rattle.planning.specs.Replies.{settled, received_in, Settled, Replied};

use super::PLACES;
use super::logs::judge_log;
use super::sets::{begin_all, close, learn};
use bodies::refusals::Refusal;
use planning_spec::Arrival;

// A question is three numbers: sender, receiver and the number of the broadcast.
const PARTS: usize = 3;

const MOST_QUESTIONS: usize = 64;

// A reply after a round: what is replied stays.
#[tactic(auto, unfolding(crate::specs::Replies::settled))]
fn settle(reply: Arrival, number: u32, received: u16, round: u16) -> Arrival
    ensures { result ≡ settled reply number received round }
{
    match reply {
        Some(_) => reply,
        None if number <= received as u32 => Some(round),
        None => None,
    }
}

// How many broadcasts of s station r has received: those that ended, and the present one where r
// has it.
#[tactic(auto, unfolding(crate::specs::Replies::received_in))]
fn received(sets: &[u16; 256], ends: &[u16; 16], r: usize, s: usize) -> u16
    requires receiver { r < 16 }
    requires sender { s < 16 }
    requires room { slice_index ends.now s < highest_count }
    ensures { result ≡ received_in sets.now ends.now r s }
{
    if links::set_at(sets[PLACES * r + s], s) {
        ends[s] + 1
    } else {
        ends[s]
    }
}

// All replies after a round.
fn settle_all(
    replies: &mut [Arrival; 64],
    page: &[u32],
    count: usize,
    sets: &[u16; 256],
    ends: &[u16; 16],
    n: usize,
    round: u16,
)
    requires asked { Asked n count page.now }
    requires few { n ≤ 16 }
    requires size { length replies.old ≡ most_questions }
    requires room { (s : ℕ) → s < n → slice_index ends.now s < highest_count }
    ensures { Settled count page.now sets.now ends.now round replies.old replies.new }
{
    for i in 0..count {
        // What is replied stays, so nothing is looked up for it.
        if replies[i].is_some() {
            continue;
        }
        let s = page[PARTS * i] as usize;
        let r = page[PARTS * i + 1] as usize;
        let number = page[PARTS * i + 2];
        let reply = settle(replies[i], number, received(sets, ends, r, s), round);
        if reply.is_none() {
            continue;
        }
        replies[i] = reply;
    }
}

// The replies for a log and a page that are not refused.
fn reply_all(log: &[u16], n: usize, rounds: usize, page: &[u32], count: usize) -> [Arrival; 64]
    requires asked { Asked n count page.now }
    requires accepted { log_refusal n (length log.now) ≡ 0 }
    requires whole { rounds ≡ rounds_of n log.now }
    ensures { Replied (links_of n log.now) (rounds_of n log.now) count page.now result }
{
    let mut ends = [0u16; 16];
    let mut last = [0u16; 16];
    let mut sets = [0u16; 256];
    let mut replies = [None; 64];
    begin_all(&mut sets, n);
    settle_all(&mut replies, page, count, &sets, &ends, n, 0);
    for u in 0..rounds {
        let round = (u + 1) as u16;
        learn(&mut sets, log, u * n, n);
        close(&mut sets, &mut ends, &mut last, n, round);
        settle_all(&mut replies, page, count, &sets, &ends, n, round);
    }
    replies
}

// Does a question name a station not below n, or have a number below 1?
#[tactic(auto, unfolding(planning_spec::specs::Questions::is_bad))]
fn is_bad(s: u32, r: u32, number: u32, n: usize) -> bool
    ensures { result ≡ is_bad n (record { sender = s; receiver = r; number = number }) }
{
    n <= s as usize || n <= r as usize || number == 0
}

// Is one of the first questions bad?
fn any_bad(page: &[u32], count: usize, n: usize) -> bool
    requires { 3 * count ≤ length page.now }
    ensures { result ≡ any_below count (λ i. is_bad n (question_at page.now i)) }
{
    for i in 0..count {
        if is_bad(page[PARTS * i], page[PARTS * i + 1], page[PARTS * i + 2], n) {
            return true;
        }
    }
    false
}

// Judges a page for n stations.
#[tactic(auto, unfolding(planning_spec::specs::Questions::page_refusal))]
fn judge_page(page: &[u32], n: usize) -> Result<(), Refusal>
    ensures { number_of result ≡ page_refusal n page.now }
{
    let count = page.len() / PARTS;
    if page.len() % PARTS != 0 || MOST_QUESTIONS < count || any_bad(page, count, n) {
        return Err(Refusal::BadQuestion);
    }
    Ok(())
}

// Judges a log and a page.
#[tactic(auto, unfolding(planning_spec::specs::Questions::questions_refusal))]
fn judge(log: &[u16], n: usize, page: &[u32]) -> Result<(), Refusal>
    ensures { number_of result ≡ questions_refusal n log.now page.now }
{
    judge_log(log.len(), n)?;
    judge_page(page, n)
}

/// The answers to a page of questions for a log of n masks a round; None for never, and past the
/// page. A question is three numbers: sender, receiver, and the number of the broadcast. BadNumber:
/// n is not 1 to 16. BadLinkLog: the log is not whole rounds, or has more than 2,048. BadQuestion:
/// a question names a station not below n, has a number below 1, is not whole, or is past the 64th.
#[tactic(auto, unfolding(planning_spec::specs::Questions::questions_call), using(planning_spec::proofs::Refused::refused))]
pub fn answer(log: &[u16], n: usize, page: &[u32]) -> Result<[Arrival; 64], Refusal>
    ensures { page_answer result ≡ questions_call n log.now page.now }
{
    judge(log, n, page)?;
    Ok(reply_all(log, n, log.len() / n, page, page.len() / PARTS))
}
