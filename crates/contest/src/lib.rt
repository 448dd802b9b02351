//! The link contest (document 02, A13). Of one station s, the set at place p has the stations of
//! which p knows that they have the broadcast of s.

#![tactic(auto)]

ghost use Rattle.std.specs.Prelude.{◌≡◌, ◌*◌, ◌+◌, ◌<◌, ◌≤◌, length, unwrap_or, IfSome};
ghost use Rattle.bodies.specs.Refusals.{number_of};
ghost use Rattle.contest.specs.Contest.{most_stations};
ghost use Rattle.contest.specs.Winner.{lowest};
ghost use Rattle.contest.specs.Answer.{contest_refusal, contest_answer, contest_call};
ghost use Rattle.contest.specs.Inner.KnownSets.{learnt_one, after, mask_of, is_keeper, wins_from, opening};

use bodies::refusals::Refusal;
use planning::logs::mask_hears;
use planning::sets::{first_set, is_full, with_receiver};

// No group has more stations.
const PLACES: usize = 16;

// The most stations, sets and rounds of a contest.
const MOST_STATIONS: usize = 4;

const MOST_SETS: usize = 4;

const MOST_ROUNDS: usize = 6;

// The two sides: the keeper wants the broadcast to end, the breaker prevents it.
#[derive(Clone, Copy, PartialEq, Eq)]
enum Player {
    Keeper,
    Breaker,
}

impl Player {
    ghost use Rattle.std.specs.Prelude.{◌≡◌, not};
    ghost use Rattle.contest.specs.Inner.KnownSets.{is_keeper};

    fn other(self) -> Self
        ensures { is_keeper result ≡ not (is_keeper self) }
    {
        match self {
            Player::Keeper => Player::Breaker,
            Player::Breaker => Player::Keeper,
        }
    }
}

// The set at p after a round in which p has this mask.
#[tactic(auto, unfolding(crate::specs::Inner::KnownSets::learnt_one), using(planning::proofs::Rows::united_zero, planning::proofs::Rows::united_more))]
fn learn_one(know: &[u16; 4], mask: u16, n: usize, p: usize, s: usize) -> u16
    requires few { n ≤ most_stations }
    requires hearer { p < n }
    requires sender { s < n }
    ensures { result ≡ learnt_one n s mask know.now p }
{
    let mut set = know[p];
    for j in 0..n {
        if mask_hears(mask, p, j) {
            set |= know[j];
        }
    }
    with_receiver(set, s, p)
}

// The sets after a round whose masks stand from `at` on.
#[tactic(auto, unfolding(crate::specs::Inner::KnownSets::after, lists::specs::Below::set_below), using(lists::proofs::Laws::set_below_more))]
fn learn(know: [u16; 4], masks: &[u16], at: usize, n: usize, s: usize) -> [u16; 4]
    requires few { n ≤ most_stations }
    requires sender { s < n }
    requires inside { at + n ≤ length masks.now }
    ensures { result ≡ after n s (mask_of masks.now at) know }
{
    let mut next = know;
    for p in 0..n {
        next[p] = learn_one(&know, masks[at + p], n, p, s);
    }
    next
}

// Who forces the result from these sets, at least one round played, with so many rounds left? The
// next pick is the picker's.
fn winner(
    know: [u16; 4],
    masks: &[u16],
    n: usize,
    s: usize,
    count: usize,
    left: usize,
    picker: Player,
) -> Player
    requires few { n ≤ most_stations }
    requires sender { s < n }
    requires whole { length masks.now ≡ count * n }
    ensures { is_keeper result ≡ wins_from n s count masks.now left (is_keeper picker) know }
{
    if is_full(know[s], n) {
        return Player::Keeper;
    }
    if left == 0 {
        return Player::Breaker;
    }
    for i in 0..count {
        let next = learn(know, masks, i * n, n, s);
        if winner(next, masks, n, s, count, left - 1, picker.other()) == picker {
            return picker;
        }
    }
    picker.other()
}

// The lowest first pick from which the keeper can force the end, if there is one.
fn first_pick(masks: &[u16], n: usize, s: usize, count: usize, left: usize) -> Option<usize>
    requires few { n ≤ most_stations }
    requires sender { s < n }
    requires whole { length masks.now ≡ count * n }
    ensures lowest { unwrap_or result count ≡ lowest count 0 (opening n s count masks.now left) }
    ensures below { IfSome result (λ i. i < count) }
{
    let mut know = [0u16; 4];
    know[s] = first_set(s, s);
    for i in 0..count {
        let next = learn(know, masks, i * n, n, s);
        if winner(next, masks, n, s, count, left, Player::Breaker) == Player::Keeper {
            return Some(i);
        }
    }
    None
}

// Judges a contest about station s of n, with so many masks and rounds.
#[tactic(auto, unfolding(crate::specs::Answer::contest_refusal))]
fn judge(n: usize, s: usize, masks: usize, rounds: usize) -> Result<(), Refusal>
    ensures { number_of result ≡ contest_refusal n s masks rounds }
{
    if n < 1 || PLACES < n || n <= s {
        return Err(Refusal::BadNumber);
    }
    if MOST_STATIONS < n
        || masks % n != 0
        || masks / n < 1
        || MOST_SETS < masks / n
        || MOST_ROUNDS < rounds
    {
        return Err(Refusal::BadContest);
    }
    Ok(())
}

/// Who can force the result about station s of n, with the sets that the masks hold, n a set, over
/// so many rounds: the keeper, with the lowest first pick from which it still can, or the breaker,
/// which is None. BadNumber: n is not 1 to 16, or s is not below n. BadContest: n is above 4, the
/// masks are not one to four whole sets, or there are more than six rounds.
#[tactic(auto, unfolding(crate::specs::Answer::contest_call), using(planning_spec::proofs::Refused::refused))]
pub fn contest(n: usize, s: usize, masks: &[u16], rounds: usize) -> Result<Option<u32>, Refusal>
    ensures { contest_answer result ≡ contest_call n s masks.now rounds }
{
    judge(n, s, masks.len(), rounds)?;
    if rounds == 0 {
        return Ok(None);
    }
    match first_pick(masks, n, s, masks.len() / n, rounds - 1) {
        Some(pick) => Ok(Some(pick as u32)),
        None => Ok(None),
    }
}
