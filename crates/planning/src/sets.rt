//! What stations know of each other's broadcasts, as sets in masks: bit r of the set of s at p is 1
//! where p knows that r has the present broadcast of s. The sets of all stand in 256 masks, the set
//! of s at p at place 16 p + s.

ghost use Rattle.std.specs.Prelude.{◌≡◌, ℕ, ◌+◌, ◌-◌, ◌^◌, ◌<◌, ◌≤◌, length, slice_index};
ghost use Rattle.std.specs.Int.Bits.{bit_and, bit_or};
ghost use Rattle.links.specs.Log.{bit};
ghost use Rattle.planning.specs.Sets.{cell, FirstAre, RowIs, ColumnIs, united, with_receiver, first_set};
ghost use Rattle.planning.specs.Sets.{is_full, Learnt, OneClosed, Closed, AllBegun, highest_count};

use super::PLACES;

// Unites a row with the sets that j had before the round.
#[tactic(auto, using(crate::proofs::Rows::first_start, crate::proofs::Rows::first_next, crate::proofs::Rows::first_more))]
fn unite(row: &mut [u16; 16], before: &[u16; 256], j: usize)
    requires { j < 16 }
    ensures { FirstAre 16 row.old row.new (λ s. bit_or (slice_index row.old s) (cell before.now j s)) }
{
    for s in 0..PLACES {
        row[s] |= before[PLACES * j + s];
    }
}

// The bits of a mask below n.
#[tactic(auto, using(crate::proofs::Bits::shifted32))]
fn below(mask: u16, n: usize) -> u16
    requires { n ≤ 16 }
    ensures { result ≡ bit_and mask (2 ^ n - 1) }
{
    ((mask as u32) & ((1u32 << n) - 1)) as u16
}

// Unites a row with the sets of all stations below n in the mask, from the lowest up. There is no
// test of a single bit: on links that change from round to round a processor would guess it wrong
// half of the time. So the loop goes over the bits that are set, and stays a `while`.
fn listen(row: &mut [u16; 16], before: &[u16; 256], mask: u16, n: usize)
    requires { n ≤ 16 }
    ensures { FirstAre 16 row.old row.new (λ s.
        united n (bit mask) (λ j. cell before.now j s) (slice_index row.old s)) }
{
    let mut rest = below(mask, n);
    while rest != 0 {
        unite(row, before, rest.trailing_zeros() as usize);
        rest &= rest - 1;
    }
}

/// A set of s at p, with p itself where the set has s: p then has the broadcast.
#[tactic(auto, unfolding(crate::specs::Sets::with_receiver, links::specs::Log::bit), using(crate::proofs::Bits::shifted16))]
pub fn with_receiver(set: u16, s: usize, p: usize) -> u16
    requires sender { s < 16 }
    requires receiver { p < 16 }
    ensures { result ≡ with_receiver p s set }
{
    if (set >> s) % 2 == 0 {
        set
    } else {
        set | (1u16 << p)
    }
}

// The same for all sets of a row.
#[tactic(auto, using(crate::proofs::Rows::first_start, crate::proofs::Rows::first_next, crate::proofs::Rows::first_more))]
fn add_receiver(row: &mut [u16; 16], p: usize)
    requires { p < 16 }
    ensures { FirstAre 16 row.old row.new (λ s. with_receiver p s (slice_index row.old s)) }
{
    for s in 0..PLACES {
        row[s] = with_receiver(row[s], s, p);
    }
}

// Puts a row in its place.
#[tactic(auto, using(crate::proofs::Rows::row_start, crate::proofs::Rows::row_more))]
fn store(sets: &mut [u16; 256], row: &[u16; 16], p: usize)
    requires { p < 16 }
    ensures { RowIs 16 sets.old sets.new p (λ s. slice_index row.now s) }
{
    for s in 0..PLACES {
        sets[PLACES * p + s] = row[s];
    }
}

// The sets of p, a row of their own.
fn row_of(sets: &[u16; 256], p: usize) -> [u16; 16]
    requires { p < 16 }
    ensures { (s : ℕ) → s < 16 → slice_index result s ≡ cell sets.now p s }
{
    let mut row = [0u16; 16];
    unite(&mut row, sets, p);
    row
}

/// A round for all, before the ends are looked at; the masks stand in the log from `at` on.
/// Everyone hears the sets as they stood before the round.
// A row is a local, so that it stays in registers. The own bit of a mask adds nothing, for the row
// begins as that of its station.
pub fn learn(sets: &mut [u16; 256], log: &[u16], at: usize, n: usize)
    requires few { n ≤ 16 }
    requires inside { at + n ≤ length log.now }
    ensures { Learnt n n (λ p. slice_index log.now (at + p)) sets.old sets.new }
{
    let before = *sets;
    for p in 0..n {
        let mut row = row_of(&before, p);
        listen(&mut row, &before, log[at + p], n);
        add_receiver(&mut row, p);
        store(sets, &row, p);
    }
}

/// The set of s at p when a broadcast of s begins: s alone at s, nobody elsewhere.
#[tactic(auto, unfolding(crate::specs::Sets::first_set), using(crate::proofs::Bits::shifted16))]
pub fn first_set(p: usize, s: usize) -> u16
    requires { s < 16 }
    ensures { result ≡ first_set p s }
{
    if p == s { 1u16 << s } else { 0 }
}

// Begins a broadcast of s.
#[tactic(auto, using(crate::proofs::Rows::column_start, crate::proofs::Rows::column_more))]
fn begin(sets: &mut [u16; 256], s: usize)
    requires { s < 16 }
    ensures { ColumnIs 16 sets.old sets.new s (λ p. first_set p s) }
{
    for p in 0..PLACES {
        sets[PLACES * p + s] = first_set(p, s);
    }
}

/// Are all of n stations in the set?
#[tactic(auto, unfolding(crate::specs::Sets::is_full), using(crate::proofs::Bits::shifted32))]
pub fn is_full(set: u16, n: usize) -> bool
    requires { n ≤ 16 }
    ensures { result ≡ is_full n set }
{
    let all = (1u32 << n) - 1;
    ((set as u32) & all) == all
}

// Where the set of s at s is full, ends its broadcast in this round and begins the next.
fn close_one(
    sets: &mut [u16; 256],
    ends: &mut [u16; 16],
    last: &mut [u16; 16],
    n: usize,
    s: usize,
    round: u16,
)
    requires few { n ≤ 16 }
    requires station { s < 16 }
    requires room { slice_index ends.old s < highest_count }
    ensures { OneClosed (is_full n (cell sets.old s s)) s round
        sets.old sets.new ends.old ends.new
        last.old last.new }
{
    if is_full(sets[PLACES * s + s], n) {
        ends[s] += 1;
        last[s] = round;
        begin(sets, s);
    }
}

/// The ends of a round, for all stations.
pub fn close(
    sets: &mut [u16; 256],
    ends: &mut [u16; 16],
    last: &mut [u16; 16],
    n: usize,
    round: u16,
)
    requires few { n ≤ 16 }
    requires room { (s : ℕ) → s < n → slice_index ends.old s < highest_count }
    ensures { Closed n n round
        sets.old sets.new ends.old ends.new
        last.old last.new }
{
    for s in 0..n {
        close_one(sets, ends, last, n, s, round);
    }
}

/// The sets before round 1.
#[tactic(auto, using(crate::proofs::Closing::fresh_start, crate::proofs::Closing::fresh_more))]
pub fn begin_all(sets: &mut [u16; 256], n: usize)
    requires { n ≤ 16 }
    ensures { AllBegun n sets.new }
{
    for station in 0..n {
        begin(sets, station);
    }
}
