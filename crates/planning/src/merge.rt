//! Two link logs merged: a hearing is there in a round if either log has it (document 02, A10).

ghost use Rattle.std.specs.Prelude.{◌≡◌, ℕ, List, max, ◌+◌, ◌-◌, ◌%◌, ◌^◌, ◌<◌, ◌≤◌, length, replicate, slice_index};
ghost use Rattle.std.specs.Int.Bits.{bit_and, bit_or, bit_xor};
ghost use Rattle.bodies.specs.Refusals.{number_of};
ghost use Rattle.lists.specs.Below.{set_below};
ghost use Rattle.planning.specs.MergedRounds.{fill_from};
ghost use Rattle.planning_spec.specs.Merge.{merged_mask, merged_log, logs_refusal, merge_call, merge_answer};
ghost use Rattle.planning_spec.specs.Merge.{front_written};

use super::logs::judge_log;
use bodies::refusals::Refusal;

// The stations that station p of n can hear: all below n but p.
fn others(n: usize, p: usize) -> u16
    requires few { n ≤ 16 }
    requires station { p < n }
    ensures { result ≡ bit_xor (2 ^ n - 1) (2 ^ p) }
{
    (((1u32 << n) - 1) as u16) ^ (1u16 << p)
}

// The same for each station below n.
#[tactic(auto, unfolding(lists::specs::Below::set_below), using(lists::proofs::Laws::set_below_more))]
fn all_others(n: usize) -> [u16; 16]
    requires { n ≤ 16 }
    ensures { result ≡ set_below n (λ p. bit_xor (2 ^ n - 1) (2 ^ p)) (replicate 16 0) }
{
    let mut table = [0u16; 16];
    for p in 0..n {
        table[p] = others(n, p);
    }
    table
}

// Writes a round whose masks stand in both logs from place `at` on.
#[tactic(auto, unfolding(crate::specs::MergedRounds::fill_from), using(crate::proofs::MergedRounds::from_more, crate::proofs::MergedRounds::length_from))]
fn unite_round(
    first: &[u16],
    second: &[u16],
    others: &[u16; 16],
    at: usize,
    n: usize,
    merged: &mut [u16],
)
    requires few { n ≤ 16 }
    requires in_first { at + n ≤ length first.now }
    requires in_second { at + n ≤ length second.now }
    requires in_merged { at + n ≤ length merged.old }
    ensures { merged.new ≡ fill_from at n (λ p.
        bit_and (bit_or (slice_index first.now (at + p)) (slice_index second.now (at + p)))
        (slice_index others.now p)) merged.old }
{
    for p in 0..n {
        merged[at + p] = (first[at + p] | second[at + p]) & others[p];
    }
}

// Writes the rounds from one place to another, whose masks stand in both logs. Where what is
// written before them is f of its places, and what they unite is, all of it is.
fn unite_rounds(
    first: &[u16],
    second: &[u16],
    others: &[u16; 16],
    from: usize,
    to: usize,
    n: usize,
    merged: &mut [u16],
)
    requires some { 0 < n }
    requires few { n ≤ 16 }
    requires begins { from % n ≡ 0 }
    requires ends { to % n ≡ 0 }
    requires order { from ≤ to }
    requires in_first { to ≤ length first.now }
    requires in_second { to ≤ length second.now }
    requires in_merged { to ≤ length merged.old }
    ensures { (f : ℕ → ℕ) → (l : List ℕ) → ((i : ℕ) → from ≤ i → i < to →
        bit_and (bit_or (slice_index first.now i) (slice_index second.now i))
        (slice_index others.now (i % n)) ≡ f i) →
        merged.old ≡ set_below from f l → merged.new ≡ set_below to f l }
{
    for at in (from..to).step_by(n) {
        unite_round(first, second, others, at, n, merged);
    }
}

// Writes the masks of the merged log to the front of a buffer: the rounds that both logs have, and
// then the others of the longer one. A log that has ended is silent, so that the other one is taken
// twice. No round looks at which log it is in, which was slower.
fn write_masks(first: &[u16], second: &[u16], n: usize, count: usize, merged: &mut [u16])
    requires accepted { logs_refusal n (length first.now) (length second.now) ≡ 0 }
    requires longer { count ≡ max (length first.now) (length second.now) }
    requires room { count ≤ length merged.old }
    ensures { merged.new
        ≡ set_below count (merged_mask n first.now second.now) merged.old }
{
    let others = all_others(n);
    if first.len() < second.len() {
        unite_rounds(first, second, &others, 0, first.len(), n, merged);
        unite_rounds(second, second, &others, first.len(), count, n, merged);
    } else {
        unite_rounds(first, second, &others, 0, second.len(), n, merged);
        unite_rounds(first, first, &others, second.len(), count, n, merged);
    }
}

/// Judges two logs of so many masks for n stations, each as `judge_log` does, the first log first.
#[tactic(auto, unfolding(planning_spec::specs::Merge::logs_refusal))]
pub fn judge_logs(first: usize, second: usize, n: usize) -> Result<(), Refusal>
    ensures { number_of result ≡ logs_refusal n first second }
{
    judge_log(first, n)?;
    judge_log(second, n)
}

/// Puts the merged log of two logs of n masks a round into a buffer. It is as long as the longer
/// one, and so many masks are the result; entries of the buffer past it stay. Bits that are no
/// hearing are 0. BadNumber: n is not 1 to 16. BadLinkLog: a log is not whole rounds, or has more
/// than 2,048. ShortBuffer: the buffer is shorter than the merged log. A refused call changes no
/// entry.
#[tactic(auto, unfolding(planning_spec::specs::Merge::merge_call, planning_spec::specs::Merge::merge_refusal, planning_spec::specs::Merge::front_written), using(planning_spec::proofs::Refused::refused))]
pub fn merge(first: &[u16], second: &[u16], n: usize, merged: &mut [u16]) -> Result<usize, Refusal>
    ensures answer { merge_answer result ≡ merge_call n first.now second.now (length merged.old) }
    ensures written { merged.new
        ≡ front_written (number_of result) (merged_log n first.now second.now) merged.old }
{
    judge_logs(first.len(), second.len(), n)?;
    let count = first.len().max(second.len());
    if merged.len() < count {
        return Err(Refusal::ShortBuffer);
    }
    write_masks(first, second, n, count, merged);
    Ok(count)
}
