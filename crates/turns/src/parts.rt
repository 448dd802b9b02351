// The parts of a turn, each on what it needs of a station.

ghost use Rattle.std.specs.Prelude.{◌≡◌, true, false, if◌then◌else◌, ◌&&◌, ◌≤◌, ◌<◌, ◌==◌, slice_index_or};
ghost use Rattle.bodies.specs.Body.{is_empty};
ghost use Rattle.bodies.specs.declared.Body.TheVariants.{Empty, Neutral};
ghost use Rattle.labels.specs.Label.{successor};
ghost use Rattle.lists.specs.Below.{all_below, set_below};
ghost use Rattle.queues.specs.Lane.{no_lane, pushed};
ghost use Rattle.queues.specs.Queue.{queue_capacity};
ghost use Rattle.queues.specs.Waiting.{waiting_count, desk_count, next_desk, without_next};

use bodies::Body;
use queues::{Lane, Waiting};

/// Are all n acknowledged?
pub fn all_acked(n: usize, acked: &[bool; 16]) -> bool
    requires few { n ≤ 16 }
    ensures { result ≡ all_below n (λ k. slice_index_or acked.now k false) }
{
    acked[..n].iter().all(|&is_acked| is_acked)
}

/// At the end of a broadcast, of the first n only own is left.
#[tactic(auto, using(lists::proofs::Laws::set_below_more), unfolding(lists::specs::Below::set_below))]
pub fn keep_own(ended: bool, n: usize, own: usize, acked: &mut [bool; 16])
    requires few { n ≤ 16 }
    ensures { acked.new ≡ (if ended then set_below n (λ k. k == own) acked.old else acked.old) }
{
    if !ended {
        return;
    }
    for k in 0..n {
        acked[k] = k == own;
    }
}

/// Puts a body last in a lane, unless the body is Empty.
pub fn put(body: Body, lane: &mut Lane)
    ensures { lane.new ≡ (if is_empty body then lane.old else pushed lane.old body) }
{
    if !body.is_empty() {
        lane.push(body);
    }
}

/// What starts, by the bodies in the own lane, whether an edit waits, and the edit that is next.
pub fn started_body(ended: bool, own_len: u8, waits: bool, next_edit: Body) -> Body
    ensures { result ≡ (if ended then if own_len == 0 then if waits then next_edit else Neutral else Empty else Empty) }
{
    if ended && own_len == 0 {
        if waits { next_edit } else { Body::Neutral }
    } else {
        Body::Empty
    }
}

/// Does a waiting edit start?
pub fn starts_edit(ended: bool, own_len: u8, waits: bool) -> bool
    ensures { result ≡ (ended && (own_len == 0 && waits)) }
{
    ended && own_len == 0 && waits
}

/// Starts the next edit, if it is one that starts.
pub fn start_next(starts: bool, waiting: &mut Waiting)
    requires waits { starts ≡ true → 0 < waiting_count waiting.old }
    requires room { desk_count waiting.old (next_desk waiting.old) ≤ queue_capacity }
    ensures { waiting.new ≡ (if starts then without_next waiting.old else waiting.old) }
{
    if starts {
        waiting.start_next();
    }
}

/// The first body where the test holds, else the second.
pub fn body_of(test: bool, one: Body, other: Body) -> Body
    ensures { result ≡ (if test then one else other) }
{
    if test { one } else { other }
}

/// The count after the end of a broadcast, or where it goes on.
pub fn count_after(ended: bool, count: u8) -> u8
    ensures { result ≡ (if ended then 0 else count) }
{
    if ended { 0 } else { count }
}

/// The own label after the end of a broadcast, or where it goes on.
pub fn label_after(ended: bool, label: u8) -> u8
    ensures { result ≡ (if ended then successor label else label) }
{
    if ended {
        labels::successor(label)
    } else {
        label
    }
}
