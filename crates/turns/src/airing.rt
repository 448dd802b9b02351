// The airing step of a turn: where every lane has a body, the oldest of each makes the row.

ghost use Rattle.std.specs.Prelude.{◌≡◌, if◌then◌else◌, Some, None, ◌≤◌, slice_index_or};
ghost use Rattle.lists.specs.Below.{set_below};
ghost use Rattle.queues.specs.Lane.{no_lane, popped};
ghost use Rattle.turns.specs.Lanes.{each_has_body, oldest_of_each};

use queues::{Lane, Slot};

// Has each of the first n lanes a body?
fn all_full(n: usize, lanes: &[Lane; 16]) -> bool
    requires few { n ≤ 16 }
    ensures { result ≡ each_has_body n (λ k. slice_index_or lanes.now k no_lane) }
{
    lanes[..n].iter().all(|lane| 0 < lane.len)
}

/// Airs a row from the first n lanes, or nothing.
#[tactic(auto, using(crate::proofs::AirSteps::row_more, crate::proofs::AirSteps::left_more), unfolding(lists::specs::Below::set_below))]
pub fn air(n: usize, lanes: &mut [Lane; 16]) -> Option<[Slot; 16]>
    requires few { n ≤ 16 }
    ensures row { result ≡ (if each_has_body n (λ k. slice_index_or lanes.old k no_lane)
        then Some (oldest_of_each n (λ k. slice_index_or lanes.old k no_lane)) else None) }
    ensures left { lanes.new ≡ (if each_has_body n (λ k. slice_index_or lanes.old k no_lane)
        then set_below n (λ k. popped (slice_index_or lanes.old k no_lane)) lanes.old else lanes.old) }
{
    if !all_full(n, lanes) {
        return None;
    }
    let mut row = [Slot::EMPTY; 16];
    for k in 0..n {
        row[k] = Slot {
            body: lanes[k].first,
        };
        lanes[k].pop();
    }
    Some(row)
}
