// What each station shows in a round.

ghost use Rattle.std.specs.Prelude.{◌≡◌, [], ℕ, ◌+◌, ◌*◌, ◌≤◌, ◌<◌, set, slice_index, take};
ghost use Rattle.lists.specs.Below.{set_below};
ghost use Rattle.bulletins_spec.specs.State.{quota, all_places, set_of, notice_at};
ghost use Rattle.bulletins_spec.specs.Order.{picked};
ghost use Rattle.bulletins_spec.specs.Calls.{shown_of, none_shown};
ghost use Rattle.bulletins.specs.Sets.{new_in};

use super::{NO_NOTICE, OWN};
use bulletins_spec::{Bulletins, Notice, Shown};

// Is the bulletin at place s in the second set and not in the first?
#[tactic(auto, unfolding(crate::specs::Sets::new_in))]
fn gained(before: u64, after: u64, s: usize) -> bool
    ensures { result ≡ new_in before after s }
{
    super::limits::in_set(after, s) && !super::limits::in_set(before, s)
}

// The bulletin at place s.
fn notice_at(b: &Bulletins, s: usize) -> Notice
    requires { s < all_places }
    ensures { result ≡ notice_at b.now s }
{
    Notice {
        issuer: (s / OWN) as u32,
        tag: b.tags[s],
        event: b.events[s],
    }
}

// Nothing is shown.
#[tactic(auto, unfolding(bulletins_spec::specs::Calls::shown_of))]
fn nothing() -> Shown
    ensures { result ≡ shown_of [] }
{
    Shown {
        len: 0,
        notices: [NO_NOTICE; 64],
    }
}

// One notice more is shown.
fn push(shown: &mut Shown, notice: Notice)
    requires room { shown.old.len < all_places }
    ensures { shown.new ≡ record {
      len = shown.old.len + 1;
      notices = set shown.old.notices shown.old.len notice;
    } }
{
    shown.notices[shown.len] = notice;
    shown.len += 1;
}

// What a station shows whose set was `before` and is `after`, in the order of the places.
#[tactic(auto, using(crate::proofs::Pushing::items_few, crate::proofs::Pushing::item_small, crate::proofs::Pushing::room_left, crate::proofs::Pushing::more_shown, crate::proofs::Pushing::no_more_shown), unfolding(bulletins_spec::specs::Order::picked))]
fn shown_by(b: &Bulletins, places: &[usize; 64], before: u64, after: u64) -> Shown
    requires few { b.now.n ≤ 16 }
    requires places { (t : ℕ) → t < quota * b.now.n → slice_index places.now t < all_places }
    ensures { result ≡ shown_of
        (picked (new_in before after) (notice_at b.now) (take (quota * b.now.n) places.now)) }
{
    let mut shown = nothing();
    for &s in &places[..OWN * b.n] {
        if gained(before, after, s) {
            push(&mut shown, notice_at(b, s));
        }
    }
    shown
}

/// Nobody shows anything.
#[tactic(auto, unfolding(bulletins_spec::specs::Calls::none_shown))]
pub fn none_shown() -> [Shown; 16]
    ensures { result ≡ none_shown }
{
    [nothing(); 16]
}

/// What all stations show whose sets are now `after`; where a set is as before, that is nothing.
/// `places` are gone through in their order, four for each station.
#[tactic(auto, unfolding(lists::specs::Below::set_below))]
pub fn all_shown(b: &Bulletins, places: &[usize; 64], after: &[u64; 16]) -> [Shown; 16]
    requires few { b.now.n ≤ 16 }
    requires places { (t : ℕ) → t < quota * b.now.n → slice_index places.now t < all_places }
    ensures { result ≡ set_below b.now.n
        (λ p. shown_of (picked (new_in (set_of b.now p) (slice_index after.now p))
        (notice_at b.now) (take (quota * b.now.n) places.now)))
        none_shown }
{
    let mut shown = none_shown();
    for p in 0..b.n {
        if b.held[p] != after[p] {
            shown[p] = shown_by(b, places, b.held[p], after[p]);
        }
    }
    shown
}
