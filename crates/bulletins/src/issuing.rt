// An issue: what refuses it, the issuer's places, and the state with one more bulletin.

ghost use Rattle.std.specs.Prelude.{◌≡◌, ◌+◌, ◌*◌, ◌^◌, ◌<◌, IfSome, IfOk, OnOk, set, unwrap_or};
ghost use Rattle.std.specs.Int.Bits.{bit_or};
ghost use Rattle.bodies.specs.Refusals.{number_of};
ghost use Rattle.bulletins_spec.specs.State.{quota, all_places, set_of};
ghost use Rattle.bulletins_spec.specs.Calls.{free_place, has_tag, issue_refusal, no_notice};

use super::limits::{event_inside, inside, same_tag, stands, with_place};
use super::{NO_NOTICE, OWN};
use bodies::refusals::Refusal;
use bulletins_spec::{Bulletins, IssueDone};

/// A refused issue: the state as it was given, with the number of the refusal.
pub fn refused(b: Bulletins, number: u32) -> IssueDone
    ensures { result ≡ record { refusal = number; bulletins = b; shown = no_notice } }
{
    IssueDone {
        refusal: number,
        bulletins: b,
        shown: NO_NOTICE,
    }
}

/// Has the issuer a bulletin with this tag?
#[tactic(auto, using(lists::proofs::Laws::any_below_hit, crate::proofs::Free::any_more), unfolding(lists::specs::Below::any_below, bulletins_spec::specs::Calls::has_tag))]
pub fn has_tag(b: &Bulletins, issuer: usize, tag: u32) -> bool
    requires { issuer < 16 }
    ensures { result ≡ has_tag b.now issuer tag }
{
    for k in 0..OWN {
        if same_tag(b, OWN * issuer + k, tag) {
            return true;
        }
    }
    false
}

/// The issuer's first place at which no bulletin stands, if there is one.
pub fn free_place(b: &Bulletins, issuer: usize) -> Option<usize>
    requires { issuer < 16 }
    ensures first { unwrap_or result (quota * issuer + quota) ≡ free_place b.now issuer }
    ensures own { IfSome result (λ s. s < quota * issuer + quota) }
{
    for s in OWN * issuer..OWN * issuer + OWN {
        if !stands(b, s) {
            return Some(s);
        }
    }
    None
}

/// The place of one more bulletin, or why it is refused.
#[tactic(auto, unfolding(bulletins_spec::specs::Calls::issue_refusal))]
pub fn place_for(b: &Bulletins, issuer: usize, tag: u32, event: u32) -> Result<usize, Refusal>
    ensures refusal { number_of result ≡ issue_refusal b.now issuer tag event }
    ensures place { IfOk result (λ s. s ≡ free_place b.now issuer) }
    ensures within { IfOk result (λ s. s < all_places) }
    ensures issuer { OnOk result (issuer < 16) }
{
    if !inside(b) {
        return Err(Refusal::OutsideLimits);
    }
    if b.n <= issuer {
        return Err(Refusal::BadNumber);
    }
    if !event_inside(event) {
        return Err(Refusal::NotAnEdit);
    }
    if has_tag(b, issuer, tag) {
        return Err(Refusal::AlreadyIssued);
    }
    free_place(b, issuer).ok_or(Refusal::AlreadyIssued)
}

/// Puts a bulletin at place s, which its issuer holds.
pub fn put_bulletin(b: &mut Bulletins, issuer: usize, s: usize, tag: u32, event: u32)
    requires issuer { issuer < 16 }
    requires place { s < all_places }
    ensures { b.new ≡ record {
      n = b.old.n;
      tags = set b.old.tags s tag;
      events = set b.old.events s event;
      held = set b.old.held issuer (bit_or (set_of b.old issuer) (2 ^ s));
    } }
{
    b.tags[s] = tag;
    b.events[s] = event;
    b.held[issuer] = with_place(b.held[issuer], s);
}
