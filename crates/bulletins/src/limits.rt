// When the bulletins of a group are inside their limits (document 02, A12). Sets from N up, and
// tags and events of places at which no bulletin stands, are not looked at.

ghost use Rattle.std.specs.Prelude.{◌≡◌, not, ◌&&◌, ◌||◌, ◌+◌, ◌*◌, ◌^◌, ◌≤◌, ◌<◌, ◌==◌};
ghost use Rattle.std.specs.Int.Bits.{bit_or};
ghost use Rattle.links.specs.Log.{bit};
ghost use Rattle.lists.specs.Below.{all_below};
ghost use Rattle.bulletins_spec.specs.State.{quota, all_places, issuer_of, stands, tag_at, other_tag, held_inside};
ghost use Rattle.bulletins_spec.specs.State.{event_inside, own_inside, bulletins_inside};
ghost use Rattle.bulletins.specs.Sets.{standing_below};

use super::{OWN, STATIONS};
use bodies::limits::KINDS;
use bulletins_spec::Bulletins;

// No set has more places.
const PLACES: usize = 64;

// The kind whose limits hold for an event.
const INSERT: usize = 2;

// Sets are kept as numbers and not as a type of their own: the definitions, the state and its bytes
// have them as numbers, and each of these two functions is one expression.

/// Is the bulletin at place s in the set?
#[tactic(auto, using(crate::proofs::Subsets::bit_outside), unfolding(links::specs::Log::bit))]
pub fn in_set(set: u64, s: usize) -> bool
    ensures { result ≡ bit set s }
{
    s < PLACES && (set >> s) % 2 == 1
}

/// The set with place s.
#[tactic(auto, using(crate::proofs::Subsets::shifted64))]
pub fn with_place(set: u64, s: usize) -> u64
    requires { s < all_places }
    ensures { result ≡ bit_or set (2 ^ s) }
{
    set | (1u64 << s)
}

/// Does a bulletin stand at place s: does its issuer hold it?
pub fn stands(b: &Bulletins, s: usize) -> bool
    requires { s < all_places }
    ensures { result ≡ stands b.now s }
{
    in_set(b.held[s / OWN], s)
}

/// Is the event inside the limits of kind 2?
pub fn event_inside(event: u32) -> bool
    ensures { result ≡ event_inside event }
{
    let row = KINDS[INSERT];
    row.least_event <= event && event <= row.most_event
}

/// Does a bulletin with this tag stand at place s?
pub fn same_tag(b: &Bulletins, s: usize, tag: u32) -> bool
    requires { s < all_places }
    ensures { result ≡ (stands b.now s && tag_at b.now s == tag) }
{
    stands(b, s) && b.tags[s] == tag
}

// Has no bulletin at place r, unless r is s, the tag of the one at s?
fn other_tag(b: &Bulletins, s: usize, r: usize) -> bool
    requires place { s < all_places }
    requires other { r < all_places }
    ensures { result ≡ other_tag b.now s r }
{
    r == s || !same_tag(b, r, b.tags[s])
}

// Has no other bulletin of its issuer the tag of the one at s?
#[tactic(auto, using(lists::proofs::Laws::all_below_more), unfolding(lists::specs::Below::all_below))]
fn alone(b: &Bulletins, s: usize) -> bool
    requires { s < all_places }
    ensures { result ≡ all_below quota (λ k. other_tag b.now s (quota * issuer_of s + k)) }
{
    let first = OWN * (s / OWN);
    for k in 0..OWN {
        if !other_tag(b, s, first + k) {
            return false;
        }
    }
    true
}

// Is the bulletin at place s, if one stands there, inside its limits?
fn own_inside(b: &Bulletins, s: usize) -> bool
    requires { s < all_places }
    ensures { result ≡ own_inside b.now s }
{
    !stands(b, s) || (event_inside(b.events[s]) && alone(b, s))
}

// Are the bulletins of all issuers below n inside their limits?
#[tactic(auto, using(lists::proofs::Laws::all_below_more), unfolding(lists::specs::Below::all_below))]
fn all_own_inside(b: &Bulletins) -> bool
    requires few { b.now.n ≤ 16 }
    ensures { result ≡ all_below (quota * b.now.n) (own_inside b.now) }
{
    for s in 0..OWN * b.n {
        if !own_inside(b, s) {
            return false;
        }
    }
    true
}

// The set of all places of issuers below n at which a bulletin stands.
#[tactic(auto, using(crate::proofs::Subsets::standing_more), unfolding(crate::specs::Sets::standing_below))]
fn standing(b: &Bulletins) -> u64
    requires few { b.now.n ≤ 16 }
    ensures { result ≡ standing_below b.now (quota * b.now.n) }
{
    let mut set: u64 = 0;
    for s in 0..OWN * b.n {
        if stands(b, s) {
            set = with_place(set, s);
        }
    }
    set
}

// Is all of one set in the other?
#[tactic(auto, using(crate::proofs::Subsets::within_bits))]
fn within(set: u64, all: u64) -> bool
    ensures { result ≡ all_below all_places (λ s. not (bit set s) || bit all s) }
{
    set & all == set
}

// Has all that a station below n holds an issuer below n that holds it too?
#[tactic(auto, using(lists::proofs::Laws::all_below_more), unfolding(lists::specs::Below::all_below))]
fn all_held_inside(b: &Bulletins) -> bool
    requires few { b.now.n ≤ 16 }
    ensures { result ≡ all_below b.now.n (λ p. all_below all_places (held_inside b.now p)) }
{
    let all = standing(b);
    for p in 0..b.n {
        if !within(b.held[p], all) {
            return false;
        }
    }
    true
}

/// Are the bulletins inside their limits?
#[tactic(auto, unfolding(bulletins_spec::specs::State::bulletins_inside))]
pub fn inside(b: &Bulletins) -> bool
    ensures { result ≡ bulletins_inside b.now }
{
    1 <= b.n && b.n <= STATIONS && all_held_inside(b) && all_own_inside(b)
}
