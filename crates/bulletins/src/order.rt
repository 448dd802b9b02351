// The places of all issuers, by issuer and then by tag.

ghost use Rattle.std.specs.Prelude.{◌≡◌, ◌++◌, ◌+◌, ◌*◌, ◌-◌, ◌≤◌, ◌<◌, All, replicate};
ghost use Rattle.bulletins_spec.specs.State.{quota, all_places, tag_at};
ghost use Rattle.bulletins_spec.specs.Order.{four_of, by_tag, in_order};
ghost use Rattle.bulletins.specs.Order.{two_ordered};

use super::OWN;
use bulletins_spec::Bulletins;

// Of two places beside each other the one with the lower tag goes first; of two with one tag the
// first.
#[tactic(auto, using(crate::proofs::Ordering::two_lower, crate::proofs::Ordering::two_kept))]
fn order_two(b: &Bulletins, places: &mut [usize; 4], k: usize)
    requires pair { k < 3 }
    requires small { All (λ s. s < all_places) places.old }
    ensures small { All (λ s. s < all_places) places.new }
    ensures ordered { places.new ≡ two_ordered (tag_at b.now) places.old k }
{
    if b.tags[places[k + 1]] < b.tags[places[k]] {
        places.swap(k, k + 1);
    }
}

// The four places of an issuer, by tag: the last two are ordered, and each of the others is put
// among those behind it. Kept as comparisons written out: std's unstable sorts leave open which of
// two places with one tag goes first.
fn four_by_tag(b: &Bulletins, issuer: usize) -> [usize; 4]
    requires { issuer < 16 }
    ensures { result ≡ by_tag (tag_at b.now) (four_of issuer) }
{
    let first = OWN * issuer;
    let mut places = [first, first + 1, first + 2, first + 3];
    order_two(b, &mut places, 2);
    order_two(b, &mut places, 1);
    order_two(b, &mut places, 2);
    order_two(b, &mut places, 0);
    order_two(b, &mut places, 1);
    order_two(b, &mut places, 2);
    places
}

/// The places of the issuers below n, by issuer and then by tag; 0 fills the rest.
#[tactic(auto, unfolding(bulletins_spec::specs::Order::in_order))]
pub fn order_of(b: &Bulletins) -> [usize; 64]
    requires few { b.now.n ≤ 16 }
    ensures { result
        ≡ in_order (tag_at b.now) b.now.n ++ replicate (all_places - quota * b.now.n) 0 }
{
    let mut order = [0; 64];
    for i in 0..b.n {
        let four = four_by_tag(b, i);
        order[OWN * i..OWN * i + OWN].copy_from_slice(&four);
    }
    order
}
