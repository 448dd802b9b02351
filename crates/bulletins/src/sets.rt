// The sets of bulletins that stations hold: what a round makes of them.

ghost use Rattle.std.specs.Prelude.{◌≡◌, ◌&&◌, ◌≤◌, ◌<◌, ◌==◌};
ghost use Rattle.lists.specs.Below.{set_below};
ghost use Rattle.bulletins_spec.specs.State.{bulletins_inside};
ghost use Rattle.bulletins_spec.specs.Calls.{set_after};

use bulletins_spec::Bulletins;

// What station p holds after a round: its own, and what those that it hears held before the round.
#[tactic(auto, using(planning::proofs::Rows::united_zero, planning::proofs::Rows::united_more), unfolding(bulletins_spec::specs::Calls::set_after))]
fn set_after(b: &Bulletins, masks: [u16; 16], p: usize) -> u64
    requires few { b.now.n ≤ 16 }
    requires place { p < 16 }
    ensures { result ≡ set_after b.now masks p }
{
    let mut set = b.held[p];
    for j in 0..b.n {
        if links::hears(masks, b.n, p, j) {
            set |= b.held[j];
        }
    }
    set
}

/// What all stations hold after a round; those from n up keep what they hold.
#[tactic(auto, using(lists::proofs::Laws::set_below_more), unfolding(lists::specs::Below::set_below))]
pub fn held_after(b: &Bulletins, masks: [u16; 16]) -> [u64; 16]
    requires few { b.now.n ≤ 16 }
    ensures { result ≡ set_below b.now.n (set_after b.now masks) b.now.held }
{
    let mut after = b.held;
    for p in 0..b.n {
        after[p] = set_after(b, masks, p);
    }
    after
}

/// Are the bulletins inside their limits, and those of a group of n?
pub fn fit(b: &Bulletins, n: usize) -> bool
    ensures { result ≡ (bulletins_inside b.now && n == b.now.n) }
{
    super::limits::inside(b) && n == b.n
}
