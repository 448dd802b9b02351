// Links between stations: who hears whom in a round (document 01, A group and its rounds).

#![tactic(auto)]

ghost use Rattle.std.specs.Prelude.{◌≡◌};
ghost use Rattle.links.specs.Log.{bit, hears_in};

// No group has more stations, and no mask more bits.
const PLACES: usize = 16;

/// Bit j of a mask; a mask has no bits from 16 up.
#[tactic(auto, using(crate::proofs::Log::bit_past), unfolding(crate::specs::Log::bit))]
pub fn set_at(mask: u16, j: usize) -> bool
    ensures { result ≡ bit mask j }
{
    j < PLACES && (mask >> j) % 2 == 1
}

/// Station i of a group of n hears j in a round with these masks. It can be asked of any numbers:
/// nobody hears itself, and from n up nobody hears or is heard.
#[tactic(auto, using(crate::proofs::Log::bit_none), unfolding(crate::specs::Log::hears_in))]
pub fn hears(masks: [u16; 16], n: usize, i: usize, j: usize) -> bool
    ensures { result ≡ hears_in n masks i j }
{
    i < n && j < n && i != j && i < PLACES && set_at(masks[i], j)
}
