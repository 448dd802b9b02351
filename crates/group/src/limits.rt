// When a group is inside its limits. Places from N up are not looked at.

ghost use Rattle.std.specs.Prelude.{◌≡◌, ◌==◌, ◌&&◌, ◌≤◌};
ghost use Rattle.lists.specs.Below.{all_below};
ghost use Rattle.station_spec.specs.Limits.{station_inside};
ghost use Rattle.group_spec.specs.State as spec;
ghost use Rattle.group_spec.specs.State.{size_of, group_inside};

use station_spec::Station;

/// Is s inside its limits, of a group of n in an edition, and its number k?
pub fn member_inside(s: &Station, edition: usize, n: usize, k: usize) -> bool
    ensures { result ≡ (station_inside s.now && (s.now.n == n && s.now.edition == edition && s.now.own == k)) }
{
    s.n == n && s.edition == edition && s.own == k && station_limits::station_inside(s)
}

// Is each station of a group inside its limits, of the group's N and edition, and its number its
// place?
#[tactic(auto, using(lists::proofs::Laws::all_below_more, lists::proofs::Laws::all_below_at), unfolding(lists::specs::Below::all_below))]
fn members_inside(g: &[Station; 16]) -> bool
    requires few { size_of g.now ≤ 16 }
    ensures { result ≡ all_below (size_of g.now) (spec.member_inside g.now) }
{
    for k in 0..g[0].n {
        if !member_inside(&g[k], g[0].edition, g[0].n, k) {
            return false;
        }
    }
    true
}

/// Is the group inside its limits: its N, and each station that is in it?
#[tactic(auto, using(crate::proofs::GroupLimits::none_outside, crate::proofs::GroupLimits::many_outside, crate::proofs::GroupLimits::group_judged))]
pub fn group_inside(g: &[Station; 16]) -> bool
    ensures { result ≡ group_inside g.now }
{
    1 <= g[0].n && g[0].n <= 16 && members_inside(g)
}
