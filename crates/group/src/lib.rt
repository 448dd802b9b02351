// A group of stations as it begins, and its posts.

#![tactic(auto)]

pub mod limits;

ghost use Rattle.std.specs.Prelude.{◌≡◌, ◌≤◌};
ghost use Rattle.bodies.specs.Refusals.{number_of};
ghost use Rattle.station_spec.specs.State.{sized};
ghost use Rattle.group_spec.specs.State.{fresh_group};
ghost use Rattle.group_spec.specs.Calls.{group_fresh_call, group_post_call};

use bodies::refusals::{DONE, Refusal, number_of};
use group_spec::{GroupAnswer, Post};
use station_spec::{Setup, Station};

// The group, as it begins; a station alone, fresh, stands at each place from N up.
#[tactic(auto, using(lists::proofs::Laws::set_below_more), unfolding(lists::specs::Below::set_below, group_spec::specs::State::fresh_group))]
fn fresh_group(setup: Setup) -> [Station; 16]
    requires few { setup.n ≤ 16 }
    ensures { result ≡ fresh_group setup }
{
    let other = station::beginning::alone();
    let mut group = [other; 16];
    for k in 0..setup.n {
        group[k] = station::beginning::fresh_station(setup, k);
    }
    group
}

/// Group fresh, with a limit and an edition named: the group, as it begins. A refused call answers
/// with the fresh group of one.
#[tactic(auto, unfolding(group_spec::specs::Calls::group_fresh_call, group_spec::specs::Calls::group_fresh_refusal))]
pub fn fresh_limited(setup: Setup) -> GroupAnswer
    ensures { result ≡ group_fresh_call setup }
{
    match station::beginning::judge(setup, 0) {
        Ok(()) => GroupAnswer {
            refusal: DONE,
            group: fresh_group(setup),
        },
        Err(refusal) => GroupAnswer {
            refusal: refusal.number(),
            group: fresh_group(station::beginning::sized(1)),
        },
    }
}

/// Group fresh, with neither named.
pub fn fresh(n: usize) -> GroupAnswer
    ensures { result ≡ group_fresh_call (sized n) }
{
    fresh_limited(station::beginning::sized(n))
}

// Posts in place: a refused post leaves the group as it is.
fn try_post(g: &mut [Station; 16], post: Post) -> Result<(), Refusal>
    ensures refusal { number_of result ≡ (group_post_call g.old post).refusal }
    ensures group { g.new ≡ (group_post_call g.old post).group }
{
    if !limits::group_inside(g) {
        return Err(Refusal::OutsideLimits);
    }
    if g[0].n <= post.station {
        return Err(Refusal::BadNumber);
    }
    station::post_in_place(&mut g[post.station], post.desk, post.body)
}

/// Group post: one more waiting edit of the post's desk at its station, where the station does not
/// refuse it.
pub fn post(g: [Station; 16], post: Post) -> GroupAnswer
    ensures { result ≡ group_post_call g post }
{
    let mut group = g;
    let refusal = number_of(try_post(&mut group, post));
    GroupAnswer { refusal, group }
}
