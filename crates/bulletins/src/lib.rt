// The calls on the bulletins of a group (document 02, A12).

#![tactic(auto)]

pub mod issuing;
pub mod limits;
pub mod order;
pub mod sets;
pub mod showing;

ghost use Rattle.std.specs.Prelude.{◌≡◌, replicate};
ghost use Rattle.bodies.specs.Refusals.{outside_limits};
ghost use Rattle.group_spec.specs.Calls.{no_report};
ghost use Rattle.bulletins_spec.specs.State.{fresh_bulletins};
ghost use Rattle.bulletins_spec.specs.Calls.{bulletins_fresh_call, issue_call, bulletins_round_call, none_shown};

use bodies::refusals::{DONE, Refusal};
use bulletins_spec::{Bulletins, BulletinsAnswer, BulletinsRound, IssueDone, Notice};
use group_spec::RoundDone;
use station_spec::Station;

// No group has more stations.
const STATIONS: usize = 16;

// An issuer has so many places.
const OWN: usize = 4;

// What stands where nothing is shown.
const NO_NOTICE: Notice = Notice {
    issuer: 0,
    tag: 0,
    event: 0,
};

// Nobody holds anything.
#[tactic(auto, unfolding(bulletins_spec::specs::State::fresh_bulletins))]
fn fresh_bulletins(n: usize) -> Bulletins
    ensures { result ≡ fresh_bulletins n }
{
    Bulletins {
        n,
        tags: [0u32; 64],
        events: [0u32; 64],
        held: [0u64; 16],
    }
}

/// Fresh: the bulletins of a group of n, as they begin. Where there is no such n, they are those of
/// one station.
#[tactic(auto, unfolding(bulletins_spec::specs::Calls::bulletins_fresh_call, bulletins_spec::specs::Calls::bulletins_fresh_refusal))]
pub fn fresh(n: usize) -> BulletinsAnswer
    ensures { result ≡ bulletins_fresh_call n }
{
    if 1 <= n && n <= STATIONS {
        BulletinsAnswer {
            refusal: DONE,
            bulletins: fresh_bulletins(n),
        }
    } else {
        BulletinsAnswer {
            refusal: Refusal::BadNumber.number(),
            bulletins: fresh_bulletins(1),
        }
    }
}

/// Issue: one more bulletin of an issuer, which shows it at once.
#[tactic(auto, unfolding(bulletins_spec::specs::Calls::issue_call, bulletins_spec::specs::Calls::issued))]
pub fn issue(mut b: Bulletins, issuer: usize, tag: u32, event: u32) -> IssueDone
    ensures { result ≡ issue_call b issuer tag event }
{
    match issuing::place_for(&b, issuer, tag, event) {
        Ok(s) => {
            issuing::put_bulletin(&mut b, issuer, s, tag, event);
            IssueDone {
                refusal: DONE,
                bulletins: b,
                shown: Notice {
                    issuer: issuer as u32,
                    tag,
                    event,
                },
            }
        }
        Err(refusal) => issuing::refused(b, refusal.number()),
    }
}

// A round refused for its bulletins: all is as it was given.
fn refused_round(g: [Station; 16], b: Bulletins) -> BulletinsRound
    ensures { result ≡ record {
      round = record { refusal = outside_limits; group = g; reports = replicate 16 no_report };
      bulletins = b;
      shown = none_shown;
    } }
{
    BulletinsRound {
        round: RoundDone {
            refusal: Refusal::OutsideLimits.number() as usize,
            group: g,
            reports: [rounds::no_report(); 16],
        },
        bulletins: b,
        shown: showing::none_shown(),
    }
}

/// Round: the group's round, and on the same masks everyone takes over what those that it hears
/// held before the round.
pub fn round(g: [Station; 16], mut b: Bulletins, masks: [u16; 16]) -> BulletinsRound
    ensures { result ≡ bulletins_round_call g b masks }
{
    if !sets::fit(&b, g[0].n) {
        return refused_round(g, b);
    }
    let round = rounds::round(g, masks);
    if round.refusal != DONE as usize {
        return BulletinsRound {
            round,
            bulletins: b,
            shown: showing::none_shown(),
        };
    }
    let after = sets::held_after(&b, masks);
    let places = order::order_of(&b);
    let shown = showing::all_shown(&b, &places, &after);
    b.held = after;
    BulletinsRound {
        round,
        bulletins: b,
        shown,
    }
}
