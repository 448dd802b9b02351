// The calls of a station: fresh, post and turn here, those that write or hear a frame in `frames`.

#![tactic(auto)]

pub mod beginning;
pub mod frames;
pub mod heard;

ghost use Rattle.std.specs.Prelude.{◌≡◌, not};
ghost use Rattle.bodies.specs.Refusals.{number_of, outside_limits, refuse_number};
ghost use Rattle.station_spec.specs.Limits.{station_inside};
ghost use Rattle.station_spec.specs.State.{sized};
ghost use Rattle.station_spec.specs.Calls.{fresh_call, post_refusal, post_call, no_turn, turn_call};

use bodies::Body;
use bodies::refusals::{DONE, Refusal, number_of};
use queues::Slot;
use station_spec::{Setup, Station, StationAnswer, TurnReport, Turned};

/// Fresh, with a limit and an edition named: station own, as it begins. A refused call answers with
/// a station alone.
#[tactic(auto, unfolding(station_spec::specs::Calls::fresh_call))]
pub fn fresh_limited(setup: Setup, own: usize) -> StationAnswer
    ensures { result ≡ fresh_call setup own }
{
    match beginning::judge(setup, own) {
        Ok(()) => StationAnswer {
            refusal: DONE,
            station: beginning::fresh_station(setup, own),
        },
        Err(refusal) => StationAnswer {
            refusal: refusal.number(),
            station: beginning::alone(),
        },
    }
}

/// Fresh, with neither named.
pub fn fresh(n: usize, own: usize) -> StationAnswer
    ensures { result ≡ fresh_call (sized n) own }
{
    fresh_limited(beginning::sized(n), own)
}

// Judges a post: of the station, the desk, the body, its channel, and the desk's waiting edits.
fn judge_post(s: &Station, desk: usize, body: Body) -> Result<(), Refusal>
    ensures { number_of result
        ≡ refuse_number (not (station_inside s.now)) outside_limits (post_refusal s.now desk body) }
{
    if !station_limits::station_inside(s) {
        return Err(Refusal::OutsideLimits);
    }
    if !queues::is_desk(desk) {
        return Err(Refusal::BadDesk);
    }
    if !body.is_postable() {
        return Err(Refusal::NotAnEdit);
    }
    if !body.is_on_channel(s.edition) {
        return Err(Refusal::BadEdition);
    }
    if !s.waiting.has_room(desk) {
        return Err(Refusal::QueueFull);
    }
    Ok(())
}

/// Posts in place: one more waiting edit of a desk. A refused post leaves the station as it is.
#[tactic(auto, using(station_spec::proofs::StationLimits::inside_more), unfolding(station_spec::specs::Calls::post_call, station_spec::specs::Calls::posted))]
pub fn post_in_place(s: &mut Station, desk: usize, body: Body) -> Result<(), Refusal>
    ensures refusal { number_of result ≡ (post_call s.old desk body).refusal }
    ensures station { s.new ≡ (post_call s.old desk body).station }
{
    judge_post(s, desk, body)?;
    s.waiting.post(desk, body);
    Ok(())
}

/// Post: one more waiting edit of a desk.
pub fn post(s: Station, desk: usize, body: Body) -> StationAnswer
    ensures { result ≡ post_call s desk body }
{
    let mut station = s;
    let refusal = number_of(post_in_place(&mut station, desk, body));
    StationAnswer { refusal, station }
}

/// The report where there was no turn.
#[tactic(auto, unfolding(station_spec::specs::Calls::no_turn))]
pub fn no_turn() -> TurnReport
    ensures { result ≡ no_turn }
{
    TurnReport {
        aired: false,
        row: [Slot::EMPTY; 16],
        ended: false,
        ended_body: Body::Empty,
        started_body: Body::Empty,
    }
}

/// Turn: a row aired, the broadcast ended and the next one started, the own record rewritten.
#[tactic(auto, unfolding(station_spec::specs::Calls::turn_call))]
pub fn turn(s: Station) -> Turned
    ensures { result ≡ turn_call s }
{
    if !station_limits::station_inside(&s) {
        return Turned {
            refusal: Refusal::OutsideLimits.number(),
            station: s,
            report: no_turn(),
        };
    }
    let mut station = s;
    let report = turns::take_turn(&mut station);
    Turned {
        refusal: DONE,
        station,
        report,
    }
}
