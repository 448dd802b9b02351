//! The rounds of a group.

#![tactic(auto)]

pub mod sending;

ghost use Rattle.std.specs.Prelude.{◌≡◌, true, replicate};
ghost use Rattle.station_spec.specs.Hearing.{no_taking};
ghost use Rattle.station_spec.specs.Limits.{station_inside};
ghost use Rattle.station_spec.specs.Turn.{after_turn};
ghost use Rattle.hearing_spec.specs.Buffer.{size_in};
ghost use Rattle.hearing_spec.specs.StandsFor.{acts_on};
ghost use Rattle.listening.specs.Listened.{heard_notes, Readable};
ghost use Rattle.group_spec.specs.Calls.{no_report, round_call};
ghost use Rattle.group_spec.specs.Inner.Shape.{GroupShaped};
ghost use Rattle.rounds.specs.Reported.{heard_report};

use bodies::Body;
use bodies::refusals::{Refusal, number_of};
use group_spec::{Report, RoundDone};
use hearing_spec::{Ear, FRAME_ROOM, NOT_REFUSED};
use station_spec::{Station, Taking};

// Sixteen stations have a frame, sixteen places and thirty takings each.
const STATIONS: usize = 16;

const TAKINGS: usize = 30;

/// What a round reports of a station that is not in it.
#[tactic(auto, unfolding(group_spec::specs::Calls::no_report))]
pub fn no_report() -> Report
    ensures { result ≡ no_report }
{
    let takings = [Taking {
        source: 0,
        body: Body::Empty,
    }; TAKINGS];
    let turn = station::no_turn();
    Report {
        takings_len: 0,
        takings,
        turn,
    }
}

// One station acts on what it heard and takes its turn, and its report is made.
#[tactic(auto, using(crate::proofs::HeardTurn::blank_after))]
fn act_and_turn(
    heard: &Ear,
    bytes: &[u8],
    places: &[u16],
    taken: &[u16],
    s: &mut Station,
    report: &mut Report,
)
    requires size { s.old.n ≡ size_in bytes.now }
    requires readable { Readable bytes.now places.now taken.now heard.now.len }
    requires inside { station_inside (acts_on s.old bytes.now (heard_notes places.now taken.now heard.now)) ≡ true }
    requires blank { report.old.takings ≡ replicate 30 no_taking }
    ensures station { s.new ≡ after_turn (acts_on s.old bytes.now (heard_notes places.now taken.now heard.now)) }
    ensures report { report.new ≡ heard_report heard.now bytes.now taken.now
        (acts_on s.old bytes.now (heard_notes places.now taken.now heard.now)) }
{
    listening::acting::act(heard, bytes, places, taken, s);
    listening::acting::put_takings(bytes, taken, heard.len, &mut report.takings);
    report.takings_len = heard.len;
    report.turn = turns::take_turn(s);
}

/// Plays a round on a group in place, and gives the number of its refusal, 0 for none: all frames
/// are sent. Then each station hears those of its mask, on numbers alone; and where no frame is
/// refused, each takes what it heard into its state and takes its turn. Until then the group is as
/// it was given, so that a refusal has nothing to undo.
// Kept as a number: `Ear` and `RoundDone` have the refusal as one.
pub fn play(group: &mut [Station; 16], masks: &[u16; 16], reports: &mut [Report; 16]) -> u32
    requires shaped { GroupShaped group.old }
    requires blank { reports.old ≡ replicate 16 no_report }
    ensures refusal { result ≡ (round_call group.old masks.now).refusal }
    ensures group { group.new ≡ (round_call group.old masks.now).group }
    ensures reports { reports.new ≡ (round_call group.old masks.now).reports }
{
    let silence = Ear {
        refusal: NOT_REFUSED,
        count: 0,
        acked: [false; STATIONS],
        labels: [0u8; STATIONS],
        len: 0,
    };
    let mut ears = [silence; STATIONS];
    let mut bytes = [0u8; FRAME_ROOM * STATIONS];
    let mut places = [0u16; STATIONS * STATIONS];
    let mut taken = [0u16; TAKINGS * STATIONS];
    let n = group[0].n;
    let edition = group[0].edition;
    if !records::numbers::valid_number(n, 0) {
        return Refusal::OutsideLimits.number();
    }
    let mut judged = Ok(());
    for k in 0..n {
        let sent = sending::send(&mut bytes, &group[k], edition, n, k);
        judged = sending::worse(judged, sent);
    }
    let refusal = number_of(judged);
    if refusal != NOT_REFUSED {
        return refusal;
    }
    for j in 0..n {
        let at = STATIONS * j;
        let first = TAKINGS * j;
        let heard = listening::listen(
            &bytes,
            masks[j],
            &mut places[at..at + STATIONS],
            &mut taken[first..first + TAKINGS],
            &group[j],
        );
        if heard.refusal != NOT_REFUSED {
            return heard.refusal;
        }
        ears[j] = heard;
    }
    for i in 0..n {
        let at = STATIONS * i;
        let first = TAKINGS * i;
        act_and_turn(
            &ears[i],
            &bytes,
            &places[at..at + STATIONS],
            &taken[first..first + TAKINGS],
            &mut group[i],
            &mut reports[i],
        );
    }
    NOT_REFUSED
}

/// Round: a group is passed in by value and returned.
pub fn round(g: [Station; 16], masks: [u16; 16]) -> RoundDone
    ensures { result ≡ round_call g masks }
{
    let mut group = g;
    let mut reports = [no_report(); STATIONS];
    let refusal = play(&mut group, &masks, &mut reports);
    RoundDone {
        refusal: refusal as usize,
        group,
        reports,
    }
}
