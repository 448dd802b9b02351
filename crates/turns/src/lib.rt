// A turn: the row that is aired, the end of the broadcast and the next start, the own record
// rewritten.

#![tactic(auto)]

pub mod airing;
pub mod parts;

ghost use Rattle.std.specs.Prelude.{◌≡◌, true};
ghost use Rattle.station_spec.specs.Limits.{station_inside};
ghost use Rattle.station_spec.specs.Turn.{after_turn, turn_report};

use bodies::Body;
use frame_spec::Record;
use queues::Slot;
use station_spec::{Station, TurnReport};

/// Takes the turn of a station that is known to be inside its limits.
#[tactic(auto, using(station_spec::proofs::StationLimits::inside_high, station_spec::proofs::StationLimits::inside_own, station_spec::proofs::StationLimits::inside_room))]
pub fn take_turn(s: &mut Station) -> TurnReport
    requires { station_inside s.old ≡ true }
    ensures station { s.new ≡ after_turn s.old }
    ensures report { result ≡ turn_report s.old }
{
    let own = s.own;
    let sent = s.body;
    let row = airing::air(s.n, &mut s.lanes);
    let ended = parts::all_acked(s.n, &s.acked);
    let own_len = s.lanes[own].len;
    let waits = s.waiting.any_waits();
    let next_edit = s.waiting.next_edit();
    let started = parts::started_body(ended, own_len, waits, next_edit);
    let starts = parts::starts_edit(ended, own_len, waits);
    parts::start_next(starts, &mut s.waiting);
    parts::keep_own(ended, s.n, own, &mut s.acked);
    s.body = parts::body_of(ended, started, sent);
    s.count = parts::count_after(ended, s.count);
    s.labels[own] = parts::label_after(ended, s.labels[own]);
    s.table[own] = Record {
        station: own as u8,
        count: s.count,
        body: s.body,
        labels: labels::words::pack_over(s.n, s.labels, s.table[own].labels),
    };
    parts::put(started, &mut s.lanes[own]);
    TurnReport {
        aired: row.is_some(),
        row: row.unwrap_or([Slot::EMPTY; 16]),
        ended,
        ended_body: parts::body_of(ended, sent, Body::Empty),
        started_body: started,
    }
}
