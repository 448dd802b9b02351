// What a turn and a round report, and a set of stations, written as bytes to the front of a buffer
// or from a place on; all other bytes are kept.

ghost use Rattle.std.specs.Prelude.{◌≡◌, ◌+◌, ◌≤◌, length};
ghost use Rattle.std.proofs.lemmas.List.Edits.{sets};
ghost use Rattle.station_bytes_spec.specs.Reports.{encode_flags, turn_width, encode_turn, taking_width, encode_taking};
ghost use Rattle.station_bytes_spec.specs.Reports.{report_width, encode_report, reports_width, encode_reports};

use super::{as_byte, put_body, put_four};
use group_spec::Report;
use records::writer::put_word;
use station_spec::{Taking, TurnReport};

const BODY_WIDTH: usize = 12;

const TAKING_WIDTH: usize = 16;

const TURN_PLACE: usize = 484;

const REPORT_WIDTH: usize = 704;

/// Sixteen flags, a byte each, put at the front.
pub fn put_flags(bytes: &mut [u8], flags: [bool; 16])
    requires { 16 ≤ length bytes.old }
    ensures { bytes.new ≡ sets bytes.old 0 (encode_flags flags) }
{
    for k in 0..16 {
        bytes[k] = u8::from(flags[k]);
    }
}

/// The report of a turn, put at a place.
pub fn put_turn(bytes: &mut [u8], at: usize, turn: &TurnReport)
    requires { at + turn_width ≤ length bytes.old }
    ensures { bytes.new ≡ sets bytes.old at (encode_turn turn.now) }
{
    let mut head = [0; 4];
    head[0] = u8::from(turn.aired);
    head[1] = u8::from(turn.ended);
    put_four(bytes, at, head);
    put_body(bytes, at + 4, turn.ended_body);
    put_body(bytes, at + 16, turn.started_body);
    for k in 0..16 {
        put_body(bytes, at + 28 + BODY_WIDTH * k, turn.row[k].body);
    }
}

// A body taken, put at a place.
fn put_taking(bytes: &mut [u8], at: usize, taking: Taking)
    requires { at + taking_width ≤ length bytes.old }
    ensures { bytes.new ≡ sets bytes.old at (encode_taking taking) }
{
    put_word(bytes, at, u32::from(taking.source));
    put_body(bytes, at + 4, taking.body);
}

// What a round reports of one station, put at a place.
fn put_report(bytes: &mut [u8], at: usize, report: &Report)
    requires { at + report_width ≤ length bytes.old }
    ensures { bytes.new ≡ sets bytes.old at (encode_report report.now) }
{
    put_word(bytes, at, u32::from(as_byte(report.takings_len)));
    for i in 0..30 {
        put_taking(bytes, at + 4 + TAKING_WIDTH * i, report.takings[i]);
    }
    put_turn(bytes, at + TURN_PLACE, &report.turn);
}

/// What a round reports of all stations, put at the front.
pub fn put_reports(bytes: &mut [u8], reports: &[Report; 16])
    requires { reports_width ≤ length bytes.old }
    ensures { bytes.new ≡ sets bytes.old 0 (encode_reports reports.now) }
{
    for k in 0..16 {
        put_report(bytes, REPORT_WIDTH * k, &reports[k]);
    }
}
