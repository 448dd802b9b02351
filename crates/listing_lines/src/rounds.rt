// What a round prints, written into a lent buffer.

ghost use Rattle.std.specs.Prelude.{◌≡◌, ◌+◌, ◌≤◌, length};
ghost use Rattle.listing_lines.specs.Lines.{Put};
ghost use Rattle.listing_lines.specs.Reports.{taken_room, aired_room, turn_room, report_room, round_room};
ghost use Rattle.listing_lines.specs.Reports.{taken_text, aired_text, turn_text, report_text, round_text};

use super::{LINE, Line};
use group_spec::Report;
use station_spec::TurnReport;

// The letters of a body taken or started, aired, and ended.
const DELIVERED: u8 = b'D';

const AIRED: u8 = b'A';

const ENDED: u8 = b'E';

/// Room for a round of sixteen stations: each can take 30 bodies, air 16, end one and start one.
pub const ROUND_ROOM: usize = 16 * 48 * LINE;

impl Line {
    ghost use Rattle.std.specs.Prelude.{◌≡◌, ◌+◌, ◌≤◌, length};
    ghost use Rattle.listing_lines.specs.Lines.{Put, line_length};
    ghost use Rattle.listing_lines.specs.Reports.{line_if};

    // The line put into the buffer where it is wanted.
    #[tactic(auto, using(crate::proofs::Placed::put_none, crate::proofs::Columns::length_line))]
    fn put_if(self, wanted: bool, out: &mut [u8], at: usize) -> usize
        requires { at + line_length ≤ length out.old }
        ensures text { Put out.old out.new at result
            (line_if wanted self.round self.letter self.station self.source self.body) }
        ensures few { result ≤ at + line_length }
    {
        if wanted { self.put(out, at) } else { at }
    }
}

// A D line for each body that station p took, as heard.
fn put_takings(out: &mut [u8], at: usize, round: u32, p: usize, report: &Report) -> usize
    requires { at + taken_room ≤ length out.old }
    ensures text { Put out.old out.new at result (taken_text round p report.now) }
    ensures few { result ≤ at + taken_room }
{
    let mut end = at;
    for k in 0..30 {
        let taking = report.takings[k];
        let line = Line {
            round,
            letter: DELIVERED,
            station: p,
            source: taking.source as usize,
            body: taking.body,
        };
        end = line.put_if(k < report.takings_len, out, end);
    }
    end
}

// An A line for each edit of the row that station p aired, by station.
fn put_aired(out: &mut [u8], at: usize, n: usize, round: u32, p: usize, turn: &TurnReport) -> usize
    requires few { n ≤ 16 }
    requires room { at + aired_room ≤ length out.old }
    ensures text { Put out.old out.new at result (aired_text n round p turn.now) }
    ensures few { result ≤ at + aired_room }
{
    let mut end = at;
    for k in 0..n {
        let body = turn.row[k].body;
        let line = Line {
            round,
            letter: AIRED,
            station: p,
            source: k,
            body,
        };
        end = line.put_if(turn.aired && body.is_edit(), out, end);
    }
    end
}

// An E line for a broadcast that ended, and a D line for what station p then started, unless that
// is Empty.
fn put_turn(out: &mut [u8], at: usize, round: u32, p: usize, turn: &TurnReport) -> usize
    requires { at + turn_room ≤ length out.old }
    ensures text { Put out.old out.new at result (turn_text round p turn.now) }
    ensures few { result ≤ at + turn_room }
{
    let ended = Line {
        round,
        letter: ENDED,
        station: p,
        source: p,
        body: turn.ended_body,
    };
    let started = Line {
        letter: DELIVERED,
        body: turn.started_body,
        ..ended
    };
    let end = ended.put_if(turn.ended, out, at);
    started.put_if(!started.body.is_empty(), out, end)
}

// What station p reports of a round.
fn put_report(out: &mut [u8], at: usize, n: usize, round: u32, p: usize, report: &Report) -> usize
    requires few { n ≤ 16 }
    requires room { at + report_room ≤ length out.old }
    ensures text { Put out.old out.new at result (report_text n round p report.now) }
    ensures few { result ≤ at + report_room }
{
    let taken = put_takings(out, at, round, p, report);
    let aired = put_aired(out, taken, n, round, p, &report.turn);
    put_turn(out, aired, round, p, &report.turn)
}

/// What the n stations of a round report, put at the front of the buffer. Returns the place behind
/// it.
pub fn put_round(out: &mut [u8], n: usize, round: u32, reports: &[Report; 16]) -> usize
    requires few { n ≤ 16 }
    requires room { round_room ≤ length out.old }
    ensures { Put out.old out.new 0 result (round_text n round reports.now) }
{
    let mut end = 0;
    for p in 0..n {
        end = put_report(out, end, n, round, p, &reports[p]);
    }
    end
}
