// The calls of a station that lies as bytes in lent memory. A refused call writes nothing.

#![tactic(auto)]

pub mod heard;

ghost use Rattle.std.specs.Prelude.{◌≡◌, [], ◌∷◌, length};
ghost use Rattle.planning_spec.specs.Merge.{front_written};
ghost use Rattle.station_spec.specs.Calls.{fresh_call, frame_of};
ghost use Rattle.station_bytes_spec.specs.Station.{encode_station};
ghost use Rattle.station_bytes_spec.specs.Reports.{encode_flags, encode_turn};
ghost use Rattle.station_calls.specs.Station.{station_of, named_body, fresh_returned, post_answer, post_returned};
ghost use Rattle.station_calls.specs.Station.{write_returned, hear_answer, hear_returned, turn_answer, turn_returned};

use bodies::Body;
use bodies::limits::numbers_inside;
use bodies::refusals::{DONE, Refusal};
use station::frames::BOTH_ROOM;
use station_decoder::{is_station, read_station};
use station_encoder::put_station;
use station_encoder::reports::{put_flags, put_turn};
use station_spec::Setup;

const STATION_WIDTH: usize = 1492;

const TURN_WIDTH: usize = 220;

/// The body that four numbers name; Empty where kind, event and argument are those of none inside
/// its limits.
#[tactic(auto, unfolding(crate::specs::Station::named_body))]
pub fn named_body(kind: u32, event: u32, argument: i32, channel: u32) -> Body
    ensures { result ≡ named_body kind event argument channel }
{
    if numbers_inside(kind, event, argument) {
        let byte = station_encoder::as_byte(channel as usize);
        Body::new(kind, event, argument, byte)
    } else {
        Body::Empty
    }
}

/// Fresh: station own, as it begins.
pub fn fresh(state: &mut [u8], setup: Setup, own: usize) -> u32
    ensures returned { result ≡ fresh_returned (fresh_call setup own) state.old }
    ensures written { state.new
        ≡ front_written result (encode_station (fresh_call setup own).station) state.old }
{
    let made = station::fresh_limited(setup, own);
    if made.refusal != DONE {
        return made.refusal;
    }
    if state.len() < STATION_WIDTH {
        return Refusal::ShortBuffer.number();
    }
    put_station(state, 0, &made.station);
    DONE
}

/// Post: one more waiting edit of a desk.
pub fn post(state: &mut [u8], desk: u32, kind: u32, event: u32, argument: i32, channel: u32) -> u32
    ensures returned { result
        ≡ post_returned state.old desk (named_body kind event argument channel) }
    ensures written { state.new ≡ front_written result
        (encode_station (post_answer state.old desk (named_body kind event argument channel)).station)
        state.old }
{
    if !is_station(state) {
        return Refusal::OutsideLimits.number();
    }
    let station = read_station(state);
    let body = named_body(kind, event, argument, channel);
    let kept = station::post(station, desk as usize, body);
    if kept.refusal != DONE {
        return kept.refusal;
    }
    put_station(state, 0, &kept.station);
    DONE
}

/// Write frame: the table's records into a lent buffer, and their number of bytes into another.
pub fn write(state: &[u8], frame: &mut [u8], lengths: &mut [u32]) -> u32
    ensures returned { result ≡ write_returned state.now frame.old lengths.old }
    ensures frame { frame.new ≡ front_written result (frame_of (station_of state.now)) frame.old }
    ensures length { lengths.new ≡ front_written result (length (frame_of (station_of state.now)) ∷ [])
        lengths.old }
{
    if !is_station(state) {
        return Refusal::OutsideLimits.number();
    }
    let station = read_station(state);
    if lengths.len() < 1 {
        let mut other = [0; 260];
        let tried = station::frames::write(station, &mut other);
        if tried.refusal != DONE {
            return tried.refusal;
        }
        return Refusal::ShortBuffer.number();
    }
    let written = station::frames::write(station, frame);
    if written.refusal != DONE {
        return written.refusal;
    }
    lengths[0] = written.len as u32;
    DONE
}

/// Hear: one frame's records in order; sixteen flags tell from which stations a body was taken. Of
/// the state only what hearing can change is written.
pub fn hear(state: &mut [u8], frame: &[u8], taken: &mut [u8]) -> u32
    ensures returned { result ≡ hear_returned state.old frame.now taken.old }
    ensures written { state.new ≡ front_written result
        (encode_station (hear_answer state.old frame.now).station) state.old }
    ensures flags { taken.new ≡ front_written result
        (encode_flags (hear_answer state.old frame.now).taken) taken.old }
{
    if !is_station(state) {
        return Refusal::OutsideLimits.number();
    }
    let station = read_station(state);
    let mut both = [0; BOTH_ROOM];
    let mut places = [0; 16];
    let mut bodies = [0; 30];
    let heard = station::frames::listen(&mut both, &mut places, &mut bodies, frame, station);
    if heard.refusal != DONE {
        return heard.refusal;
    }
    if taken.len() < 16 {
        return Refusal::ShortBuffer.number();
    }
    let sources = station::frames::sources_of(&both, &bodies, heard.len);
    heard::put_heard(state, heard, &both, &places, &bodies, station.n);
    put_flags(taken, sources);
    DONE
}

/// Turn: the round is closed, and its report goes into a lent buffer.
pub fn turn(state: &mut [u8], report: &mut [u8]) -> u32
    ensures returned { result ≡ turn_returned state.old report.old }
    ensures written { state.new
        ≡ front_written result (encode_station (turn_answer state.old).station) state.old }
    ensures report { report.new
        ≡ front_written result (encode_turn (turn_answer state.old).report) report.old }
{
    if !is_station(state) {
        return Refusal::OutsideLimits.number();
    }
    let station = read_station(state);
    let turned = station::turn(station);
    if turned.refusal != DONE {
        return turned.refusal;
    }
    if report.len() < TURN_WIDTH {
        return Refusal::ShortBuffer.number();
    }
    put_station(state, 0, &turned.station);
    put_turn(report, 0, &turned.report);
    DONE
}
