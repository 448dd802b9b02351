// The calls of a station that lies as bytes in the host's memory.

ghost use Rattle.std.specs.Prelude.{◌≡◌, [], ◌∷◌, length};
ghost use Rattle.planning_spec.specs.Merge.{front_written};
ghost use Rattle.station_spec.specs.State.{sized};
ghost use Rattle.station_spec.specs.Calls.{fresh_call, frame_of};
ghost use Rattle.station_bytes_spec.specs.Station.{encode_station};
ghost use Rattle.station_bytes_spec.specs.Reports.{encode_flags, encode_turn};
ghost use Rattle.station_calls.specs.Station.{station_of, named_body, fresh_returned, post_answer, post_returned};
ghost use Rattle.station_calls.specs.Station.{write_returned, hear_answer, hear_returned, turn_answer, turn_returned};

use super::{given, limited, sized};

/// Fresh, with neither limit nor edition named: station own of n, as it begins.
#[unsafe(no_mangle)]
pub extern "C" fn relay_station_fresh(state: &mut [u8], n: u32, own: u32) -> u32
    ensures returned { result ≡ fresh_returned (fresh_call (sized n) own) state.old }
    ensures state { state.new
        ≡ front_written result (encode_station (fresh_call (sized n) own).station) state.old }
{
    station_calls::fresh(state, sized(n), own as usize)
}

/// Fresh, with a limit named.
#[unsafe(no_mangle)]
pub extern "C" fn relay_station_fresh_limited(state: &mut [u8], n: u32, own: u32, limit: u32) -> u32
    ensures returned { result
        ≡ fresh_returned (fresh_call (record { n = n; limit = limit; edition = 0 }) own)
        state.old }
    ensures state { state.new
        ≡ front_written result
        (encode_station (fresh_call (record { n = n; limit = limit; edition = 0 }) own).station) state.old }
{
    station_calls::fresh(state, limited(n, limit), own as usize)
}

/// Fresh, with a limit and an edition named.
#[unsafe(no_mangle)]
pub extern "C" fn relay_station_fresh_edition(
    state: &mut [u8],
    n: u32,
    own: u32,
    limit: u32,
    edition: u32,
) -> u32
    ensures returned { result
        ≡ fresh_returned (fresh_call (record { n = n; limit = limit; edition = edition }) own)
        state.old }
    ensures state { state.new
        ≡ front_written result
        (encode_station (fresh_call (record { n = n; limit = limit; edition = edition }) own).station) state.old }
{
    station_calls::fresh(state, given(n, limit, edition), own as usize)
}

/// Post: one more waiting edit of a desk.
#[unsafe(no_mangle)]
pub extern "C" fn relay_station_post(
    state: &mut [u8],
    desk: u32,
    kind: u32,
    event: u32,
    argument: i32,
    channel: u32,
) -> u32
    ensures returned { result
        ≡ post_returned state.old desk (named_body kind event argument channel) }
    ensures state { state.new
        ≡ front_written result
        (encode_station (post_answer state.old desk (named_body kind event argument channel)).station) state.old }
{
    station_calls::post(state, desk, kind, event, argument, channel)
}

/// Write frame: the table's records into a lent buffer, and their number of bytes into another.
#[unsafe(no_mangle)]
pub extern "C" fn relay_station_write(state: &[u8], frame: &mut [u8], lengths: &mut [u32]) -> u32
    ensures returned { result ≡ write_returned state.now frame.old lengths.old }
    ensures frame { frame.new ≡ front_written result (frame_of (station_of state.now)) frame.old }
    ensures lengths { lengths.new
        ≡ front_written result (length (frame_of (station_of state.now)) ∷ []) lengths.old }
{
    station_calls::write(state, frame, lengths)
}

/// Hear: one frame's records in order; sixteen flags tell from which stations a body was taken.
#[unsafe(no_mangle)]
pub extern "C" fn relay_station_hear(state: &mut [u8], frame: &[u8], taken: &mut [u8]) -> u32
    ensures returned { result ≡ hear_returned state.old frame.now taken.old }
    ensures state { state.new
        ≡ front_written result
        (encode_station (hear_answer state.old frame.now).station) state.old }
    ensures taken { taken.new
        ≡ front_written result (encode_flags (hear_answer state.old frame.now).taken) taken.old }
{
    station_calls::hear(state, frame, taken)
}

/// Turn: the round is closed, and its report goes into a lent buffer.
#[unsafe(no_mangle)]
pub extern "C" fn relay_station_turn(state: &mut [u8], report: &mut [u8]) -> u32
    ensures returned { result ≡ turn_returned state.old report.old }
    ensures state { state.new
        ≡ front_written result (encode_station (turn_answer state.old).station) state.old }
    ensures report { report.new
        ≡ front_written result (encode_turn (turn_answer state.old).report) report.old }
{
    station_calls::turn(state, report)
}
