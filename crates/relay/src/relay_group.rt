// The calls of a group that lies as bytes in the host's memory.

ghost use Rattle.std.specs.Prelude.{◌≡◌};
ghost use Rattle.planning_spec.specs.Merge.{front_written};
ghost use Rattle.station_spec.specs.State.{sized};
ghost use Rattle.group_spec.specs.Calls.{group_fresh_call};
ghost use Rattle.station_bytes_spec.specs.Group.{encode_group};
ghost use Rattle.station_bytes_spec.specs.Reports.{encode_reports};
ghost use Rattle.station_calls.specs.Station.{named_body};
ghost use Rattle.group_calls.specs.Group.{group_fresh_returned, group_post_answer, group_post_returned, round_answer};
ghost use Rattle.group_calls.specs.Group.{round_returned};

use super::{given, limited, sized};

/// Group fresh, with neither limit nor edition named: n stations, as they begin.
#[unsafe(no_mangle)]
pub extern "C" fn relay_group_fresh(state: &mut [u8], n: u32) -> u32
    ensures returned { result ≡ group_fresh_returned (group_fresh_call (sized n)) state.old }
    ensures state { state.new
        ≡ front_written result (encode_group (group_fresh_call (sized n)).group) state.old }
{
    group_calls::fresh(state, sized(n))
}

/// Group fresh, with a limit named.
#[unsafe(no_mangle)]
pub extern "C" fn relay_group_fresh_limited(state: &mut [u8], n: u32, limit: u32) -> u32
    ensures returned { result
        ≡ group_fresh_returned (group_fresh_call (record {
          n = n;
          limit = limit;
          edition = 0;
        })) state.old }
    ensures state { state.new
        ≡ front_written result
        (encode_group (group_fresh_call (record { n = n; limit = limit; edition = 0 })).group) state.old }
{
    group_calls::fresh(state, limited(n, limit))
}

/// Group fresh, with a limit and an edition named.
#[unsafe(no_mangle)]
pub extern "C" fn relay_group_fresh_edition(
    state: &mut [u8],
    n: u32,
    limit: u32,
    edition: u32,
) -> u32
    ensures returned { result
        ≡ group_fresh_returned (group_fresh_call (record {
          n = n;
          limit = limit;
          edition =
              edition;
        })) state.old }
    ensures state { state.new
        ≡ front_written result
        (encode_group (group_fresh_call (record { n = n; limit = limit; edition = edition })).group) state.old }
{
    group_calls::fresh(state, given(n, limit, edition))
}

/// Group post: one more waiting edit of a desk at a station.
#[unsafe(no_mangle)]
pub extern "C" fn relay_group_post(
    state: &mut [u8],
    station: u32,
    desk: u32,
    kind: u32,
    event: u32,
    argument: i32,
    channel: u32,
) -> u32
    ensures returned { result
        ≡ group_post_returned state.old (record {
          station = station;
          desk = desk;
          body =
              named_body kind event argument channel;
        }) }
    ensures state { state.new
        ≡ front_written result
        (encode_group (group_post_answer state.old
        (record { station = station; desk = desk; body = named_body kind event argument channel })).group) state.old }
{
    group_calls::post(state, station, desk, kind, event, argument, channel)
}

/// Round: all frames are sent, then each station hears those of its mask and takes its turn.
#[unsafe(no_mangle)]
pub extern "C" fn relay_group_round(state: &mut [u8], masks: &[u16], reports: &mut [u8]) -> u32
    ensures returned { result ≡ round_returned state.old masks.now reports.old }
    ensures state { state.new
        ≡ front_written result (encode_group (round_answer state.old masks.now).group) state.old }
    ensures reports { reports.new
        ≡ front_written result
        (encode_reports (round_answer state.old masks.now).reports) reports.old }
{
    group_calls::round(state, masks, reports)
}
