// The calls of a group on its bytes; in `bulletin_calls`, those of its bulletins.

#![tactic(auto)]

pub mod bulletin_calls;

ghost use Rattle.std.specs.Prelude.{◌≡◌};
ghost use Rattle.planning_spec.specs.Merge.{front_written};
ghost use Rattle.group_spec.specs.Calls.{group_fresh_call};
ghost use Rattle.station_bytes_spec.specs.Group.{encode_group};
ghost use Rattle.station_bytes_spec.specs.Reports.{encode_reports};
ghost use Rattle.station_calls.specs.Station.{named_body};
ghost use Rattle.group_calls.specs.Group.{group_fresh_returned, group_post_answer, group_post_returned};
ghost use Rattle.group_calls.specs.Group.{sixteen_masks, round_answer, round_returned};

use bodies::refusals::{DONE, Refusal};
use group_spec::Post;
use station_decoder::{is_group, read_group};
use station_encoder::put_group;
use station_encoder::reports::put_reports;
use station_spec::Setup;

// The bytes of a group.
const GROUP_WIDTH: usize = 23872;

/// The bytes of a round's reports.
pub const REPORTS_WIDTH: usize = 11264;

/// Group fresh: the stations of a group, as they begin.
pub fn fresh(state: &mut [u8], setup: Setup) -> u32
    ensures returned { result ≡ group_fresh_returned (group_fresh_call setup) state.old }
    ensures written { state.new
        ≡ front_written result (encode_group (group_fresh_call setup).group) state.old }
{
    let made = group::fresh_limited(setup);
    if made.refusal != DONE {
        return made.refusal;
    }
    if state.len() < GROUP_WIDTH {
        return Refusal::ShortBuffer.number();
    }
    put_group(state, &made.group);
    DONE
}

/// Group post: one more waiting edit of a desk at a station.
pub fn post(
    state: &mut [u8],
    station: u32,
    desk: u32,
    kind: u32,
    event: u32,
    argument: i32,
    channel: u32,
) -> u32
    ensures returned { result ≡ group_post_returned state.old
        (record { station = station; desk = desk; body = named_body kind event argument channel }) }
    ensures written { state.new ≡ front_written result
        (encode_group (group_post_answer state.old
        (record { station = station; desk = desk; body = named_body kind event argument channel })).group)
        state.old }
{
    if !is_group(state) {
        return Refusal::OutsideLimits.number();
    }
    let stations = read_group(state);
    let post = Post {
        station: station as usize,
        desk: desk as usize,
        body: station_calls::named_body(kind, event, argument, channel),
    };
    let kept = group::post(stations, post);
    if kept.refusal != DONE {
        return kept.refusal;
    }
    put_group(state, &kept.group);
    DONE
}

/// Sixteen masks, as an array; those that are not there are 0.
pub fn sixteen_masks(masks: &[u16]) -> [u16; 16]
    ensures { result ≡ sixteen_masks masks.now }
{
    let mut sixteen = [0; 16];
    for k in 0..16 {
        sixteen[k] = masks.get(k).copied().unwrap_or(0);
    }
    sixteen
}

/// Round: all frames are sent, then each station hears those of its mask and takes its turn.
pub fn round(state: &mut [u8], masks: &[u16], reports: &mut [u8]) -> u32
    ensures returned { result ≡ round_returned state.old masks.now reports.old }
    ensures written { state.new ≡ front_written result
        (encode_group (round_answer state.old masks.now).group) state.old }
    ensures reports { reports.new ≡ front_written result
        (encode_reports (round_answer state.old masks.now).reports) reports.old }
{
    if !is_group(state) {
        return Refusal::OutsideLimits.number();
    }
    let stations = read_group(state);
    let sixteen = sixteen_masks(masks);
    let done = rounds::round(stations, sixteen);
    let refusal = done.refusal as u32;
    if refusal != DONE {
        return refusal;
    }
    if masks.len() < 16 {
        return Refusal::ShortBuffer.number();
    }
    if reports.len() < REPORTS_WIDTH {
        return Refusal::ShortBuffer.number();
    }
    put_group(state, &done.group);
    put_reports(reports, &done.reports);
    DONE
}
