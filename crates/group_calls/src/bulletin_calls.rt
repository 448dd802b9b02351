// The calls of bulletins on their bytes, beside those of their group: document 02, A12.

ghost use Rattle.std.specs.Prelude.{◌≡◌, ◌≤◌, length};
ghost use Rattle.std.proofs.lemmas.List.Edits.{sets};
ghost use Rattle.planning_spec.specs.Merge.{front_written};
ghost use Rattle.station_bytes_spec.specs.Group.{group_width, encode_group};
ghost use Rattle.station_bytes_spec.specs.Reports.{reports_width, encode_reports};
ghost use Rattle.bulletins_spec.specs.Calls.{bulletins_fresh_call};
ghost use Rattle.bulletin_bytes.specs.Bulletins.{bulletins_width, encode_bulletins};
ghost use Rattle.bulletin_bytes.specs.Shown.{all_shown_width, encode_all_shown};
ghost use Rattle.group_calls.specs.Bulletins.{bulletins_fresh_returned, issue_answer, issue_returned};
ghost use Rattle.group_calls.specs.Bulletins.{both_answer, both_returned};

use super::REPORTS_WIDTH;
use bodies::refusals::{DONE, Refusal};
use bulletin_bytes::{is_bulletins, put_all_shown, put_bulletins, read_bulletins};
use bulletins_spec::BulletinsRound;
use station_decoder::is_group;
use station_encoder::put_group;
use station_encoder::reports::put_reports;

// The bytes of the bulletins of a group.
const BULLETINS_WIDTH: usize = 644;

// The bytes of what all stations show in a round.
const SHOWN_WIDTH: usize = 12352;

/// Fresh: the bulletins of a group of n, as they begin.
pub fn fresh(state: &mut [u8], n: u32) -> u32
    ensures returned { result ≡ bulletins_fresh_returned n state.old }
    ensures written { state.new
        ≡ front_written result (encode_bulletins (bulletins_fresh_call n).bulletins) state.old }
{
    let made = bulletins::fresh(n as usize);
    if made.refusal != DONE {
        return made.refusal;
    }
    if state.len() < BULLETINS_WIDTH {
        return Refusal::ShortBuffer.number();
    }
    put_bulletins(state, made.bulletins);
    DONE
}

/// Issue: one more bulletin of an issuer, which shows it at once.
pub fn issue(state: &mut [u8], issuer: u32, tag: u32, event: u32) -> u32
    ensures returned { result ≡ issue_returned state.old issuer tag event }
    ensures written { state.new ≡ front_written result
        (encode_bulletins (issue_answer state.old issuer tag event).bulletins) state.old }
{
    if !is_bulletins(state) {
        return Refusal::OutsideLimits.number();
    }
    let before = read_bulletins(state);
    let issued = bulletins::issue(before, issuer as usize, tag, event);
    if issued.refusal != DONE {
        return issued.refusal;
    }
    put_bulletins(state, issued.bulletins);
    DONE
}

// The round of the group and of the bulletins that lie in the bytes.
fn both_round(group: &[u8], state: &[u8], masks: &[u16]) -> BulletinsRound
    requires group { group_width ≤ length group.now }
    requires state { bulletins_width ≤ length state.now }
    ensures { result ≡ both_answer group.now state.now masks.now }
{
    let stations = station_decoder::read_group(group);
    let before = read_bulletins(state);
    let sixteen = super::sixteen_masks(masks);
    bulletins::round(stations, before, sixteen)
}

// Puts what a round gave to the front of the four buffers.
fn put_both(
    group: &mut [u8],
    state: &mut [u8],
    reports: &mut [u8],
    shown: &mut [u8],
    done: BulletinsRound,
)
    requires group { group_width ≤ length group.old }
    requires state { bulletins_width ≤ length state.old }
    requires reports { reports_width ≤ length reports.old }
    requires shown { all_shown_width ≤ length shown.old }
    ensures group { group.new ≡ sets group.old 0 (encode_group done.round.group) }
    ensures state { state.new ≡ sets state.old 0 (encode_bulletins done.bulletins) }
    ensures reports { reports.new ≡ sets reports.old 0 (encode_reports done.round.reports) }
    ensures shown { shown.new ≡ sets shown.old 0 (encode_all_shown done.shown) }
{
    put_group(group, &done.round.group);
    put_bulletins(state, done.bulletins);
    put_reports(reports, &done.round.reports);
    put_all_shown(shown, done.shown);
}

/// Round: the group's round, and on the same masks everyone takes over the bulletins of those that
/// it hears.
pub fn round(
    group: &mut [u8],
    state: &mut [u8],
    masks: &[u16],
    reports: &mut [u8],
    shown: &mut [u8],
) -> u32
    ensures returned { result ≡ both_returned group.old state.old masks.now
        reports.old shown.old }
    ensures group { group.new ≡ front_written result
        (encode_group (both_answer group.old state.old masks.now).round.group)
        group.old }
    ensures state { state.new ≡ front_written result
        (encode_bulletins (both_answer group.old state.old masks.now).bulletins)
        state.old }
    ensures reports { reports.new ≡ front_written result
        (encode_reports (both_answer group.old state.old masks.now).round.reports)
        reports.old }
    ensures shown { shown.new ≡ front_written result
        (encode_all_shown (both_answer group.old state.old masks.now).shown)
        shown.old }
{
    if !is_group(group) {
        return Refusal::OutsideLimits.number();
    }
    if !is_bulletins(state) {
        return Refusal::OutsideLimits.number();
    }
    let done = both_round(group, state, masks);
    let refusal = done.round.refusal as u32;
    if refusal != DONE {
        return refusal;
    }
    if masks.len() < 16 {
        return Refusal::ShortBuffer.number();
    }
    if reports.len() < REPORTS_WIDTH {
        return Refusal::ShortBuffer.number();
    }
    if shown.len() < SHOWN_WIDTH {
        return Refusal::ShortBuffer.number();
    }
    put_both(group, state, reports, shown, done);
    DONE
}
