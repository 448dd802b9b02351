// The calls on bulletins that lie as bytes in the host's memory, beside their group: document 02,
// A12.

ghost use Rattle.std.specs.Prelude.{◌≡◌};
ghost use Rattle.planning_spec.specs.Merge.{front_written};
ghost use Rattle.station_bytes_spec.specs.Group.{encode_group};
ghost use Rattle.station_bytes_spec.specs.Reports.{encode_reports};
ghost use Rattle.bulletins_spec.specs.Calls.{bulletins_fresh_call};
ghost use Rattle.bulletin_bytes.specs.Bulletins.{encode_bulletins};
ghost use Rattle.bulletin_bytes.specs.Shown.{encode_all_shown};
ghost use Rattle.group_calls.specs.Bulletins.{bulletins_fresh_returned, issue_answer, issue_returned};
ghost use Rattle.group_calls.specs.Bulletins.{both_answer, both_returned};

/// Fresh: the bulletins of a group of n, as they begin.
#[unsafe(no_mangle)]
pub extern "C" fn relay_bulletins_fresh(state: &mut [u8], n: u32) -> u32
    ensures returned { result ≡ bulletins_fresh_returned n state.old }
    ensures state { state.new
        ≡ front_written result (encode_bulletins (bulletins_fresh_call n).bulletins) state.old }
{
    group_calls::bulletin_calls::fresh(state, n)
}

/// Issue: one more bulletin of an issuer, which shows it at once.
#[unsafe(no_mangle)]
pub extern "C" fn relay_bulletins_issue(state: &mut [u8], issuer: u32, tag: u32, event: u32) -> u32
    ensures returned { result ≡ issue_returned state.old issuer tag event }
    ensures state { state.new
        ≡ front_written result
        (encode_bulletins (issue_answer state.old issuer tag event).bulletins) state.old }
{
    group_calls::bulletin_calls::issue(state, issuer, tag, event)
}

/// Round: the group's round, and on the same masks everyone takes over the bulletins of those that
/// it hears.
#[unsafe(no_mangle)]
pub extern "C" fn relay_bulletins_round(
    group: &mut [u8],
    state: &mut [u8],
    masks: &[u16],
    reports: &mut [u8],
    shown: &mut [u8],
) -> u32
    ensures returned { result
        ≡ both_returned group.old state.old masks.now reports.old shown.old }
    ensures group { group.new
        ≡ front_written result
        (encode_group (both_answer group.old state.old masks.now).round.group) group.old }
    ensures state { state.new
        ≡ front_written result
        (encode_bulletins (both_answer group.old state.old masks.now).bulletins) state.old }
    ensures reports { reports.new
        ≡ front_written result
        (encode_reports (both_answer group.old state.old masks.now).round.reports) reports.old }
    ensures shown { shown.new
        ≡ front_written result
        (encode_all_shown (both_answer group.old state.old masks.now).shown) shown.old }
{
    group_calls::bulletin_calls::round(group, state, masks, reports, shown)
}
