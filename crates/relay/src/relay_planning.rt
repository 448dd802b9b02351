// The calls of planning: document 02, A1, A10, A11 and A13.

ghost use Rattle.std.specs.Prelude.{[], ◌∷◌, ◌≡◌, length};
ghost use Rattle.planning_spec.specs.Forecast.{forecast_call, forecast_into_refusal, written_into};
ghost use Rattle.planning_spec.specs.Merge.{merged_log, front_written, merge_into_refusal};
ghost use Rattle.planning_spec.specs.Questions.{answer_numbers, questions_into_refusal};
ghost use Rattle.planning_calls.specs.Contest.{contest_returned, contest_buffer};

/// The forecast of a log into two lent buffers, sixteen entries each: 0, or the refusal, and then
/// neither buffer changes.
#[unsafe(no_mangle)]
pub extern "C" fn relay_forecast(log: &[u16], n: u32, ends: &mut [u16], last: &mut [u16]) -> u32
    ensures returned { result ≡ forecast_into_refusal n log.now ends.old last.old }
    ensures ends { ends.new ≡ written_into result (forecast_call n log.now).ends ends.old }
    ensures last { last.new ≡ written_into result (forecast_call n log.now).last last.old }
{
    planning_calls::forecast_into(log, n, ends, last)
}

/// The merged log into a lent buffer, and its number of masks into another: 0, or the refusal, and
/// then neither buffer changes.
#[unsafe(no_mangle)]
pub extern "C" fn relay_merge(
    first: &[u16],
    second: &[u16],
    n: u32,
    merged: &mut [u16],
    masks: &mut [u32],
) -> u32
    ensures returned { result ≡ merge_into_refusal n first.now second.now merged.old masks.old }
    ensures merged { merged.new
        ≡ front_written result (merged_log n first.now second.now) merged.old }
    ensures masks { masks.new
        ≡ front_written result (length (merged_log n first.now second.now) ∷ []) masks.old }
{
    planning_calls::merge_into(first, second, n, merged, masks)
}

/// The answers to a page of questions into a lent buffer, one a question: 0, or the refusal, and
/// then the buffer does not change.
#[unsafe(no_mangle)]
pub extern "C" fn relay_questions(log: &[u16], n: u32, page: &[u32], answers: &mut [u32]) -> u32
    ensures returned { result ≡ questions_into_refusal n log.now page.now answers.old }
    ensures answers { answers.new
        ≡ front_written result (answer_numbers n log.now page.now) answers.old }
{
    planning_calls::questions_into(log, n, page, answers)
}

/// Who can force the result of a contest, put as two numbers into a lent buffer: 0, or the refusal,
/// and then the buffer does not change.
#[unsafe(no_mangle)]
pub extern "C" fn relay_contest(
    n: u32,
    s: u32,
    sets: &[u16],
    rounds: u32,
    answer: &mut [u32],
) -> u32
    ensures returned { result ≡ contest_returned n s sets.now rounds answer.old }
    ensures answer { answer.new ≡ contest_buffer n s sets.now rounds answer.old }
{
    planning_calls::contest_into(n, s, sets, rounds, answer)
}
