// The load generator and the comparison of two air logs: document 02, A5 and A8.

ghost use Rattle.std.specs.Prelude.{◌≡◌, length};
ghost use Rattle.load_spec.specs.Calls.{wanted, host_refusal, host_buffer, host_places};
ghost use Rattle.planning_calls.specs.Compare.{compare_returned, compare_buffer};

/// A call of the generator: 1, 9, or 0 with the lines in the buffer, the next state in next[0] and
/// their length in next[1]. The `N` line is wanted where head is not 0.
#[unsafe(no_mangle)]
pub extern "C" fn relay_load(
    state: u32,
    n: u32,
    due: u32,
    head: u32,
    buffer: &mut [u8],
    next: &mut [u32],
) -> u32
    ensures returned { result
        ≡ host_refusal state n due (wanted head) (length buffer.old) (length next.old) }
    ensures buffer { buffer.new
        ≡ host_buffer state n due (wanted head) (length next.old) buffer.old }
    ensures next { next.new ≡ host_places state n due (wanted head) (length buffer.old) next.old }
{
    planning_calls::text::load_into(state, n, due, head, buffer, next)
}

/// How two air logs compare, put as two numbers into a lent buffer: 0, or the refusal, and then the
/// buffer does not change.
#[unsafe(no_mangle)]
pub extern "C" fn relay_compare(
    first: &[u8],
    p: u32,
    second: &[u8],
    q: u32,
    answer: &mut [u64],
) -> u32
    ensures returned { result ≡ compare_returned first.now p second.now q answer.old }
    ensures answer { answer.new ≡ compare_buffer first.now p second.now q answer.old }
{
    planning_calls::text::compare_into(first, p, second, q, answer)
}
