// A load that everyone can repeat: the lines of a script, drawn round by round and written into a
// lent buffer.

#![tactic(auto)]

ghost use Rattle.std.specs.Prelude.{◌≡◌, ◌+◌, ◌*◌, ◌%◌, ◌^◌, ◌≤◌, [], ◌∷◌, length, if◌then◌else◌};
ghost use Rattle.columns.specs.Writing.{nat_columns};
ghost use Rattle.listing_lines.specs.Lines.{placed, Put};
ghost use Rattle.load_spec.specs.Draws.{next_state, posts, after_round};
ghost use Rattle.load_spec.specs.Script.{text_of, size_line, post_line, post_lines, round_lines};
ghost use Rattle.load_spec.specs.Script.{field_width, size_length, post_length};
ghost use Rattle.load_spec.specs.Calls.{numbers_fit, generated, buffer_after, Writes};
ghost use Rattle.load.specs.Inner.{answer_of};

use bodies::refusals::Refusal;
use load_spec::Generated;

// The numbers of the generator's step, and what a new state is divided by for a draw.
const FACTOR: u32 = 1_664_525;

const ADDEND: u32 = 1_013_904_223;

const DIVISOR: u32 = 65_536;

// As many stations as a group can have, and as many rounds as a listing can number.
const MOST_STATIONS: usize = 16;

const MOST_ROUNDS: u32 = 999_999;

// The letters of a script, and the end of its lines.
const SIZE: u8 = b'N';

const POST: u8 = b'P';

const ROUND: u8 = b'R';

const LINE_END: u8 = b'\n';

// The kind of an insert.
const INSERT: u64 = 2;

// The columns of a number, and the bytes of an `N` line and of a post's line, with their line ends.
const FIELD: usize = 9;

const SIZE_LEN: usize = 1 + FIELD + 1;

const POST_LEN: usize = 1 + 4 * FIELD + 1;

// A product that wraps at 32 bits. Kept as a helper: document 01 names this form for its place.
fn wrapping_mul(a: u32, b: u32) -> u32
    ensures { result ≡ a * b % 2 ^ 32 }
{
    (a as u64 * b as u64 % 4_294_967_296) as u32
}

// The generator's step: a helper wraps the product at 32 bits, and std the sum.
#[tactic(auto, unfolding(load_spec::specs::Draws::next_state))]
fn next_state(state: u32) -> u32
    ensures { result ≡ next_state state }
{
    wrapping_mul(FACTOR, state).wrapping_add(ADDEND)
}

// The two draws of a station: on its post, and its mask.
#[derive(Clone, Copy)]
struct Drawn {
    post: u32,
    mask: u32,
}

// The generator, by its state.
#[derive(Drop)]
struct Generator {
    state: u32,
}

impl Generator {
    ghost use Rattle.std.specs.Prelude.{◌≡◌, ◌+◌, ◌*◌, ◌≤◌, length};
    ghost use Rattle.lists.specs.Below.{tabulate};
    ghost use Rattle.listing_lines.specs.Lines.{Put};
    ghost use Rattle.load_spec.specs.Draws.{next_state, draw_of, mask_draw, after_round};
    ghost use Rattle.load_spec.specs.Script.{fields, field_width};

    // What is drawn with the next state.
    fn draw(&mut self) -> u32
        ensures step { self.new.state ≡ next_state self.old.state }
        ensures drawn { result ≡ draw_of self.new.state }
    {
        self.state = next_state(self.state);
        self.state / DIVISOR
    }

    // The draws of the next station.
    fn station(&mut self) -> Drawn
        ensures steps { self.new.state ≡ next_state (next_state self.old.state) }
        ensures post { result.post ≡ draw_of (next_state self.old.state) }
        ensures mask { result.mask ≡ draw_of self.new.state }
    {
        let post = self.draw();
        let mask = self.draw();
        Drawn { post, mask }
    }

    // The masks of a round of n stations put into their columns, each as it is drawn. Returns the
    // place behind them.
    fn put_masks(&mut self, out: &mut [u8], at: usize, n: usize) -> usize
        requires few { n ≤ 16 }
        requires room { at + field_width * n ≤ length out.old }
        ensures masks { Put out.old out.new at result (fields (tabulate n (mask_draw self.old.state))) }
        ensures behind { result ≡ at + field_width * n }
        ensures after { self.new.state ≡ after_round n self.old.state }
    {
        let mut end = at;
        for p in 0..n {
            end = put_field(out, end, self.station().mask as u64);
        }
        end
    }
}

fn posts(draw: u32) -> bool
    ensures { result ≡ posts draw }
{
    draw % 8 == 0
}

// The bytes that a draw for a station's post brings.
#[tactic(auto, using(load_spec::proofs::Text::length_post_if))]
fn post_len(station: usize, draw: u32) -> usize
    ensures { result ≡ length (text_of (if posts draw then post_line station draw ∷ [] else [])) }
{
    if posts(draw) { POST_LEN } else { 0 }
}

// The bytes of a round's posts.
fn posts_len(state: u32, n: usize) -> usize
    requires { n ≤ 16 }
    ensures { result ≡ length (text_of (post_lines state n)) }
{
    let mut generator = Generator { state };
    let mut len = 0;
    for p in 0..n {
        len += post_len(p, generator.station().post);
    }
    len
}

// A number put into its columns. Returns the place behind them.
#[tactic(auto, using(crate::proofs::Lines::put_columns))]
fn put_field(out: &mut [u8], at: usize, value: u64) -> usize
    requires { at + field_width ≤ length out.old }
    ensures digits { Put out.old out.new at result (nat_columns field_width value) }
    ensures behind { result ≡ at + field_width }
{
    listing_lines::put_natural(out, at, at + FIELD, value);
    at + FIELD
}

// The line of a post put into the buffer. Returns the place behind it. Its numbers are put one by
// one: a loop over them as a slice took a tenth longer for a whole round, since what is known of
// their size is lost there.
fn put_post_line(out: &mut [u8], at: usize, station: usize, draw: u32) -> usize
    requires { at + post_length ≤ length out.old }
    ensures { Put out.old out.new at result (text_of (post_line station draw ∷ [])) }
{
    out[at] = POST;
    let kind = put_field(out, at + 1, station as u64);
    let event = put_field(out, kind, INSERT);
    let start = put_field(out, event, draw as u64 + 1);
    let end = put_field(out, start, draw as u64);
    out[end] = LINE_END;
    end + 1
}

// The same where the draw posts.
fn put_post(out: &mut [u8], at: usize, station: usize, draw: u32) -> usize
    requires { at + length (text_of (if posts draw then post_line station draw ∷ [] else []))
        ≤ length out.old }
    ensures { Put out.old out.new at result
        (text_of (if posts draw then post_line station draw ∷ [] else [])) }
{
    if posts(draw) {
        put_post_line(out, at, station, draw)
    } else {
        at
    }
}

// The posts of a round put at the front of the buffer. Returns the place behind them.
fn put_posts(out: &mut [u8], state: u32, n: usize) -> usize
    requires { length (text_of (post_lines state n)) ≤ length out.old }
    ensures { Put out.old out.new 0 result (text_of (post_lines state n)) }
{
    let mut generator = Generator { state };
    let mut end = 0;
    for p in 0..n {
        end = put_post(out, end, p, generator.station().post);
    }
    end
}

// The lines of a round put at the front of the buffer. Returns the state after the round.
fn put_round(out: &mut [u8], state: u32, n: usize) -> u32
    requires few { n ≤ 16 }
    requires room { length (text_of (round_lines state n)) ≤ length out.old }
    ensures after { result ≡ after_round n state }
    ensures lines { out.new ≡ placed out.old 0 (text_of (round_lines state n)) }
{
    let at = put_posts(out, state, n);
    out[at] = ROUND;
    let mut generator = Generator { state };
    let last = generator.put_masks(out, at + 1, n);
    out[last] = LINE_END;
    generator.state
}

// The `N` line put at the front of the buffer.
fn put_size(out: &mut [u8], n: usize)
    requires { size_length ≤ length out.old }
    ensures { out.new ≡ placed out.old 0 (text_of (size_line n ∷ [])) }
{
    out[0] = SIZE;
    let end = put_field(out, 1, n as u64);
    out[end] = LINE_END;
}

/// Is n a group's size, and is the number of rounds due one that a listing can number?
#[tactic(auto, unfolding(load_spec::specs::Calls::numbers_fit))]
pub fn numbers_fit(n: usize, due: u32) -> bool
    ensures { result ≡ numbers_fit n due }
{
    1 <= n && n <= MOST_STATIONS && due <= MOST_ROUNDS
}

// What was written: its bytes, and the state that the next call is given.
#[derive(Clone, Copy)]
struct Written {
    len: usize,
    state: u32,
}

// The next round where it fits.
fn write_round(out: &mut [u8], state: u32, n: usize) -> Result<Written, Refusal>
    requires { n ≤ 16 }
    ensures { Writes (text_of (round_lines state n)) state (after_round n state) out.old out.new
        (answer_of state result) }
{
    // The line of masks has a letter and a line end too.
    let len = posts_len(state, n) + FIELD * n + 2;
    if out.len() < len {
        return Err(Refusal::ShortBuffer);
    }
    let after = put_round(out, state, n);
    Ok(Written { len, state: after })
}

// The `N` line where it fits. It draws nothing.
fn write_size(out: &mut [u8], state: u32, n: usize) -> Result<Written, Refusal>
    ensures { Writes (text_of (size_line n ∷ [])) state state out.old out.new
        (answer_of state result) }
{
    if out.len() < SIZE_LEN {
        return Err(Refusal::ShortBuffer);
    }
    put_size(out, n);
    Ok(Written {
        len: SIZE_LEN,
        state,
    })
}

// The `N` line where it is wanted, else the lines of the next round where one is due.
fn write_lines(
    out: &mut [u8],
    state: u32,
    n: usize,
    due: u32,
    head: bool,
) -> Result<Written, Refusal>
    ensures answer { answer_of state result ≡ generated state n due head (length out.old) }
    ensures buffer { out.new ≡ buffer_after state n due head out.old }
{
    if !numbers_fit(n, due) {
        return Err(Refusal::BadNumber);
    }
    if head {
        return write_size(out, state, n);
    }
    if due == 0 {
        return Ok(Written { len: 0, state });
    }
    write_round(out, state, n)
}

/// A call of the generator: the `N` line where it is wanted, else the lines of the next round, put
/// at the front of the lent buffer. Refused with 1 for numbers that do not fit and 9 for a buffer
/// too short; then the length is 0 and the state as given.
pub fn generate(out: &mut [u8], state: u32, n: usize, due: u32, head: bool) -> Generated
    ensures { (result ≡ generated state n due head (length out.old))
        × (out.new ≡ buffer_after state n due head out.old) }
{
    match write_lines(out, state, n, due, head) {
        Ok(Written { len, state }) => Generated {
            refusal: 0,
            len,
            state,
        },
        Err(refusal) => Generated {
            refusal: refusal.number(),
            len: 0,
            state,
        },
    }
}
