//! Listing lines, written into a lent buffer.

#![tactic(auto)]

pub mod rounds;

ghost use Rattle.std.specs.Prelude.{◌≡◌, ◌+◌, ◌-◌, ◌≤◌, length};
ghost use Rattle.columns.specs.Writing.{nat_columns, int_columns};
ghost use Rattle.listing_lines.specs.Lines.{body_bytes, end_line, placed, Put};
ghost use Rattle.listing_lines.specs.Lines.{body_length, end_length};

use bodies::Body;

/// The letter of a line for what was turned down.
pub const REFUSED: u8 = b'X';

/// The bytes of a line, its line end among them.
pub const LINE: usize = HEAD + 21;

// The bytes of a line before its body.
const HEAD: usize = 14;

/// What a listing line says: a letter and a body, of a round and a station; and where the body
/// comes from. With the letter of a refusal the source is its number.
#[derive(Clone, Copy, Debug, PartialEq, Eq)]
pub struct Line {
    pub round: u32,
    pub letter: u8,
    pub station: usize,
    pub source: usize,
    pub body: Body,
}

impl Line {
    ghost use Rattle.std.specs.Prelude.{◌≡◌, ◌+◌, ◌≤◌, length};
    ghost use Rattle.listing_lines.specs.Lines.{head_bytes, line_bytes, placed, Put, head_length, line_length};

    // Round, letter, station and source put into their columns.
    fn put_head(self, out: &mut [u8], at: usize)
        requires { at + head_length ≤ length out.old }
        ensures { out.new ≡ placed out.old at (head_bytes self.round self.letter self.station self.source) }
    {
        put_natural(out, at, at + 6, self.round as u64);
        out[at + 6] = b' ';
        out[at + 7] = self.letter;
        put_natural(out, at + 8, at + 11, self.station as u64);
        put_natural(out, at + 11, at + HEAD, self.source as u64);
    }

    /// The line put into the buffer at a place. Returns the place behind it.
    pub fn put(self, out: &mut [u8], at: usize) -> usize
        requires { at + line_length ≤ length out.old }
        ensures { Put out.old out.new at result
            (line_bytes self.round self.letter self.station self.source self.body) }
    {
        self.put_head(out, at);
        put_body(out, at + HEAD, self.body);
        at + LINE
    }
}

/// A number put into the columns from one place to another.
pub fn put_natural(out: &mut [u8], at: usize, end: usize, value: u64)
    requires order { at ≤ end }
    requires room { end ≤ length out.old }
    ensures { out.new ≡ placed out.old at (nat_columns (end - at) value) }
{
    columns::writer::write_columns(&mut out[at..end], false, value);
}

fn put_whole(out: &mut [u8], at: usize, end: usize, value: i32)
    requires order { at ≤ end }
    requires room { end ≤ length out.old }
    ensures { out.new ≡ placed out.old at (int_columns (end - at) value) }
{
    columns::writer::write_whole(&mut out[at..end], value);
}

// A body's numbers put into their columns, and the line end.
fn put_body(out: &mut [u8], at: usize, body: Body)
    requires { at + body_length ≤ length out.old }
    ensures { out.new ≡ placed out.old at (body_bytes body) }
{
    put_natural(out, at, at + 2, body.kind() as u64);
    put_natural(out, at + 2, at + 11, body.event() as u64);
    put_whole(out, at + 11, at + 20, body.argument());
    out[at + 20] = b'\n';
}

// A text put into the buffer.
fn put_text(out: &mut [u8], at: usize, text: &[u8]) -> usize
    requires { at + length text.now ≤ length out.old }
    ensures { Put out.old out.new at result text.now }
{
    let end = at + text.len();
    out[at..end].copy_from_slice(text);
    end
}

/// The last line put into the buffer at a place. Returns the place behind it.
#[tactic(auto, unfolding(crate::specs::Lines::end_line))]
pub fn put_end(out: &mut [u8], at: usize) -> usize
    requires { at + end_length ≤ length out.old }
    ensures { Put out.old out.new at result end_line }
{
    put_text(out, at, b"END\n")
}
