//! The relay listing: a script on standard input, its listing on standard output.

#![tactic(auto)]

ghost use Rattle.std.specs.Prelude.{ℕ, ◌≤◌, [], length, take, OnOk, OnErr, IfOk};
ghost use Rattle.std.specs.Io.KnownBytes.{Appends, Consumes};
ghost use Rattle.listing_lines.specs.Reports.{round_room};
ghost use Rattle.listing_spec.specs.Listing.{closing_room};
ghost use Rattle.listing_spec.specs.Remaining.{kept_bytes, remaining};
ghost use Rattle.relay_listing.specs.Passing.{Passes, Reads, Lists};

use listing_spec::reading::Reader;
use std::io::{ErrorKind, Read, Write};
use std::process::ExitCode;

// How many bytes a part of the script has at most. A buffer of as many has room for the 26,880 that
// a round of sixteen stations can print.
const PART: usize = 65_536;

// The exit status where a read or a write failed.
const FAILED: u8 = 2;

// What failed: a read, a write, or a write because whoever reads the listing has closed it.
#[derive(Clone, Copy, Debug, PartialEq, Eq)]
enum Failure {
    Read,
    Write,
    Closed,
}

impl Failure {
    // What is said of it: nothing where whoever reads the listing has closed it.
    fn message(self) -> Option<&'static str> {
        match self {
            Failure::Read => Some("relay_listing: cannot read"),
            Failure::Write => Some("relay_listing: cannot write"),
            Failure::Closed => None,
        }
    }
}

// Writes the front of the buffer.
fn write_front<W: Write>(to: &mut W, out: &[u8], len: usize) -> Result<(), Failure>
    requires { len ≤ length out.now }
    ensures { OnOk result (Appends (W.contents to.old) (W.contents to.new) (take len out.now)) }
{
    match to.write_all(&out[..len]) {
        Ok(()) => Ok(()),
        Err(e) if matches!(e.kind(), ErrorKind::BrokenPipe) => Err(Failure::Closed),
        Err(_) => Err(Failure::Write),
    }
}

// Feeds a whole part to the reader, and writes what comes of it, call by call.
fn pass<W: Write>(to: &mut W, r: Reader, part: &[u8], out: &mut [u8]) -> Result<Reader, Failure>
    requires held { r.len ≤ kept_bytes }
    requires room { round_room ≤ length out.old }
    ensures kept { IfOk result (λ (q : Reader). q.len ≤ kept_bytes) }
    ensures passes { IfOk result (λ (q : Reader). Passes r part.now q
        (W.contents to.old) (W.contents to.new)) }
{
    let mut reader = r;
    let mut from = 0;
    // Kept as a while loop: a call may read less than is left of the part.
    while from < part.len() {
        let fed = reader::feed(reader, &part[from..], out);
        write_front(to, out, fed.len)?;
        reader = fed.reader;
        from += fed.read;
    }
    Ok(reader)
}

// Reads the next bytes of the script into the part: none at its end, and none where the reading
// failed.
fn read_part<I: Read>(input: &mut I, part: &mut [u8]) -> Result<usize, Failure>
    ensures bound { IfOk result (λ (len : ℕ). len ≤ length part.new) }
    ensures bytes { IfOk result (λ (len : ℕ). Consumes
        (I.remaining input.old) (I.remaining input.new) (take len part.new)) }
    ensures none { OnErr result (Consumes (I.remaining input.old) (I.remaining input.new) []) }
{
    match input.read(part) {
        Ok(len) => Ok(len),
        Err(_) => Err(Failure::Read),
    }
}

// Reads a script until it ends or the reading stops. A proved loop has to end, and nothing says
// that the input does: the loop takes so many turns that no run comes to the last.
fn read_input<I: Read, W: Write>(
    input: &mut I,
    to: &mut W,
    out: &mut [u8],
) -> Result<Reader, Failure>
    requires { round_room ≤ length out.old }
    ensures kept { IfOk result (λ (q : Reader). q.len ≤ kept_bytes) }
    ensures reads { IfOk result (λ (q : Reader). Reads q
        (I.remaining input.old) (I.remaining input.new) (W.contents to.old) (W.contents to.new)) }
{
    let mut reader = reader::steps::begin();
    let mut bytes = [0; PART];
    for _ in 0..u64::MAX {
        let len = read_part(input, &mut bytes)?;
        if len == 0 {
            return Ok(reader);
        }
        reader = pass(to, reader, &bytes[..len], out)?;
        if reader.session.stopped {
            return Ok(reader);
        }
    }
    Ok(reader)
}

// Writes the listing of a script.
fn list<I: Read, W: Write>(input: &mut I, to: &mut W) -> Result<(), Failure>
    ensures { OnOk result (Lists
        (I.remaining input.old) (I.remaining input.new) (W.contents to.old) (W.contents to.new)) }
{
    let mut out = [0; PART];
    let reader = read_input(input, to, &mut out)?;
    let end = reader::steps::finish(reader, &mut out);
    write_front(to, &out, end)
}

// A read or a write that fails shows by its message, by the missing last line and by the exit
// status.
fn main(rt: HostRuntime) -> ExitCode {
    match list(&mut rt.stdin(), &mut rt.stdout()) {
        Ok(()) => ExitCode::SUCCESS,
        Err(failure) => {
            if let Some(message) = failure.message() {
                let _ = rt.eprintln(message);
            }
            ExitCode::from(FAILED)
        }
    }
}
