// The steps of a reading: it begins, takes the bytes of a line, and finishes.

ghost use Rattle.std.specs.Prelude.{ℕ, ◌≡◌, [], ◌-◌, ◌≤◌, ◌<◌, length, take, drop, slice_index};
ghost use Rattle.listing_lines.specs.Lines.{Put};
ghost use Rattle.listing_spec.specs.Listing.{closing_room};
ghost use Rattle.listing_spec.specs.Remaining.{kept_bytes, remaining, beginning, Same, EndsAt};

use listing_spec::reading::{KEPT, Reader};

/// Bytes taken into a line, up to a line end or to the end of the part: the place behind them, and
/// how many bytes of the line are held then.
#[derive(Clone, Copy, Debug, PartialEq, Eq)]
pub struct LineScan {
    pub next: usize,
    pub len: usize,
}

/// A reader before any byte is read.
pub fn begin() -> Reader
    ensures { result ≡ beginning }
{
    Reader {
        session: listing::ends::begin(),
        len: 0,
        line: [0; KEPT],
    }
}

// How many bytes stand before the first line end.
fn line_len(bytes: &[u8]) -> usize
    ensures ends { EndsAt bytes.now result }
    ensures inner { (k : ℕ) → k < result → slice_index bytes.now k ≡ 10 → ⊥ }
{
    bytes
        .iter()
        .position(|&b| b == b'\n')
        .unwrap_or(bytes.len())
}

/// The bytes of a part from a place up to a line end, taken into the line. Of a line that is too
/// long only as many are kept as tell that it is.
pub fn take_line(line: &mut [u8], held: usize, part: &[u8], from: usize) -> LineScan
    requires held { held ≤ kept_bytes }
    requires whole { kept_bytes ≡ length line.old }
    requires from { from ≤ length part.now }
    ensures same { Same (take held line.old) (take (result.next - from) (drop from part.now))
        (take result.len line.new) }
    ensures kept { result.len ≤ kept_bytes }
    ensures forward { from ≤ result.next }
    ensures ends { EndsAt part.now result.next }
{
    let rest = &part[from..];
    let read = line_len(rest);
    let kept = read.min(KEPT - held);
    line[held..held + kept].copy_from_slice(&rest[..kept]);
    LineScan {
        next: from + read,
        len: held + kept,
    }
}

/// The end of the script, and the last line, put at the front of the buffer. Returns how many bytes
/// were put.
pub fn finish(r: Reader, out: &mut [u8]) -> usize
    requires held { r.len ≤ kept_bytes }
    requires room { closing_room ≤ length out.old }
    ensures { Put out.old out.new 0 result (remaining r []) }
{
    listing::ends::close(&r.session, &r.line[..r.len], out)
}
