// Frames judged.

#![tactic(auto)]

pub mod frames;
pub mod reader;

ghost use Rattle.std.specs.Prelude.{◌≡◌, ◌≤◌, length};
ghost use Rattle.frame_spec.specs.Record.{bytes_inside};
ghost use Rattle.frame_spec.specs.Frame.{frame_refusal, check_refusal};

use bodies::limits::{channel_inside, numbers_inside};
use bodies::refusals::Refusal;
use frames::Frame;
use labels::words::word_inside;
use records::reader::{signed, word_at};

// Are the sixteen bytes of a record inside its limits?
#[tactic(auto, unfolding(frame_spec::specs::Record::bytes_inside, labels::specs::Packing::word_inside))]
fn record_inside(part: &[u8], edition: usize, n: usize) -> bool
    requires whole { length part.now ≡ 16 }
    requires few { n ≤ 16 }
    ensures { result ≡ bytes_inside edition n part.now }
{
    (part[0] as usize) < n
        && part[1] as usize <= 2 * (n - 1)
        && numbers_inside(part[2] as u32, word_at(part, 4), signed(word_at(part, 8)))
        && channel_inside(edition, part[2] as u32, part[3])
        && word_inside(word_at(part, 12), n)
}

/// What hearing judges of a frame: 5, 6, 7, in this order.
pub fn frame_refusal(bytes: &[u8], edition: usize, n: usize, own: usize) -> Result<(), Refusal>
    requires { n ≤ 16 }
    ensures { result ≡ frame_refusal edition bytes.now n own }
{
    Frame::hear(bytes, edition, n, own)?;
    Ok(())
}

/// The frame check: 1, 17, then what hearing judges.
pub fn check_frame(bytes: &[u8], edition: usize, n: usize, own: usize) -> Result<(), Refusal>
    ensures { result ≡ check_refusal edition bytes.now n own }
{
    Frame::check(bytes, edition, n, own)?;
    Ok(())
}
