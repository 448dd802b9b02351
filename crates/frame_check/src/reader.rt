// A frame that the frame check accepted, and its records read.

ghost use Rattle.std.specs.Prelude.{◌≡◌};
ghost use Rattle.frame_spec.specs.Calls.{records_read, reading};

use super::frames::Frame;
use bodies::Body;
use bodies::refusals::Refusal;
use frame_spec::{Record, Records};
use records::reader::read_record;

// What an entry is that no record uses.
const NONE: Record = Record {
    station: 0,
    count: 0,
    body: Body::Empty,
    labels: 0,
};

// The records of an accepted frame.
#[tactic(auto, using(frame_spec::proofs::Entries::steps), unfolding(frame_spec::specs::Calls::entries))]
fn records_of(frame: &Frame) -> Records
    ensures { result ≡ records_read frame.now }
{
    let mut records = [NONE; 16];
    let count = frame.count();
    for k in 0..count {
        records[k] = read_record(frame.part(k));
    }
    Records { count, records }
}

/// The records of a frame that the frame check accepts.
#[tactic(auto, unfolding(frame_spec::specs::Calls::reading))]
pub fn read_frame(bytes: &[u8], edition: usize, n: usize, own: usize) -> Result<Records, Refusal>
    ensures { result ≡ reading edition bytes.now n own }
{
    let frame = Frame::check(bytes, edition, n, own)?;
    Ok(records_of(&frame))
}
