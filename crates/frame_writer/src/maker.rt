// A table of records judged, and its frame written.

ghost use Rattle.std.specs.Prelude.{◌≡◌, not, ◌||◌, ◌≤◌, ◌<◌, length};
ghost use Rattle.bodies.specs.Limits.{body_inside};
ghost use Rattle.frame_spec.specs.Record.{place_fits};
ghost use Rattle.frame_spec.specs.Calls.{table_fits, frame_written, frame_buffer};

use bodies::refusals::Refusal;
use frame_spec::Record;
use labels::words::labels_inside;
use records::numbers::{count_fits, is_edition, valid_number};

// Is this a record of station k that a frame of an edition among n stations may carry?
#[tactic(auto, unfolding(frame_spec::specs::Record::place_fits, frame_spec::specs::Record::record_fits))]
fn place_fits(edition: usize, n: usize, k: usize, record: Record) -> bool
    requires station { k < n }
    requires few { n ≤ 16 }
    ensures { result ≡ place_fits (body_inside edition) n k «record» }
{
    record.station as usize == k
        && count_fits(n, record.count)
        && record.body.is_inside(edition)
        && labels_inside(record.labels, n)
}

// May the records at the held places of a table stand in a frame of this sender?
#[tactic(auto, unfolding(frame_spec::specs::Calls::table_fits, lists::specs::Below::all_below))]
fn table_fits(
    held: &[bool; 16],
    table: &[Record; 16],
    edition: usize,
    n: usize,
    sender: usize,
) -> bool
    requires few { n ≤ 16 }
    requires sender { sender < n }
    ensures { result ≡ table_fits (body_inside edition) n sender held.now table.now }
{
    for k in 0..n {
        if held[k] && !place_fits(edition, n, k, table[k]) {
            return false;
        }
    }
    held[sender]
}

/// Writing a frame: 1, 17, 7, 9, or the length of the frame of an edition that a sender among n
/// stations makes of the records at the held places of a table.
#[tactic(auto, unfolding(frame_spec::specs::Calls::frame_written, frame_spec::specs::Calls::frame_buffer))]
pub fn write_frame(
    buffer: &mut [u8],
    held: &[bool; 16],
    table: &[Record; 16],
    edition: usize,
    n: usize,
    sender: usize,
) -> Result<usize, Refusal>
    ensures answer { result ≡ frame_written edition n sender held.now table.now (length buffer.old) }
    ensures buffer { buffer.new ≡ frame_buffer edition n sender held.now table.now buffer.old }
{
    if !valid_number(n, sender) {
        return Err(Refusal::BadNumber);
    }
    if !is_edition(edition) {
        return Err(Refusal::BadEdition);
    }
    if !table_fits(held, table, edition, n, sender) {
        return Err(Refusal::BadRecord);
    }
    super::write_table(buffer, held, table, edition, n, sender)
}
