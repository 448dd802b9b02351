// The frame of a table of records, written into a lent buffer.

#![tactic(auto)]

pub mod maker;

ghost use Rattle.std.specs.Prelude.{◌≡◌, ◌≤◌, ◌<◌, length};
ghost use Rattle.frame_spec.specs.Frame.{frame_bytes};
ghost use Rattle.frame_spec.specs.Calls.{table_records, written, buffer_with};
ghost use Rattle.frame_spec.specs.Inner.Writing.{held_count};

use bodies::refusals::Refusal;
use frame_spec::{HEAD_WIDTH, RECORD_WIDTH, Record};
use records::writer::write_record;

// How many of the first n places are held.
#[tactic(auto, using(crate::proofs::Table::counted, crate::proofs::Table::count_le))]
fn held_count(held: &[bool; 16], n: usize) -> usize
    requires { n ≤ 16 }
    ensures count { result ≡ held_count n held.now }
    ensures few { result ≤ n }
{
    held[..n].iter().filter(|held| **held).count()
}

/// The frame of an edition that a sender among n stations makes of the records at the held places
/// of a table.
pub fn write_table(
    buffer: &mut [u8],
    held: &[bool; 16],
    table: &[Record; 16],
    edition: usize,
    n: usize,
    sender: usize,
) -> Result<usize, Refusal>
    requires few { n ≤ 16 }
    requires sender { sender < 256 }
    requires edition { edition < 256 }
    ensures answer { result
        ≡ written (frame_bytes edition n sender (table_records n held.now table.now)) (length buffer.old) }
    ensures buffer { buffer.new
        ≡ buffer_with (frame_bytes edition n sender (table_records n held.now table.now)) buffer.old }
{
    let count = held_count(held, n);
    let len = HEAD_WIDTH + RECORD_WIDTH * count;
    if buffer.len() < len {
        return Err(Refusal::ShortBuffer);
    }
    buffer[..HEAD_WIDTH].copy_from_slice(&[n as u8, sender as u8, count as u8, edition as u8]);
    let mut at = HEAD_WIDTH;
    for k in 0..n {
        if !held[k] {
            continue;
        }
        write_record(&mut buffer[at..at + RECORD_WIDTH], n, table[k]);
        at += RECORD_WIDTH;
    }
    Ok(len)
}
