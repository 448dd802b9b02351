// What a record is, and the answers of the calls on frames. The definitions of bytes, records and
// frames and their laws stand beside; there is no code.

#![tactic(auto)]

use bodies::Body;

/// The bytes of a frame before its records: N, the sender, the number of records, the edition.
pub const HEAD_WIDTH: usize = 4;

/// The bytes of a record.
pub const RECORD_WIDTH: usize = 16;

/// A record: the station it is of, its count, its body and its labels, that of station k at bits 2k
/// and 2k + 1.
#[derive(Clone, Copy, Debug, PartialEq, Eq)]
pub struct Record {
    pub station: u8,
    pub count: u8,
    pub body: Body,
    pub labels: u32,
}

/// The records of a frame; entries that it does not use are zero.
// Kept as an array beside a count: the contract of reading says what stands in every entry.
#[derive(Clone, Copy, Debug, PartialEq, Eq)]
pub struct Records {
    pub count: usize,
    pub records: [Record; 16],
}

/// What writing a station's frame answers: its length, or the refusal's number.
// Kept while `write_call` of station_spec answers by it; frame_writer answers by a Result.
#[derive(Clone, Copy, Debug, PartialEq, Eq)]
pub struct Written {
    pub refusal: u32,
    pub len: usize,
}
