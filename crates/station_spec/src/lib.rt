// What a station is, and the answers of its calls. The definitions of the calls and their laws
// stand beside; there is no code.

#![tactic(auto)]

use bodies::Body;
use frame_spec::Record;
use queues::{Lane, Slot, Waiting};

/// What a fresh station or group is given: N, how many edits of a desk may wait at a station, and
/// the edition.
#[derive(Clone, Copy, Debug, PartialEq, Eq)]
pub struct Setup {
    pub n: usize,
    pub limit: usize,
    pub edition: usize,
}

/// A station, place by place: what it has of station k stands at place k of each array.
#[derive(Clone, Copy, Debug, PartialEq, Eq)]
pub struct Station {
    pub n: usize,
    pub own: usize,
    pub edition: usize,
    pub waiting: Waiting,
    pub acked: [bool; 16],
    pub body: Body,
    pub count: u8,
    pub labels: [u8; 16],
    pub held: [bool; 16],
    pub table: [Record; 16],
    pub lanes: [Lane; 16],
}

/// A body taken while hearing, and the station it is of.
#[derive(Clone, Copy, Debug, PartialEq, Eq)]
pub struct Taking {
    pub source: u8,
    pub body: Body,
}

/// What a turn reports: the aired row, the ended and the started body; Empty where there is none.
#[derive(Clone, Copy, Debug, PartialEq, Eq)]
pub struct TurnReport {
    pub aired: bool,
    pub row: [Slot; 16],
    pub ended: bool,
    pub ended_body: Body,
    pub started_body: Body,
}

/// The answer of fresh and of post.
#[derive(Clone, Copy, Debug, PartialEq, Eq)]
pub struct StationAnswer {
    pub refusal: u32,
    pub station: Station,
}

/// The answer of hear: the station, and from which stations a body was taken.
#[derive(Clone, Copy, Debug, PartialEq, Eq)]
pub struct Heard {
    pub refusal: u32,
    pub station: Station,
    pub taken: [bool; 16],
}

/// The answer of turn.
#[derive(Clone, Copy, Debug, PartialEq, Eq)]
pub struct Turned {
    pub refusal: u32,
    pub station: Station,
    pub report: TurnReport,
}
