//! The answers of the planning calls. The definitions of the calls and what they come to by relays
//! stand beside; there is no code.

#![tactic(auto)]

/// For each of sixteen stations how many of its broadcasts end, and the round of the last end; 0
/// where none ends.
#[derive(Clone, Copy, Debug, PartialEq, Eq)]
pub struct ForecastTable {
    pub ends: [u16; 16],
    pub last: [u16; 16],
}

/// By which round a station has received a broadcast; None for never.
pub type Arrival = Option<u16>;
