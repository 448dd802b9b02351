// The answers of a group's calls. The definitions of the calls, their laws and demand 3 stand
// beside; there is no code.

#![tactic(auto)]

use bodies::Body;
use station_spec::{Station, Taking, TurnReport};

// What a group post is given: the station it is made at, the desk that makes it, and the body.
#[derive(Clone, Copy)]
pub struct Post {
    pub station: usize,
    pub desk: usize,
    pub body: Body,
}

// What a round reports of one station: the bodies it took in the order heard, and its turn.
#[derive(Clone, Copy)]
pub struct Report {
    pub takings_len: usize,
    pub takings: [Taking; 30],
    pub turn: TurnReport,
}

// The answer of fresh and of post.
#[derive(Clone, Copy)]
pub struct GroupAnswer {
    pub refusal: u32,
    pub group: [Station; 16],
}

// The answer of a round. The refusal is as wide as the numbers of a station, so that nothing stands
// unused between it and the group.
#[derive(Clone, Copy)]
pub struct RoundDone {
    pub refusal: usize,
    pub group: [Station; 16],
    pub reports: [Report; 16],
}
