// Bulletins (document 02, A12): the state beside a group, and the answers of its calls. The
// definitions of the calls, their laws and the theorem stand beside; there is no code.

#![tactic(auto)]

use group_spec::RoundDone;

/// The bulletins of a group, and who holds them. An issuer has four places, issuer i those from
/// 4 * i on, each with a tag and an event. Bit s of a station's set says that the station holds the
/// bulletin at place s. Where the issuer does not hold it there is none, and the tag and the event
/// say nothing.
#[derive(Clone, Copy)]
pub struct Bulletins {
    pub n: usize,
    pub tags: [u32; 64],
    pub events: [u32; 64],
    pub held: [u64; 16],
}

/// A bulletin as it is shown.
#[derive(Clone, Copy)]
pub struct Notice {
    pub issuer: u32,
    pub tag: u32,
    pub event: u32,
}

/// What one station shows in a round: the first `len` notices. The others are unused.
#[derive(Clone, Copy)]
pub struct Shown {
    pub len: usize,
    pub notices: [Notice; 64],
}

/// The answer of fresh.
#[derive(Clone, Copy)]
pub struct BulletinsAnswer {
    pub refusal: u32,
    pub bulletins: Bulletins,
}

/// The answer of issue, with what the issuer shows.
#[derive(Clone, Copy)]
pub struct IssueDone {
    pub refusal: u32,
    pub bulletins: Bulletins,
    pub shown: Notice,
}

/// The answer of a round of the group and its bulletins. The refusal is the one in the group's
/// part.
#[derive(Clone, Copy)]
pub struct BulletinsRound {
    pub round: RoundDone,
    pub bulletins: Bulletins,
    pub shown: [Shown; 16],
}
