// What a call turns down.

ghost use Rattle.std.specs.Prelude.{◌≡◌};
ghost use Rattle.bodies.specs.Refusals.{number_of};

use std::error::Error;
use std::fmt;

/// Why a call is refused: document 01's list "Turned down", and the requests of document 02.
#[derive(Clone, Copy, Debug, PartialEq, Eq, Hash)]
pub enum Refusal {
    BadNumber = 1,
    OutsideLimits = 2,
    QueueFull = 3,
    NotAnEdit = 4,
    BadShape = 5,
    BadAddress = 6,
    BadRecord = 7,
    LaneFull = 8,
    ShortBuffer = 9,
    CountTooHigh = 10,
    MalformedLine = 11,
    BadLinkLog = 12,
    BadLimit = 13,
    Conflict = 14,
    BadDesk = 15,
    BadListing = 16,
    BadEdition = 17,
    BadQuestion = 18,
    AlreadyIssued = 19,
    BadContest = 20,
}

impl Refusal {
    ghost use Rattle.bodies.specs.Refusals.{number};

    /// The number that C and the listing see.
    pub fn number(self) -> u32
        ensures { result ≡ number self }
    {
        self as u32
    }
}

impl fmt::Display for Refusal {
    fn fmt<W: fmt::Write>(&self, f: &mut fmt::Formatter<W>) -> fmt::Result {
        f.write_str(match self {
            Refusal::BadNumber => "no such number of stations, or no such station",
            Refusal::OutsideLimits => "the station or group is outside its limits",
            Refusal::QueueFull => "as many edits wait as may",
            Refusal::NotAnEdit => "not an edit, or outside the limits of its kind",
            Refusal::BadShape => "the length or bytes 2 and 3 are no frame's",
            Refusal::BadAddress =>
                "for another number of stations, or from a sender that cannot be",
            Refusal::BadRecord => "a record breaks its limits",
            Refusal::LaneFull => "a lane would get a third body",
            Refusal::ShortBuffer => "the buffer is too short",
            Refusal::CountTooHigh => "the own record's count is too high to be written",
            Refusal::MalformedLine => "a line does not have its form",
            Refusal::BadLinkLog => "the link log is not whole rounds, or too long",
            Refusal::BadLimit => "the limit of waiting edits is not 1 to 32",
            Refusal::Conflict => "a record conflicts with the one held of its station",
            Refusal::BadDesk => "no such desk",
            Refusal::BadListing => "not a listing",
            Refusal::BadEdition => "no such edition, or no channel of it",
            Refusal::BadQuestion => "not a question about these stations",
            Refusal::AlreadyIssued => "the tag or four bulletins are issued already",
            Refusal::BadContest => "too many stations, sets or rounds, or masks that are no sets",
        })
    }
}

impl Error for Refusal {}

/// What C and the listing see where a call is done.
pub const DONE: u32 = 0;

/// What a test tells C: 0 where it is passed, else the refusal's number.
pub fn number_of(answer: Result<(), Refusal>) -> u32
    ensures { result ≡ number_of answer }
{
    match answer {
        Ok(()) => DONE,
        Err(refusal) => refusal.number(),
    }
}
