// The one table of kinds with their limits, the channels of an edition, and the tests of bodies by
// them.

ghost use Rattle.std.specs.Prelude.{◌≡◌};
ghost use Rattle.bodies.specs.Limits.{numbers_inside, channel_inside};

use super::Body;

/// One row of the table of kinds: the least and the most of its event and of its argument.
#[derive(Clone, Copy, Debug, PartialEq, Eq)]
pub struct Limits {
    pub least_event: u32,
    pub most_event: u32,
    pub least_argument: i32,
    pub most_argument: i32,
}

/// The table of kinds, a row for each of 0 to 4.
pub const KINDS: [Limits; 5] = [
    Limits {
        least_event: 0,
        most_event: 0,
        least_argument: 0,
        most_argument: 0,
    },
    Limits {
        least_event: 0,
        most_event: 0,
        least_argument: 0,
        most_argument: 0,
    },
    Limits {
        least_event: 1,
        most_event: 99_999_999,
        least_argument: 0,
        most_argument: 2_699_999,
    },
    Limits {
        least_event: 1,
        most_event: 99_999_999,
        least_argument: 0,
        most_argument: 0,
    },
    Limits {
        least_event: 1,
        most_event: 99_999_999,
        least_argument: -90_000,
        most_argument: 90_000,
    },
];

/// Are these the numbers of a body inside its limits?
#[tactic(auto, unfolding(crate::specs::Limits::numbers_inside))]
pub fn numbers_inside(kind: u32, event: u32, argument: i32) -> bool
    ensures { result ≡ numbers_inside kind event argument }
{
    match KINDS.get(kind as usize) {
        Some(row) => {
            row.least_event <= event
                && event <= row.most_event
                && row.least_argument <= argument
                && argument <= row.most_argument
        }
        None => false,
    }
}

/// Is this the channel of a body of a kind in an edition?
#[tactic(auto, unfolding(crate::specs::Limits::channel_inside))]
pub fn channel_inside(edition: usize, kind: u32, channel: u8) -> bool
    ensures { result ≡ channel_inside edition kind channel }
{
    if edition == 1 && 2 <= kind {
        1 <= channel && channel <= 200
    } else {
        channel == 0
    }
}

impl Body {
    ghost use Rattle.bodies.specs.Limits.{on_channel, inside_kind, body_inside, postable, may_wait};

    // Is the body inside the limits of its kind? Each arm names its kind, so its row is known where
    // the program is built.
    #[tactic(auto, unfolding(crate::specs::Limits::inside_kind))]
    fn is_inside_kind(self) -> bool
        ensures { result ≡ inside_kind self }
    {
        match self {
            Body::Empty => numbers_inside(0, 0, 0),
            Body::Neutral => numbers_inside(1, 0, 0),
            Body::Insert { event, start, .. } => numbers_inside(2, event, start),
            Body::Drop { event, .. } => numbers_inside(3, event, 0),
            Body::Shift { event, frames, .. } => numbers_inside(4, event, frames),
        }
    }

    /// Is the body's channel one of its edition?
    pub fn is_on_channel(self, edition: usize) -> bool
        ensures { result ≡ on_channel edition self }
    {
        channel_inside(edition, self.kind(), self.channel())
    }

    /// Is the body inside its limits in an edition?
    #[tactic(auto, unfolding(crate::specs::Limits::body_inside))]
    pub fn is_inside(self, edition: usize) -> bool
        ensures { result ≡ body_inside edition self }
    {
        self.is_inside_kind() && self.is_on_channel(edition)
    }

    /// May the body be posted: is it an edit inside the limits of its kind?
    #[tactic(auto, unfolding(crate::specs::Limits::postable))]
    pub fn is_postable(self) -> bool
        ensures { result ≡ postable self }
    {
        self.is_edit() && self.is_inside_kind()
    }

    /// May the body wait at a station of an edition: is it an edit inside its limits?
    #[tactic(auto, unfolding(crate::specs::Limits::may_wait))]
    pub fn may_wait(self, edition: usize) -> bool
        ensures { result ≡ may_wait (body_inside edition) self }
    {
        self.is_edit() && self.is_inside(edition)
    }
}
