// Bodies, and the refusal numbers.

#![tactic(auto)]

pub mod limits;

ghost use Rattle.std.specs.Prelude.{◌≡◌};

pub mod refusals;

/// What a record carries: document 01's five kinds, each with its own numbers, and the channel of
/// an edit (document 02, A9).
#[derive(Clone, Copy, Debug, PartialEq, Eq)]
pub enum Body {
    Empty,
    Neutral,
    Insert {
        channel: u8,
        event: u32,
        start: i32,
    },
    Drop {
        channel: u8,
        event: u32,
    },
    Shift {
        channel: u8,
        event: u32,
        frames: i32,
    },
}

impl Body {
    ghost use Rattle.bodies.specs.Body.{kind_of, event_of, argument_of, channel_of, body_of, is_empty, is_edit};

    /// The body of a kind with its event, argument and channel. A kind leaves out the numbers that
    /// it does not have, and a number that is no kind gives Empty.
    #[tactic(auto, unfolding(crate::specs::Body::body_of))]
    pub fn new(kind: u32, event: u32, argument: i32, channel: u8) -> Self
        ensures { result ≡ body_of kind event argument channel }
    {
        match kind {
            1 => Body::Neutral,
            2 => Body::Insert {
                channel,
                event,
                start: argument,
            },
            3 => Body::Drop { channel, event },
            4 => Body::Shift {
                channel,
                event,
                frames: argument,
            },
            _ => Body::Empty,
        }
    }

    pub fn kind(self) -> u32
        ensures { result ≡ kind_of self }
    {
        match self {
            Body::Empty => 0,
            Body::Neutral => 1,
            Body::Insert { .. } => 2,
            Body::Drop { .. } => 3,
            Body::Shift { .. } => 4,
        }
    }

    pub fn event(self) -> u32
        ensures { result ≡ event_of self }
    {
        match self {
            Body::Empty | Body::Neutral => 0,
            Body::Insert { event, .. } | Body::Drop { event, .. } | Body::Shift { event, .. } =>
                event,
        }
    }

    pub fn argument(self) -> i32
        ensures { result ≡ argument_of self }
    {
        match self {
            Body::Insert { start, .. } => start,
            Body::Shift { frames, .. } => frames,
            Body::Empty | Body::Neutral | Body::Drop { .. } => 0,
        }
    }

    pub fn channel(self) -> u8
        ensures { result ≡ channel_of self }
    {
        match self {
            Body::Empty | Body::Neutral => 0,
            Body::Insert { channel, .. }
            | Body::Drop { channel, .. }
            | Body::Shift { channel, .. } => channel,
        }
    }

    pub fn is_empty(self) -> bool
        ensures { result ≡ is_empty self }
    {
        self.kind() == 0
    }

    pub fn is_edit(self) -> bool
        ensures { result ≡ is_edit self }
    {
        2 <= self.kind()
    }
}
