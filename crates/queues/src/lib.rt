// A lane of at most two bodies, and the edits that wait to start: a queue for each of two desks,
// oldest first.

#![tactic(auto)]

ghost use Rattle.std.specs.Prelude.{◌≡◌, ◌≤◌, ◌<◌, nat_lt};
ghost use Rattle.bodies.specs.Limits.{body_inside};
ghost use Rattle.queues.specs.Lane as lane_spec;
ghost use Rattle.queues.specs.Queue as queue_spec;
ghost use Rattle.queues.specs.Waiting as waiting_spec;

use bodies::Body;

/// A body in an array.
#[derive(Clone, Copy, Debug, PartialEq, Eq)]
pub struct Slot {
    pub body: Body,
}

/// The bodies taken from one station that are in no row yet, oldest first. What stands past the
/// length is no part of the lane.
#[derive(Clone, Copy, Debug, PartialEq, Eq)]
pub struct Lane {
    pub len: u8,
    pub first: Body,
    pub second: Body,
}

/// How many edits a queue has room for, whatever its limit.
pub const QUEUE_CAPACITY: usize = 32;

/// How many edits may wait where no limit is named.
pub const DEFAULT_LIMIT: usize = 8;

/// Edits in the order posted, oldest first. What stands past the length is no part of the queue.
#[derive(Clone, Copy, Debug, PartialEq, Eq)]
pub struct Queue {
    pub len: usize,
    pub slots: [Slot; QUEUE_CAPACITY],
}

/// The edits of a station that wait to start, those of desk 0 and those of desk 1; how many of a
/// desk may wait, the station's limit; and whether desk 1 goes first where both wait.
#[derive(Clone, Copy, Debug, PartialEq, Eq)]
pub struct Waiting {
    pub limit: usize,
    pub queue0: Queue,
    pub queue1: Queue,
    pub one_first: bool,
}

impl Slot {
    /// A place without a body.
    pub const EMPTY: Self = Slot { body: Body::Empty };
}

impl Lane {
    /// A lane without bodies.
    pub const EMPTY: Self = Lane {
        len: 0,
        first: Body::Empty,
        second: Body::Empty,
    };

    /// Puts a body last. A lane that has two stays as it is.
    #[tactic(auto, unfolding(crate::specs::Lane::bodies, crate::specs::Lane::lane_of))]
    pub fn push(&mut self, body: Body)
        ensures { self.new ≡ lane_spec.pushed self.old body }
    {
        match self.len {
            0 => *self = Lane {
                len: 1,
                first: body,
                second: Body::Empty,
            },
            1 => {
                self.second = body;
                self.len = 2;
            }
            _ => self.len = 2,
        }
    }

    /// Removes the oldest body.
    #[tactic(auto, unfolding(crate::specs::Lane::bodies, crate::specs::Lane::lane_of))]
    pub fn pop(&mut self)
        ensures { self.new ≡ lane_spec.popped self.old }
    {
        *self = if self.len <= 1 {
            Lane::EMPTY
        } else {
            Lane {
                len: 1,
                first: self.second,
                second: Body::Empty,
            }
        };
    }
}

impl Queue {
    /// A queue without edits.
    #[tactic(auto, unfolding(crate::specs::Queue::empty_queue))]
    fn empty() -> Self
        ensures { result ≡ queue_spec.empty_queue }
    {
        Queue {
            len: 0,
            slots: [Slot::EMPTY; QUEUE_CAPACITY],
        }
    }

    /// Puts a body last.
    #[tactic(auto, unfolding(crate::specs::Queue::queued))]
    fn push(&mut self, body: Body)
        requires { self.old.len < queue_spec.queue_capacity }
        ensures { self.new ≡ queue_spec.queued self.old body }
    {
        self.slots[self.len] = Slot { body };
        self.len += 1;
    }

    /// The oldest body.
    #[tactic(auto, unfolding(crate::specs::Queue::oldest))]
    fn oldest(&self) -> Body
        ensures { result ≡ queue_spec.oldest self.now }
    {
        self.slots[0].body
    }

    /// Removes the oldest body.
    #[tactic(auto, unfolding(crate::specs::Queue::unqueued))]
    fn pop(&mut self)
        requires waits { 0 < self.old.len }
        requires room { self.old.len ≤ queue_spec.queue_capacity }
        ensures { self.new ≡ queue_spec.unqueued self.old }
    {
        self.slots.copy_within(1..self.len, 0);
        self.len -= 1;
        self.slots[self.len] = Slot::EMPTY;
    }

    /// Are there no more bodies in the queue than a limit, which it has room for, and may each wait
    /// in this edition?
    #[tactic(auto, using(crate::proofs::AllBelow::all_below_take), unfolding(crate::specs::Queue::queue_inside))]
    fn is_inside(&self, edition: usize, limit: usize) -> bool
        requires { limit ≤ queue_spec.queue_capacity }
        ensures { result ≡ queue_spec.queue_inside (body_inside edition) limit self.now }
    {
        self.len <= limit
            && self.slots[..self.len]
                .iter()
                .all(|slot| slot.body.may_wait(edition))
    }
}

/// Is there such a desk: 0 or 1?
pub fn is_desk(desk: usize) -> bool
    ensures { result ≡ waiting_spec.is_desk desk }
{
    desk < 2
}

/// Can this be a limit: 1 to 32?
pub fn limit_inside(limit: usize) -> bool
    ensures { result ≡ waiting_spec.limit_inside limit }
{
    1 <= limit && limit <= QUEUE_CAPACITY
}

impl Waiting {
    /// No edit waits, so many of a desk may, and desk 0 goes first.
    #[tactic(auto, unfolding(crate::specs::Waiting::none_waiting))]
    pub fn none(limit: usize) -> Self
        ensures { result ≡ waiting_spec.none_waiting limit }
    {
        Waiting {
            limit,
            queue0: Queue::empty(),
            queue1: Queue::empty(),
            one_first: false,
        }
    }

    // The queue of a desk.
    #[tactic(auto, unfolding(crate::specs::Waiting::queue_of))]
    fn queue(&self, desk: usize) -> &Queue
        ensures { result.now ≡ waiting_spec.queue_of self.now desk }
    {
        if desk == 0 {
            &self.queue0
        } else {
            &self.queue1
        }
    }

    /// Does an edit of either desk wait?
    #[tactic(auto, unfolding(crate::specs::Waiting::waiting_count, crate::specs::Waiting::desk_count, crate::specs::Waiting::queue_of))]
    pub fn any_waits(&self) -> bool
        ensures { result ≡ nat_lt 0 (waiting_spec.waiting_count self.now) }
    {
        0 < self.queue0.len || 0 < self.queue1.len
    }

    /// Is there room for one more edit of a desk?
    #[tactic(auto, unfolding(crate::specs::Waiting::has_room, crate::specs::Waiting::desk_count))]
    pub fn has_room(&self, desk: usize) -> bool
        ensures { result ≡ waiting_spec.has_room self.now desk }
    {
        self.queue(desk).len < self.limit
    }

    /// One more edit of a desk, posted last.
    #[tactic(auto, unfolding(crate::specs::Waiting::with_posted, crate::specs::Waiting::desk_count, crate::specs::Waiting::queue_of))]
    pub fn post(&mut self, desk: usize, body: Body)
        requires { waiting_spec.desk_count self.old desk < queue_spec.queue_capacity }
        ensures { self.new ≡ waiting_spec.with_posted self.old desk body }
    {
        if desk == 0 {
            self.queue0.push(body);
        } else {
            self.queue1.push(body);
        }
    }

    // The desk whose edit starts next: the one that goes first, or the other where that one has
    // none.
    #[tactic(auto, unfolding(crate::specs::Waiting::next_desk, crate::specs::Waiting::first_desk, crate::specs::Waiting::desk_count, crate::specs::Waiting::queue_of))]
    fn next_desk(&self) -> usize
        ensures { result ≡ waiting_spec.next_desk self.now }
    {
        match self.one_first {
            true if 0 < self.queue1.len => 1,
            false if self.queue0.len == 0 => 1,
            _ => 0,
        }
    }

    /// The edit that starts next.
    #[tactic(auto, unfolding(crate::specs::Waiting::next_edit))]
    pub fn next_edit(&self) -> Body
        ensures { result ≡ waiting_spec.next_edit self.now }
    {
        self.queue(self.next_desk()).oldest()
    }

    /// The next edit has started: it waits no more, and the other desk goes first.
    #[tactic(auto, unfolding(crate::specs::Waiting::without_next, crate::specs::Waiting::waiting_count, crate::specs::Waiting::next_desk, crate::specs::Waiting::first_desk, crate::specs::Waiting::desk_count, crate::specs::Waiting::queue_of))]
    pub fn start_next(&mut self)
        requires waits { 0 < waiting_spec.waiting_count self.old }
        requires room { waiting_spec.desk_count self.old (waiting_spec.next_desk self.old) ≤ queue_spec.queue_capacity }
        ensures { self.new ≡ waiting_spec.without_next self.old }
    {
        if self.next_desk() == 0 {
            self.queue0.pop();
            self.one_first = true;
        } else {
            self.queue1.pop();
            self.one_first = false;
        }
    }

    /// Are the waiting edits inside their limits in an edition?
    #[tactic(auto, unfolding(crate::specs::Waiting::waiting_inside))]
    pub fn is_inside(&self, edition: usize) -> bool
        ensures { result ≡ waiting_spec.waiting_inside (body_inside edition) self.now }
    {
        limit_inside(self.limit)
            && self.queue0.is_inside(edition, self.limit)
            && self.queue1.is_inside(edition, self.limit)
    }
}
