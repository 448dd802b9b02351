//! A station hears: the frames of its mask in a round, or one frame beside its own.

#![tactic(auto)]

pub mod acting;

ghost use Rattle.std.specs.Prelude.{ℕ, ◌<◌, ◌≡◌, length, replicate};
ghost use Rattle.bodies.specs.Refusals.{done};
ghost use Rattle.hearing_spec.specs.Buffer.{frame_start, size_in};
ghost use Rattle.hearing_spec.specs.Room.{takings_room, FrameRoom};
ghost use Rattle.listening.specs.Listened.{Listens};
ghost use Rattle.listening.specs.Listening.{MayListen, mask_heard, frame_heard};
ghost use Rattle.listening.specs.Begins.{Beginning};

use hearing_spec::{Ear, FRAME_ROOM, NOT_REFUSED};
use station_spec::Station;

// What a station knows before it hears, beside the places of its own records.
#[derive(Clone, Copy)]
struct Known {
    // Those places once more, as what was heard last.
    last: [u16; 16],
    // How many bodies each lane has.
    lens: [u8; 16],
    ear: Ear,
}

// Puts the places of the records that a station sent, which stand in the frame that begins at
// `start`.
fn begin(bytes: &[u8], start: usize, places: &mut [u16], s: &Station) -> Known
    requires listens { MayListen s.now bytes.now start }
    requires silent { places.old ≡ replicate 16 0 }
    ensures begins { Beginning s.now bytes.now start places.new result.last result.lens result.ear }
    ensures none { result.ear.refusal ≡ done }
{
    let mut last = [0u16; 16];
    acting::own_places(places, bytes, start);
    acting::own_places(&mut last, bytes, start);
    let lens = acting::lane_lens(&s.lanes);
    // Not used: a read shows the proof how long the arrays behind `s` are.
    let _first = s.table[0];
    let acked = s.acked;
    let labels = s.labels;
    let ear = Ear {
        refusal: NOT_REFUSED,
        count: s.count,
        acked,
        labels,
        len: 0,
    };
    Known { last, lens, ear }
}

/// What a station hears of its mask. The frames of all stations stand in the bytes, its own among
/// them.
pub fn listen(bytes: &[u8], mask: u16, places: &mut [u16], taken: &mut [u16], s: &Station) -> Ear
    requires listens { MayListen s.now bytes.now (frame_start s.now.own) }
    requires frames { ((j : ℕ) → j < size_in bytes.now → FrameRoom bytes.now (frame_start j)) }
    requires silent { places.old ≡ replicate 16 0 }
    requires room { length taken.old ≡ takings_room }
    ensures { Listens s.now bytes.now (mask_heard s.now bytes.now mask)
        places.new taken.new result }
{
    let mut first = begin(bytes, FRAME_ROOM * s.own, places, s);
    hearing::hear_mask(
        &mut first.ear,
        bytes,
        s.n,
        s.own,
        mask,
        &mut first.last,
        places,
        &mut first.lens,
        taken,
    );
    first.ear
}

/// What a station hears of the frame that begins at `start`. Its own stands first in the bytes.
pub fn listen_to(
    bytes: &[u8],
    start: usize,
    places: &mut [u16],
    taken: &mut [u16],
    s: &Station,
) -> Ear
    requires listens { MayListen s.now bytes.now 0 }
    requires frame { FrameRoom bytes.now start }
    requires silent { places.old ≡ replicate 16 0 }
    requires room { length taken.old ≡ takings_room }
    ensures { Listens s.now bytes.now (frame_heard bytes.now start)
        places.new taken.new result }
{
    let mut first = begin(bytes, 0, places, s);
    hearing::hear_frame(
        &mut first.ear,
        bytes,
        start,
        s.own,
        &mut first.last,
        places,
        &mut first.lens,
        taken,
    );
    first.ear
}
