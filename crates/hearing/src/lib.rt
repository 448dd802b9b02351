//! Hearing, on the bytes of frames and on numbers alone: no station is touched. A record is told by
//! its place, where its sixteen bytes begin; no record begins at 0.
//!
//!   places[k]   the place of the record that the hearer holds of station k; 0 where it holds none
//!   last[k]     the place of the record of k heard last
//!   lens[k]     how many bodies lane k has
//!   taken       the places of the records whose bodies are taken, in the order heard

#![tactic(auto)]

pub mod heeding;

ghost use Rattle.std.specs.Prelude.{◌≡◌, ℕ, ◌<◌, ◌≤◌};
ghost use Rattle.bodies.specs.Refusals.{done, conflict, lane_full};
ghost use Rattle.hearing_spec.specs.Buffer.{size_in, frame_start, hears_sender};
ghost use Rattle.hearing_spec.specs.StandsFor.{notes};
ghost use Rattle.hearing_spec.specs.Room.{Room, LastRoom, RecordRoom, FrameRoom};
ghost use Rattle.hearing_spec.specs.Promises.{HearsNext, HearsFrame, HearsMask};

use bodies::refusals::Refusal;
use frame_spec::{HEAD_WIDTH, RECORD_WIDTH};
use hearing_spec::{Ear, FRAME_ROOM, NOT_REFUSED};
use labels::Age;

// The record at a place, of a frame of which none conflicted. One with the bytes of the one of its
// station heard last is passed over, one that conflicts is put down as the refusal, and any other
// that is not newer does nothing.
fn hear_record(
    ear: &mut Ear,
    bytes: &[u8],
    at: usize,
    own: usize,
    last: &mut [u16],
    places: &mut [u16],
    lens: &mut [u8],
    taken: &mut [u16],
)
    requires room { Room own bytes.now (notes places.old lens.old taken.old ear.old) }
    requires last { LastRoom bytes.now last.old }
    requires here { RecordRoom bytes.now at }
    requires some { 0 < at }
    ensures hears { HearsNext own bytes.now at last.old
        (notes places.old lens.old taken.old ear.old) last.new
        (notes places.new lens.new taken.new ear.new) }
    ensures room { Room own bytes.now (notes places.new lens.new taken.new ear.new) }
    ensures last { LastRoom bytes.now last.new }
    ensures calm { ear.old.refusal ≤ lane_full → (ear.new.refusal ≡ conflict → ⊥) → ear.new.refusal ≤ lane_full }
{
    let k = bytes[at] as usize;
    let before = last[k] as usize;
    if heeding::same(
        &bytes[before..before + RECORD_WIDTH],
        &bytes[at..at + RECORD_WIDTH],
    ) {
        return;
    }
    last[k] = at as u16;
    match heeding::age_at(bytes, places[k] as usize, at, k, own) {
        Age::Newer => {
            places[k] = at as u16;
            let seen = heeding::record_at(bytes, at);
            heeding::heed(ear, seen, at, own, lens, taken);
        }
        Age::Conflicting => ear.refusal = Refusal::Conflict.number(),
        Age::Same | Age::Older => {}
    }
}

/// The frame that begins at `start`, where none was refused before. A conflict ends it.
pub fn hear_frame(
    ear: &mut Ear,
    bytes: &[u8],
    start: usize,
    own: usize,
    last: &mut [u16],
    places: &mut [u16],
    lens: &mut [u8],
    taken: &mut [u16],
)
    requires room { Room own bytes.now (notes places.old lens.old taken.old ear.old) }
    requires last { LastRoom bytes.now last.old }
    requires frame { FrameRoom bytes.now start }
    ensures hears { HearsFrame own bytes.now start last.old
        (notes places.old lens.old taken.old ear.old) last.new
        (notes places.new lens.new taken.new ear.new) }
    ensures room { Room own bytes.now (notes places.new lens.new taken.new ear.new) }
    ensures last { LastRoom bytes.now last.new }
{
    for r in 0..bytes[start + 2] as usize {
        let at = start + HEAD_WIDTH + RECORD_WIDTH * r;
        hear_record(ear, bytes, at, own, last, places, lens, taken);
        if ear.refusal == Refusal::Conflict.number() {
            return;
        }
    }
}

// Does station `own` hear sender j: another station, whose bit its mask has?
fn hears(mask: u16, own: usize, j: usize) -> bool
    ensures { result ≡ hears_sender own mask j }
{
    own != j && links::set_at(mask, j)
}

/// The frames of a mask, of those of n stations that stand in the bytes, by ascending sender, until
/// one is refused.
pub fn hear_mask(
    ear: &mut Ear,
    bytes: &[u8],
    n: usize,
    own: usize,
    mask: u16,
    last: &mut [u16],
    places: &mut [u16],
    lens: &mut [u8],
    taken: &mut [u16],
)
    requires room { Room own bytes.now (notes places.old lens.old taken.old ear.old) }
    requires last { LastRoom bytes.now last.old }
    requires frames { ((j : ℕ) → j < n → FrameRoom bytes.now (frame_start j)) }
    requires size { n ≡ size_in bytes.now }
    requires fine { ear.old.refusal ≡ done }
    ensures hears { HearsMask own bytes.now mask last.old
        (notes places.old lens.old taken.old ear.old) last.new
        (notes places.new lens.new taken.new ear.new) }
    ensures room { Room own bytes.now (notes places.new lens.new taken.new ear.new) }
{
    for j in 0..n {
        if !hears(mask, own, j) {
            continue;
        }
        hear_frame(ear, bytes, FRAME_ROOM * j, own, last, places, lens, taken);
        if ear.refusal != NOT_REFUSED {
            return;
        }
    }
}
