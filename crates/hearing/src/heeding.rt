//! One record heard, on bytes and numbers alone: what is decided of it beside the one that is held
//! of its station, and what a newer one does. A record is told by its place, where its sixteen
//! bytes begin; no record begins at 0.
//!
//!   lens[k]     how many bodies lane k has
//!   taken       the places of the records whose bodies are taken, in the order heard

ghost use Rattle.std.specs.Prelude.{◌≡◌, ℕ, ◌+◌, ◌*◌, ◌≤◌, ◌<◌, slice_index, length};
ghost use Rattle.frame_spec.specs.Words.{word_at};
ghost use Rattle.hearing_spec.specs.Buffer.{record_at};
ghost use Rattle.hearing_spec.specs.Heeding.{same_bytes, age_at, ear_after, lens_after, taken_after};
ghost use Rattle.hearing_spec.specs.Room.{takings_room, most_bytes};

use bodies::refusals::Refusal;
use frame_spec::{RECORD_WIDTH, Record};
use hearing_spec::Ear;
use labels::Age;
use labels::words::label_in;

// How many bodies a lane has room for.
const LANE_ROOM: u8 = 2;

// The number of eight bytes from a place on.
#[tactic(auto, unfolding(frame_spec::specs::Words::word_at))]
fn long_at(part: &[u8], at: usize) -> u64
    requires { at + 8 ≤ length part.now }
    ensures { result ≡ word_at part.now at + 4_294_967_296 * word_at part.now (at + 4) }
{
    u64::from_le_bytes([
        part[at],
        part[at + 1],
        part[at + 2],
        part[at + 3],
        part[at + 4],
        part[at + 5],
        part[at + 6],
        part[at + 7],
    ])
}

/// Have two records the same sixteen bytes? They are compared as two numbers of eight bytes, which
/// is faster than byte by byte.
pub fn same(a: &[u8], b: &[u8]) -> bool
    requires first { length a.now ≡ 16 }
    requires second { length b.now ≡ 16 }
    ensures { result ≡ same_bytes a.now b.now }
{
    long_at(a, 0) == long_at(b, 0) && long_at(a, 8) == long_at(b, 8)
}

/// The record at a place.
#[tactic(auto, using(crate::proofs::RecordParts::read_is))]
pub fn record_at(bytes: &[u8], at: usize) -> Record
    requires { at + 16 ≤ length bytes.now }
    ensures { result ≡ record_at bytes.now at }
{
    records::reader::read_record(&bytes[at..at + RECORD_WIDTH])
}

/// A newer record, at a place: its station may be acknowledged, its label advances, the count
/// rises, its body is taken. A lane that has two refuses the frame, and the rest of it is heard all
/// the same.
#[tactic(auto, unfolding(hearing_spec::specs::Heeding::ear_after, hearing_spec::specs::Heeding::lens_after, hearing_spec::specs::Heeding::taken_after, frame_spec::specs::Record::record_label))]
pub fn heed(ear: &mut Ear, seen: Record, at: usize, own: usize, lens: &mut [u8], taken: &mut [u16])
    requires station { seen.station < 16 }
    requires own { own < 16 }
    requires place { at ≤ most_bytes }
    requires lens { length lens.old ≡ 16 }
    requires taken { length taken.old ≡ takings_room }
    requires room { (slice_index lens.old seen.station < 2 → ear.old.len < takings_room) }
    ensures ear { ear.new ≡ ear_after own lens.old ear.old seen }
    ensures lens { lens.new ≡ lens_after lens.old ear.old seen }
    ensures taken { taken.new ≡ taken_after lens.old taken.old ear.old seen at }
{
    let k = seen.station as usize;
    ear.acked[k] |= label_in(seen.labels, own) == ear.labels[own];
    let next = labels::successor(ear.labels[k]);
    if label_in(seen.labels, k) != next {
        return;
    }
    ear.labels[k] = next;
    ear.count = ear.count.saturating_add(1);
    if seen.body.is_empty() {
        return;
    }
    if lens[k] >= LANE_ROOM {
        ear.refusal = Refusal::LaneFull.number();
        return;
    }
    lens[k] += 1;
    taken[ear.len] = at as u16;
    ear.len += 1;
}

/// What is decided of the record of station k at a place, beside the one that the hearer holds at
/// another. The hearer's own counts as the same, for it does nothing.
#[tactic(auto, unfolding(hearing_spec::specs::Heeding::age_at, frame_spec::specs::Record::record_label))]
pub fn age_at(bytes: &[u8], held: usize, at: usize, k: usize, own: usize) -> Age
    requires held { held + 16 ≤ length bytes.now }
    requires seen { at + 16 ≤ length bytes.now }
    requires short { length bytes.now ≤ most_bytes }
    requires station { k < 16 }
    ensures { result ≡ age_at own bytes.now held at k }
{
    if k == own {
        return Age::Same;
    }
    let old = record_at(bytes, held);
    let seen = record_at(bytes, at);
    labels::age_beside(
        held != 0,
        label_in(old.labels, k),
        old.count,
        label_in(seen.labels, k),
        seen.count,
        same(
            &bytes[held..held + RECORD_WIDTH],
            &bytes[at..at + RECORD_WIDTH],
        ),
    )
}
