//! What stands before hearing and after it: where the records of a station's own frame begin, and
//! what was heard, taken into the station.

ghost use Rattle.std.specs.Prelude.{◌≡◌, ◌++◌, ℕ, ◌+◌, ◌-◌, ◌≤◌, slice_index, slice_index_or, replicate, drop, length};
ghost use Rattle.queues.specs.Lane.{no_lane};
ghost use Rattle.lists.specs.Below.{set_below};
ghost use Rattle.station_spec.specs.Hearing.{no_taking, replaced};
ghost use Rattle.hearing_spec.specs.Buffer.{size_in, record_at};
ghost use Rattle.hearing_spec.specs.StandsFor.{holds_at, acts_on};
ghost use Rattle.hearing_spec.specs.Gathered.{pushed_all};
ghost use Rattle.hearing_spec.specs.Room.{FrameRoom, most_bytes, takings_room};
ghost use Rattle.listening.specs.OwnPlaces.{places_of};
ghost use Rattle.listening.specs.Listened.{heard_notes, takings_at, TakenRoom, PlacesRoom, entry_over, Readable};

use frame_spec::{HEAD_WIDTH, RECORD_WIDTH, Record};
use hearing::heeding::record_at;
use hearing_spec::Ear;
use queues::Lane;
use station_spec::{Station, Taking};

/// Puts where the records of a frame begin, each at the place of its station.
#[tactic(auto, unfolding(crate::specs::OwnPlaces::places_of))]
pub fn own_places(places: &mut [u16], bytes: &[u8], start: usize)
    requires long { length places.old ≡ 16 }
    requires high { size_in bytes.now ≤ 16 }
    requires short { length bytes.now ≤ most_bytes }
    requires frame { FrameRoom bytes.now start }
    ensures { places.new
        ≡ places_of bytes.now start places.old (slice_index bytes.now (start + 2)) }
{
    for r in 0..bytes[start + 2] as usize {
        let at = start + HEAD_WIDTH + RECORD_WIDTH * r;
        places[bytes[at] as usize] = at as u16;
    }
}

/// How many bodies each lane has.
#[tactic(auto, using(lists::proofs::Laws::set_below_more), unfolding(lists::specs::Below::set_below))]
pub fn lane_lens(lanes: &[Lane; 16]) -> [u8; 16]
    ensures { result ≡ set_below 16 (λ k. (slice_index_or lanes.now k no_lane).len) (replicate 16 0) }
{
    let mut lens = [0u8; 16];
    for k in 0..16 {
        lens[k] = lanes[k].len;
    }
    lens
}

/// Puts the takings of the first places first, in their order; the other entries stay.
pub fn put_takings(bytes: &[u8], taken: &[u16], len: usize, takings: &mut [Taking; 30])
    requires { TakenRoom bytes.now taken.now len }
    ensures { takings.new ≡ takings_at bytes.now taken.now len ++ drop len takings.old }
{
    for i in 0..len {
        let seen = record_at(bytes, taken[i] as usize);
        takings[i] = Taking {
            source: seen.station,
            body: seen.body,
        };
    }
}

// The record at a place, put in the place of an old one, whose labels from n up stay.
fn record_over(bytes: &[u8], at: usize, n: usize, old: Record) -> Record
    requires few { n ≤ 16 }
    requires room { at + 16 ≤ length bytes.now }
    ensures { result ≡ replaced n old (record_at bytes.now at) }
{
    let seen = record_at(bytes, at);
    Record {
        labels: labels::words::over(n, seen.labels, old.labels),
        ..seen
    }
}

// Puts the records at their places into a table, each in the place of the one of its station.
#[tactic(auto, using(lists::proofs::Laws::set_below_more, crate::proofs::EntrySteps::records_none, crate::proofs::EntrySteps::records_some), unfolding(lists::specs::Below::set_below))]
fn put_records(
    bytes: &[u8],
    places: &[u16],
    n: usize,
    held: &mut [bool; 16],
    table: &mut [Record; 16],
)
    requires room { PlacesRoom bytes.now places.now n }
    ensures held { held.new ≡ set_below n (holds_at places.now) held.old }
    ensures table { table.new ≡ set_below n (entry_over n bytes.now places.now table.old) table.old }
{
    for k in 0..n {
        let at = places[k] as usize;
        held[k] = at != 0;
        if at != 0 {
            table[k] = record_over(bytes, at, n, table[k]);
        }
    }
}

// Puts the bodies of the takings last into the lanes of their sources.
fn put_bodies(bytes: &[u8], taken: &[u16], len: usize, lanes: &mut [Lane; 16])
    requires taken { TakenRoom bytes.now taken.now len }
    requires high { size_in bytes.now ≤ 16 }
    ensures { lanes.new ≡ pushed_all lanes.old (takings_at bytes.now taken.now len) }
{
    for i in 0..len {
        let seen = record_at(bytes, taken[i] as usize);
        lanes[seen.station as usize].push(seen.body);
    }
}

/// Takes all that a station heard into it: its numbers, the records at their places, the bodies of
/// the takings in their lanes.
#[tactic(auto, unfolding(hearing_spec::specs::Gathered::acted_on, station_spec::specs::State::cell_of))]
pub fn act(heard: &Ear, bytes: &[u8], places: &[u16], taken: &[u16], s: &mut Station)
    requires size { s.old.n ≡ size_in bytes.now }
    requires readable { Readable bytes.now places.now taken.now heard.now.len }
    ensures { s.new ≡ acts_on s.old bytes.now (heard_notes places.now taken.now heard.now) }
{
    put_records(bytes, places, s.n, &mut s.held, &mut s.table);
    put_bodies(bytes, taken, heard.len, &mut s.lanes);
    s.count = heard.count;
    s.acked = heard.acked;
    s.labels = heard.labels;
}
