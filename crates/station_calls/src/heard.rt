// What was heard, put into the bytes of a station: only those are written that hearing can change.

ghost use Rattle.std.specs.Prelude.{◌≡◌, ℕ, ◌+◌, ◌≤◌, ◌<◌, length, slice_index};
ghost use Rattle.hearing_spec.specs.Buffer.{size_in, record_at};
ghost use Rattle.hearing_spec.specs.StandsFor.{acts_on};
ghost use Rattle.listening.specs.Listened.{TakenRoom, Readable, heard_notes};
ghost use Rattle.station_bytes_spec.specs.Station.{station_width};
ghost use Rattle.station_calls.specs.Changes.{Changes, ChangesAt, ChangesOf, without_entry, with_entry_at};
ghost use Rattle.station_calls.specs.Changes.{entries_below, with_numbers, with_pushed, with_taken};

use bodies::Body;
use frame_spec::Record;
use hearing_spec::Ear;
use station_encoder::{put_body, put_record};

const FIRST_CELL: usize = 16;

const CELL_WIDTH: usize = 44;

const RECORD_WIDTH: usize = 16;

// No record of station k is held.
fn clear_entry(state: &mut [u8], k: usize)
    requires room { station_width ≤ length state.old }
    requires among { k < 16 }
    ensures { Changes state.old state.new (λ s. without_entry s k) }
{
    state[FIRST_CELL + CELL_WIDTH * k + 1] = 0;
}

// The record at a place is held of station k; the labels from n up stay.
fn put_entry(state: &mut [u8], k: usize, bytes: &[u8], at: usize, n: usize)
    requires room { station_width ≤ length state.old }
    requires among { k < 16 }
    requires whole { at + 16 ≤ length bytes.now }
    requires few { n ≤ 16 }
    ensures { ChangesAt k state.old state.new
        (λ s. with_entry_at s n k bytes.now at) }
{
    let cell = FIRST_CELL + CELL_WIDTH * k;
    let old = records::reader::word_at(state, cell + 40);
    let seen = records::reader::read_record(&bytes[at..at + RECORD_WIDTH]);
    let labels = labels::words::over(n, seen.labels, old);
    state[cell + 1] = 1;
    put_record(state, cell + 28, Record { labels, ..seen });
}

// The records of the stations below n at their places, 0 where none is held.
fn put_entries(state: &mut [u8], bytes: &[u8], places: &[u16], n: usize)
    requires room { station_width ≤ length state.old }
    requires few { n ≤ 16 }
    requires long { length places.now ≡ 16 }
    requires whole { (k : ℕ) → k < n → slice_index places.now k + 16 ≤ length bytes.now }
    ensures { ChangesOf n state.old state.new
        (λ s. entries_below s bytes.now places.now n) }
{
    for k in 0..n {
        let at = places[k] as usize;
        if at == 0 {
            clear_entry(state, k);
            continue;
        }
        put_entry(state, k, bytes, at, n);
    }
}

// The count, and for each station whether it is acknowledged, and its label.
fn put_numbers(state: &mut [u8], heard: Ear)
    requires { station_width ≤ length state.old }
    ensures { Changes state.old state.new (λ s. with_numbers s heard) }
{
    state[2] = heard.count;
    for k in 0..16 {
        state[FIRST_CELL + CELL_WIDTH * k] = u8::from(heard.acked[k]);
        state[FIRST_CELL + CELL_WIDTH * k + 2] = heard.labels[k];
    }
}

// A body, put last into the lane of station k.
fn push(state: &mut [u8], k: usize, body: Body)
    requires room { station_width ≤ length state.old }
    requires among { k < 16 }
    ensures { Changes state.old state.new (λ s. with_pushed s k body) }
{
    let cell = FIRST_CELL + CELL_WIDTH * k;
    let len = state[cell + 3];
    if len == 0 {
        state[cell + 3] = 1;
        put_body(state, cell + 4, body);
        put_body(state, cell + 16, Body::Empty);
    } else if len == 1 {
        state[cell + 3] = 2;
        put_body(state, cell + 16, body);
    } else {
        state[cell + 3] = 2;
    }
}

// The bodies of the records at the first places, each put last into the lane of its station.
fn push_taken(state: &mut [u8], bytes: &[u8], taken: &[u16], len: usize)
    requires room { station_width ≤ length state.old }
    requires few { size_in bytes.now ≤ 16 }
    requires takings { TakenRoom bytes.now taken.now len }
    ensures { Changes state.old state.new
        (λ s. with_taken s bytes.now taken.now len) }
{
    for i in 0..len {
        let at = taken[i] as usize;
        let seen = records::reader::read_record(&bytes[at..at + RECORD_WIDTH]);
        push(state, seen.station as usize, seen.body);
    }
}

/// All that was heard.
pub fn put_heard(
    state: &mut [u8],
    heard: Ear,
    bytes: &[u8],
    places: &[u16],
    taken: &[u16],
    n: usize,
)
    requires room { station_width ≤ length state.old }
    requires size { n ≡ size_in bytes.now }
    requires readable { Readable bytes.now places.now taken.now heard.len }
    ensures { ChangesOf n state.old state.new
        (λ s. acts_on s bytes.now (heard_notes places.now taken.now heard)) }
{
    put_entries(state, bytes, places, n);
    put_numbers(state, heard);
    push_taken(state, bytes, taken, heard.len);
}
