// Stations and groups read from bytes. Bytes are judged first, and then read: reading gives a
// station for any bytes that are long enough.

#![tactic(auto)]

ghost use Rattle.std.specs.Prelude.{◌≡◌, true, ℕ, ◌+◌, ◌≤◌, ◌<◌, length, ◌*◌};
ghost use Rattle.lists.specs.Below.{all_below};
ghost use Rattle.station_bytes_spec.specs.Bytes.{byte_at};
ghost use Rattle.station_bytes_spec.specs.Body.{body_of_words, words_right, decode_body, is_body};
ghost use Rattle.station_bytes_spec.specs.Body.{record_width, decode_record};
ghost use Rattle.station_bytes_spec.specs.Body.{body_width, is_record};
ghost use Rattle.station_bytes_spec.specs.Waiting.{edits_width, decode_edits, are_edits, waiting_width, decode_waiting};
ghost use Rattle.station_bytes_spec.specs.Waiting.{is_waiting};
ghost use Rattle.station_bytes_spec.specs.Station.{cell_width, decode_lane, is_cell, cells_width, station_width};
ghost use Rattle.station_bytes_spec.specs.Station.{decode_station, is_station_at, is_station};
ghost use Rattle.station_bytes_spec.specs.Group.{group_width, decode_group, is_group};

use bodies::Body;
use frame_spec::Record;
use queues::{Lane, Queue, Slot, Waiting};
use records::reader::word_at;
use station_spec::Station;

const BODY_WIDTH: usize = 12;

const CELL_WIDTH: usize = 44;

const EDITS_WIDTH: usize = 384;

const WAITING_PLACE: usize = 720;

const SECOND_PLACE: usize = 388;

const STATION_WIDTH: usize = 1492;

const GROUP_WIDTH: usize = 23872;

// The body of four numbers, the argument as a word.
#[tactic(auto, unfolding(frame_spec::specs::Words::signed))]
fn body_of_words(kind: u32, channel: u8, event: u32, word: u32) -> Body
    ensures { result ≡ body_of_words kind channel event word }
{
    Body::new(kind, event, word.cast_signed(), channel)
}

// Are they just the numbers of that body?
#[tactic(auto, unfolding(station_bytes_spec::specs::Body::words_right, frame_spec::specs::Words::unsigned))]
fn words_right(kind: u32, channel: u8, event: u32, word: u32) -> bool
    ensures { result ≡ words_right kind channel event word }
{
    let body = body_of_words(kind, channel, event, word);
    kind == body.kind()
        && channel == body.channel()
        && event == body.event()
        && word == body.argument().cast_unsigned()
}

// The body at a place.
#[tactic(auto, unfolding(station_bytes_spec::specs::Body::decode_body))]
fn read_body(bytes: &[u8], at: usize) -> Body
    requires { at + body_width ≤ length bytes.now }
    ensures { result ≡ decode_body bytes.now at }
{
    let event = word_at(bytes, at + 4);
    let word = word_at(bytes, at + 8);
    body_of_words(bytes[at] as u32, bytes[at + 1], event, word)
}

// Are the bytes at a place those of a body?
#[tactic(auto, unfolding(station_bytes_spec::specs::Body::is_body))]
fn body_right(bytes: &[u8], at: usize) -> bool
    requires { at + body_width ≤ length bytes.now }
    ensures { result ≡ is_body bytes.now at }
{
    let event = word_at(bytes, at + 4);
    let word = word_at(bytes, at + 8);
    bytes[at + 2] == 0
        && bytes[at + 3] == 0
        && words_right(bytes[at] as u32, bytes[at + 1], event, word)
}

// The record at a place.
#[tactic(auto, unfolding(station_bytes_spec::specs::Body::decode_record))]
fn read_record(bytes: &[u8], at: usize) -> Record
    requires { at + record_width ≤ length bytes.now }
    ensures { result ≡ decode_record bytes.now at }
{
    let event = word_at(bytes, at + 4);
    let word = word_at(bytes, at + 8);
    Record {
        station: bytes[at],
        count: bytes[at + 1],
        body: body_of_words(bytes[at + 2] as u32, bytes[at + 3], event, word),
        labels: word_at(bytes, at + 12),
    }
}

// Are the bytes at a place those of a record?
#[tactic(auto, unfolding(station_bytes_spec::specs::Body::is_record))]
fn record_right(bytes: &[u8], at: usize) -> bool
    requires { at + record_width ≤ length bytes.now }
    ensures { result ≡ is_record bytes.now at }
{
    let event = word_at(bytes, at + 4);
    let word = word_at(bytes, at + 8);
    words_right(bytes[at + 2] as u32, bytes[at + 3], event, word)
}

// The lane of the cell at a place.
#[tactic(auto, unfolding(station_bytes_spec::specs::Station::decode_lane))]
fn read_lane(bytes: &[u8], at: usize) -> Lane
    requires { at + cell_width ≤ length bytes.now }
    ensures { result ≡ decode_lane bytes.now at }
{
    Lane {
        len: bytes[at + 3],
        first: read_body(bytes, at + 4),
        second: read_body(bytes, at + 16),
    }
}

// Are the bytes at a place those of a cell?
#[tactic(auto, unfolding(station_bytes_spec::specs::Station::is_cell))]
fn cell_right(bytes: &[u8], at: usize) -> bool
    requires { at + cell_width ≤ length bytes.now }
    ensures { result ≡ is_cell bytes.now at }
{
    bytes[at] <= 1
        && bytes[at + 1] <= 1
        && body_right(bytes, at + 4)
        && body_right(bytes, at + 16)
        && record_right(bytes, at + 28)
}

// Are the bytes from a place on those of sixteen cells?
#[tactic(auto, using(lists::proofs::Laws::all_below_more, lists::proofs::Laws::all_below_fails), unfolding(lists::specs::Below::all_below))]
fn cells_right(bytes: &[u8], at: usize) -> bool
    requires { at + cells_width ≤ length bytes.now }
    ensures { result ≡ all_below 16 (λ k. is_cell bytes.now (at + cell_width * k)) }
{
    for k in 0..16 {
        if !cell_right(bytes, at + CELL_WIDTH * k) {
            return false;
        }
    }
    true
}

// Are so many bytes from a place on all 0? All are looked at, so that many can be at once.
fn all_zero(bytes: &[u8], at: usize, count: usize) -> bool
    requires { at + count ≤ length bytes.now }
    ensures { result ≡ true → (i : ℕ) → i < count → byte_at bytes.now (at + i) ≡ 0 }
{
    let mut joined = 0;
    for &byte in &bytes[at..at + count] {
        joined |= byte;
    }
    joined == 0
}

// The edits of a desk at a place. Most often none waits, and all bytes are 0.
fn read_edits(bytes: &[u8], at: usize) -> [Slot; 32]
    requires { at + edits_width ≤ length bytes.now }
    ensures { result ≡ decode_edits bytes.now at }
{
    let mut slots = [Slot { body: Body::Empty }; 32];
    if all_zero(bytes, at, EDITS_WIDTH) {
        return slots;
    }
    for i in 0..32 {
        slots[i].body = read_body(bytes, at + BODY_WIDTH * i);
    }
    slots
}

// Are the bytes from a place on those of the bodies of a desk?
#[tactic(auto, using(lists::proofs::Laws::all_below_more, lists::proofs::Laws::all_below_fails), unfolding(lists::specs::Below::all_below))]
fn bodies_right(bytes: &[u8], at: usize) -> bool
    requires { at + edits_width ≤ length bytes.now }
    ensures { result ≡ all_below 32 (λ i. is_body bytes.now (at + body_width * i)) }
{
    for i in 0..32 {
        if !body_right(bytes, at + BODY_WIDTH * i) {
            return false;
        }
    }
    true
}

// Are the bytes at a place those of the edits of a desk? Zeros are those of none.
#[tactic(auto, using(crate::proofs::Zeros::zeros_are_edits), unfolding(station_bytes_spec::specs::Waiting::are_edits))]
fn edits_right(bytes: &[u8], at: usize) -> bool
    requires { at + edits_width ≤ length bytes.now }
    ensures { result ≡ are_edits bytes.now at }
{
    all_zero(bytes, at, EDITS_WIDTH) || bodies_right(bytes, at)
}

// The waiting edits at a place.
#[tactic(auto, unfolding(station_bytes_spec::specs::Waiting::decode_waiting))]
fn read_waiting(bytes: &[u8], at: usize) -> Waiting
    requires { at + waiting_width ≤ length bytes.now }
    ensures { result ≡ decode_waiting bytes.now at }
{
    Waiting {
        limit: bytes[at + 1] as usize,
        queue0: Queue {
            len: bytes[at] as usize,
            slots: read_edits(bytes, at + 4),
        },
        queue1: Queue {
            len: bytes[at + 2] as usize,
            slots: read_edits(bytes, at + SECOND_PLACE),
        },
        one_first: bytes[at + 3] == 1,
    }
}

// Are the bytes at a place those of waiting edits?
#[tactic(auto, unfolding(station_bytes_spec::specs::Waiting::is_waiting))]
fn waiting_right(bytes: &[u8], at: usize) -> bool
    requires { at + waiting_width ≤ length bytes.now }
    ensures { result ≡ is_waiting bytes.now at }
{
    bytes[at + 3] <= 1 && edits_right(bytes, at + 4) && edits_right(bytes, at + SECOND_PLACE)
}

// The station at a place.
fn station_at(bytes: &[u8], at: usize) -> Station
    requires { at + station_width ≤ length bytes.now }
    ensures { result ≡ decode_station bytes.now at }
{
    let none = Record {
        station: 0,
        count: 0,
        body: Body::Empty,
        labels: 0,
    };
    let empty = Lane {
        len: 0,
        first: Body::Empty,
        second: Body::Empty,
    };
    let mut acked = [false; 16];
    let mut held = [false; 16];
    let mut labels = [0; 16];
    let mut table = [none; 16];
    let mut lanes = [empty; 16];
    for k in 0..16 {
        let cell = at + 16 + CELL_WIDTH * k;
        acked[k] = bytes[cell] == 1;
        held[k] = bytes[cell + 1] == 1;
        labels[k] = bytes[cell + 2];
        table[k] = read_record(bytes, cell + 28);
        lanes[k] = read_lane(bytes, cell);
    }
    let body = read_body(bytes, at + 4);
    let waiting = read_waiting(bytes, at + WAITING_PLACE);
    Station {
        n: bytes[at] as usize,
        own: bytes[at + 1] as usize,
        edition: bytes[at + 3] as usize,
        waiting,
        acked,
        body,
        count: bytes[at + 2],
        labels,
        held,
        table,
        lanes,
    }
}

// Are the bytes at a place those of a station?
#[tactic(auto, unfolding(station_bytes_spec::specs::Station::is_station_at))]
fn station_right(bytes: &[u8], at: usize) -> bool
    requires { at + station_width ≤ length bytes.now }
    ensures { result ≡ is_station_at bytes.now at }
{
    body_right(bytes, at + 4)
        && cells_right(bytes, at + 16)
        && waiting_right(bytes, at + WAITING_PLACE)
}

/// Are these bytes a station?
#[tactic(auto, unfolding(station_bytes_spec::specs::Station::is_station))]
pub fn is_station(bytes: &[u8]) -> bool
    ensures { result ≡ is_station bytes.now }
{
    bytes.len() == STATION_WIDTH && station_right(bytes, 0)
}

/// The station that bytes are; what stands behind its 1,492 bytes is not looked at.
pub fn read_station(bytes: &[u8]) -> Station
    requires { station_width ≤ length bytes.now }
    ensures { result ≡ decode_station bytes.now 0 }
{
    station_at(bytes, 0)
}

// Are the bytes from the front on those of sixteen stations?
#[tactic(auto, using(lists::proofs::Laws::all_below_more, lists::proofs::Laws::all_below_fails), unfolding(lists::specs::Below::all_below))]
fn stations_right(bytes: &[u8]) -> bool
    requires { group_width ≤ length bytes.now }
    ensures { result ≡ all_below 16 (λ k. is_station_at bytes.now (station_width * k)) }
{
    for k in 0..16 {
        if !station_right(bytes, STATION_WIDTH * k) {
            return false;
        }
    }
    true
}

/// Are these bytes a group?
#[tactic(auto, unfolding(station_bytes_spec::specs::Group::is_group))]
pub fn is_group(bytes: &[u8]) -> bool
    ensures { result ≡ is_group bytes.now }
{
    bytes.len() == GROUP_WIDTH && stations_right(bytes)
}

/// The group that bytes are; what stands behind its 23,872 bytes is not looked at.
pub fn read_group(bytes: &[u8]) -> [Station; 16]
    requires { group_width ≤ length bytes.now }
    ensures { result ≡ decode_group bytes.now }
{
    let mut group = [station_at(bytes, 0); 16];
    for k in 1..16 {
        group[k] = station_at(bytes, STATION_WIDTH * k);
    }
    group
}
