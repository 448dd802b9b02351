// Stations and groups written as bytes, from a place on; all other bytes are kept.

#![tactic(auto)]

pub mod reports;

ghost use Rattle.std.specs.Prelude.{◌≡◌, ◌+◌, ◌≤◌, ◌<◌, length};
ghost use Rattle.std.proofs.lemmas.List.Edits.{sets};
ghost use Rattle.station_spec.specs.State.{cell_of};
ghost use Rattle.station_bytes_spec.specs.Bytes.{as_byte, joined_below, word_width};
ghost use Rattle.station_bytes_spec.specs.Body.{encode_body, record_width, encode_record, body_width};
ghost use Rattle.station_bytes_spec.specs.Waiting.{edits_width, encode_edits, waiting_width, encode_waiting};
ghost use Rattle.station_bytes_spec.specs.Station.{cell_width, encode_cell, cells_width, station_width, encode_station};
ghost use Rattle.station_bytes_spec.specs.Group.{group_width, encode_group};

use bodies::Body;
use frame_spec::Record;
use queues::{Slot, Waiting};
use records::writer::put_word;
use station_spec::Station;

const BODY_WIDTH: usize = 12;

const CELL_WIDTH: usize = 44;

const WAITING_PLACE: usize = 720;

const SECOND_PLACE: usize = 388;

const STATION_WIDTH: usize = 1492;

/// A number as a byte, 255 for all greater ones.
#[tactic(auto, unfolding(station_bytes_spec::specs::Bytes::as_byte))]
pub fn as_byte(number: usize) -> u8
    ensures { result ≡ as_byte number }
{
    u8::try_from(number).unwrap_or(u8::MAX)
}

/// Four bytes, put at a place.
#[tactic(auto, using(crate::proofs::Writing::part_put))]
pub fn put_four(bytes: &mut [u8], at: usize, four: [u8; 4])
    requires { at + word_width ≤ length bytes.old }
    ensures { bytes.new ≡ sets bytes.old at four }
{
    bytes[at..at + 4].copy_from_slice(&four);
}

/// A body, put at a place.
pub fn put_body(bytes: &mut [u8], at: usize, body: Body)
    requires { at + body_width ≤ length bytes.old }
    ensures { bytes.new ≡ sets bytes.old at (encode_body body) }
{
    let mut head = [0; 4];
    head[0] = body.kind() as u8;
    head[1] = body.channel();
    put_four(bytes, at, head);
    put_word(bytes, at + 4, body.event());
    put_word(bytes, at + 8, body.argument().cast_unsigned());
}

/// A record, put at a place.
pub fn put_record(bytes: &mut [u8], at: usize, r: Record)
    requires { at + record_width ≤ length bytes.old }
    ensures { bytes.new ≡ sets bytes.old at (encode_record r) }
{
    let body = r.body;
    put_four(
        bytes,
        at,
        [r.station, r.count, body.kind() as u8, body.channel()],
    );
    put_word(bytes, at + 4, body.event());
    put_word(bytes, at + 8, body.argument().cast_unsigned());
    put_word(bytes, at + 12, r.labels);
}

// What a station has of station k, put at a place.
fn put_cell(bytes: &mut [u8], at: usize, s: &Station, k: usize)
    requires room { at + cell_width ≤ length bytes.old }
    requires among { k < 16 }
    ensures { bytes.new ≡ sets bytes.old at (encode_cell (cell_of s.now k)) }
{
    let lane = s.lanes[k];
    put_four(
        bytes,
        at,
        [
            u8::from(s.acked[k]),
            u8::from(s.held[k]),
            s.labels[k],
            lane.len,
        ],
    );
    put_body(bytes, at + 4, lane.first);
    put_body(bytes, at + 16, lane.second);
    put_record(bytes, at + 28, s.table[k]);
}

// The sixteen cells of a station, put from a place on.
fn put_cells(bytes: &mut [u8], at: usize, s: &Station)
    requires { at + cells_width ≤ length bytes.old }
    ensures { bytes.new
        ≡ sets bytes.old at (joined_below 16 (λ k. encode_cell (cell_of s.now k))) }
{
    for k in 0..16 {
        put_cell(bytes, at + CELL_WIDTH * k, s, k);
    }
}

// The edits of a desk, put at a place.
fn put_edits(bytes: &mut [u8], at: usize, slots: &[Slot; 32])
    requires { at + edits_width ≤ length bytes.old }
    ensures { bytes.new ≡ sets bytes.old at (encode_edits slots.now) }
{
    for i in 0..32 {
        put_body(bytes, at + BODY_WIDTH * i, slots[i].body);
    }
}

// The waiting edits, put at a place.
fn put_waiting(bytes: &mut [u8], at: usize, waiting: &Waiting)
    requires { at + waiting_width ≤ length bytes.old }
    ensures { bytes.new ≡ sets bytes.old at (encode_waiting waiting.now) }
{
    put_four(
        bytes,
        at,
        [
            as_byte(waiting.queue0.len),
            as_byte(waiting.limit),
            as_byte(waiting.queue1.len),
            u8::from(waiting.one_first),
        ],
    );
    put_edits(bytes, at + 4, &waiting.queue0.slots);
    put_edits(bytes, at + SECOND_PLACE, &waiting.queue1.slots);
}

/// A station, put at a place.
pub fn put_station(bytes: &mut [u8], at: usize, s: &Station)
    requires { at + station_width ≤ length bytes.old }
    ensures { bytes.new ≡ sets bytes.old at (encode_station s.now) }
{
    put_four(
        bytes,
        at,
        [as_byte(s.n), as_byte(s.own), s.count, as_byte(s.edition)],
    );
    put_body(bytes, at + 4, s.body);
    put_cells(bytes, at + 16, s);
    put_waiting(bytes, at + WAITING_PLACE, &s.waiting);
}

/// A group, put at the front.
pub fn put_group(bytes: &mut [u8], group: &[Station; 16])
    requires { group_width ≤ length bytes.old }
    ensures { bytes.new ≡ sets bytes.old 0 (encode_group group.now) }
{
    for k in 0..16 {
        put_station(bytes, STATION_WIDTH * k, &group[k]);
    }
}
