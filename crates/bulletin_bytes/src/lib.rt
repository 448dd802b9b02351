// Bulletins read from bytes and written as bytes, and what a round shows, written. All other bytes
// are kept.

#![tactic(auto)]

ghost use Rattle.std.specs.Prelude.{◌≡◌, ◌+◌, ◌*◌, ◌≤◌, ℕ, List, flat_map, length};
ghost use Rattle.std.proofs.lemmas.List.Edits.{sets};
ghost use Rattle.lists.specs.Below.{tabulate};
ghost use Rattle.frame_spec.specs.Words.{word_at, word_bytes};
ghost use Rattle.bulletins_spec.specs.State.{all_places};
ghost use Rattle.station_bytes_spec.specs.Bytes.{word_width};
ghost use Rattle.bulletin_bytes.specs.Bulletins.{set_width, words_width, sets_place, bulletins_width};
ghost use Rattle.bulletin_bytes.specs.Bulletins.{set_bytes, set_at, encode_bulletins, decode_bulletins, is_bulletins};
ghost use Rattle.bulletin_bytes.specs.Shown.{notice_width, encode_notice, shown_width, encode_shown};
ghost use Rattle.bulletin_bytes.specs.Shown.{all_shown_width, encode_all_shown};

use bulletins_spec::{Bulletins, Notice, Shown};
use records::reader::word_at;
use records::writer::put_word;
use station_encoder::as_byte;

// How many bytes a word takes, the set of a station, a notice, and what one station shows.
const WORD_WIDTH: usize = 4;

const SET_WIDTH: usize = 8;

const NOTICE_WIDTH: usize = 12;

const SHOWN_WIDTH: usize = 772;

// Where the tags, the events and the sets stand in the bytes of bulletins; n stands in front.
const TAGS_PLACE: usize = 4;

const EVENTS_PLACE: usize = 260;

const SETS_PLACE: usize = 516;

const BULLETINS_WIDTH: usize = 644;

// The 64 words from a place on. Kept as an index loop, here and for the sets: with
// std::array::from_fn the proof of the answer did not close.
fn read_words(bytes: &[u8], at: usize) -> [u32; 64]
    requires { at + words_width ≤ length bytes.now }
    ensures { result ≡ tabulate all_places (λ s. word_at bytes.now (at + word_width * s)) }
{
    let mut words = [0; 64];
    for s in 0..64 {
        words[s] = word_at(bytes, at + WORD_WIDTH * s);
    }
    words
}

// The set at a place.
#[tactic(auto, unfolding(crate::specs::Bulletins::set_at, frame_spec::specs::Words::word_at))]
fn read_set(bytes: &[u8], at: usize) -> u64
    requires { at + set_width ≤ length bytes.now }
    ensures { result ≡ set_at bytes.now at }
{
    u64::from_le_bytes([
        bytes[at],
        bytes[at + 1],
        bytes[at + 2],
        bytes[at + 3],
        bytes[at + 4],
        bytes[at + 5],
        bytes[at + 6],
        bytes[at + 7],
    ])
}

// The sets of sixteen stations.
fn read_sets(bytes: &[u8]) -> [u64; 16]
    requires { bulletins_width ≤ length bytes.now }
    ensures { result ≡ tabulate 16 (λ p. set_at bytes.now (sets_place + set_width * p)) }
{
    let mut held = [0; 16];
    for p in 0..16 {
        held[p] = read_set(bytes, SETS_PLACE + SET_WIDTH * p);
    }
    held
}

/// Are these bytes bulletins?
#[tactic(auto, unfolding(crate::specs::Bulletins::is_bulletins))]
pub fn is_bulletins(bytes: &[u8]) -> bool
    ensures { result ≡ is_bulletins bytes.now }
{
    bytes.len() == BULLETINS_WIDTH && word_at(bytes, 0) < 256
}

/// The bulletins that the bytes are.
#[tactic(auto, unfolding(crate::specs::Bulletins::decode_bulletins))]
pub fn read_bulletins(bytes: &[u8]) -> Bulletins
    requires { bulletins_width ≤ length bytes.now }
    ensures { result ≡ decode_bulletins bytes.now }
{
    Bulletins {
        n: word_at(bytes, 0) as usize,
        tags: read_words(bytes, TAGS_PLACE),
        events: read_words(bytes, EVENTS_PLACE),
        held: read_sets(bytes),
    }
}

/// What is written as so many bytes.
trait Bytes {
    /// How many they are.
    const WIDTH: usize;

    ghost WIDTH: { ℕ };

    ghost encoded: { Self → List ℕ };

    /// Puts the bytes at a place.
    fn put(&self, bytes: &mut [u8], at: usize)
        requires room { at + WIDTH ≤ length bytes.old }
        ensures put { bytes.new ≡ sets bytes.old at (encoded self.now) }
        ensures wide { length (encoded self.now) ≡ WIDTH };
}

impl Bytes for u32 {
    const WIDTH: usize = WORD_WIDTH;

    ghost WIDTH = { word_width };

    ghost encoded = { word_bytes };

    #[tactic(auto, using(station_bytes_spec::proofs::Bytes::length_word))]
    fn put(&self, bytes: &mut [u8], at: usize) {
        put_word(bytes, at, *self);
    }
}

// A set, the lowest byte first.
impl Bytes for u64 {
    const WIDTH: usize = SET_WIDTH;

    ghost WIDTH = { set_width };

    ghost encoded = { set_bytes };

    #[tactic(auto, using(crate::proofs::Bulletins::length_set_bytes))]
    fn put(&self, bytes: &mut [u8], at: usize) {
        bytes[at..at + Self::WIDTH].copy_from_slice(&self.to_le_bytes());
    }
}

impl Bytes for Notice {
    const WIDTH: usize = NOTICE_WIDTH;

    ghost WIDTH = { notice_width };

    ghost encoded = { encode_notice };

    #[tactic(auto, using(crate::proofs::Writing::notice_written))]
    fn put(&self, bytes: &mut [u8], at: usize) {
        put_word(bytes, at, self.issuer);
        put_word(bytes, at + WORD_WIDTH, self.tag);
        put_word(bytes, at + 2 * WORD_WIDTH, self.event);
    }
}

impl Bytes for Shown {
    const WIDTH: usize = SHOWN_WIDTH;

    ghost WIDTH = { shown_width };

    ghost encoded = { encode_shown };

    fn put(&self, bytes: &mut [u8], at: usize) {
        put_word(bytes, at, as_byte(self.len) as u32);
        put_all(bytes, at + WORD_WIDTH, &self.notices);
    }
}

// Parts of one type, put one behind the other from a place on.
fn put_all<T: Bytes>(bytes: &mut [u8], at: usize, parts: &[T])
    requires room { at + T.WIDTH * length parts.now ≤ length bytes.old }
    ensures { bytes.new ≡ sets bytes.old at (flat_map T.encoded parts.now) }
{
    for k in 0..parts.len() {
        parts[k].put(bytes, at + T::WIDTH * k);
    }
}

/// Bulletins, put to the front.
pub fn put_bulletins(bytes: &mut [u8], b: Bulletins)
    requires { bulletins_width ≤ length bytes.old }
    ensures { bytes.new ≡ sets bytes.old 0 (encode_bulletins b) }
{
    put_word(bytes, 0, as_byte(b.n) as u32);
    put_all(bytes, TAGS_PLACE, &b.tags);
    put_all(bytes, EVENTS_PLACE, &b.events);
    put_all(bytes, SETS_PLACE, &b.held);
}

/// What sixteen stations show, put to the front.
pub fn put_all_shown(bytes: &mut [u8], shown: [Shown; 16])
    requires { all_shown_width ≤ length bytes.old }
    ensures { bytes.new ≡ sets bytes.old 0 (encode_all_shown shown) }
{
    put_all(bytes, 0, &shown);
}
