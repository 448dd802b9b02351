// Records read from their own sixteen bytes.

ghost use Rattle.std.specs.Prelude.{◌≡◌, ◌+◌, ◌≤◌, length};
ghost use Rattle.frame_spec.specs.Words.{word_at, signed};
ghost use Rattle.frame_spec.specs.Record.{record_from};

use bodies::Body;
use frame_spec::Record;

/// The number in the four bytes from a place on, the lowest first.
#[tactic(auto, unfolding(frame_spec::specs::Words::word_at))]
pub fn word_at(bytes: &[u8], at: usize) -> u32
    requires { at + 4 ≤ length bytes.now }
    ensures { result ≡ word_at bytes.now at }
{
    u32::from_le_bytes([bytes[at], bytes[at + 1], bytes[at + 2], bytes[at + 3]])
}

/// A word as a signed number in two's complement.
#[tactic(auto, unfolding(frame_spec::specs::Words::signed))]
pub fn signed(word: u32) -> i32
    ensures { result ≡ signed word }
{
    word.cast_signed()
}

/// The record that sixteen bytes hold.
#[tactic(auto, unfolding(frame_spec::specs::Record::record_from))]
pub fn read_record(part: &[u8]) -> Record
    requires { length part.now ≡ 16 }
    ensures { result ≡ record_from part.now }
{
    Record {
        station: part[0],
        count: part[1],
        body: Body::new(
            part[2] as u32,
            word_at(part, 4),
            signed(word_at(part, 8)),
            part[3],
        ),
        labels: word_at(part, 12),
    }
}
