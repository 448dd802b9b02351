// Records written into their own sixteen bytes.

ghost use Rattle.std.specs.Prelude.{◌≡◌, ◌+◌, ◌≤◌, length};
ghost use Rattle.std.proofs.lemmas.List.Edits.{sets};
ghost use Rattle.frame_spec.specs.Words.{word_bytes, unsigned};
ghost use Rattle.frame_spec.specs.Record.{record_bytes};

use frame_spec::Record;

/// A signed number as a word in two's complement.
#[tactic(auto, unfolding(frame_spec::specs::Words::unsigned))]
pub fn unsigned(number: i32) -> u32
    ensures { result ≡ unsigned number }
{
    number.cast_unsigned()
}

/// The four bytes of a number, the lowest first.
#[tactic(auto, unfolding(frame_spec::specs::Words::word_bytes))]
pub fn word_bytes(word: u32) -> [u8; 4]
    ensures { result ≡ word_bytes word }
{
    word.to_le_bytes()
}

/// The four bytes of a number, put at a place.
#[tactic(auto, unfolding(frame_spec::specs::Words::word_bytes))]
pub fn put_word(bytes: &mut [u8], at: usize, word: u32)
    requires { at + 4 ≤ length bytes.old }
    ensures { bytes.new ≡ sets bytes.old at (word_bytes word) }
{
    bytes[at..at + 4].copy_from_slice(&word_bytes(word));
}

/// A record as sixteen bytes; its labels from n up are written 0.
#[tactic(auto, unfolding(frame_spec::specs::Record::record_bytes, frame_spec::specs::Words::word_bytes))]
pub fn write_record(part: &mut [u8], n: usize, from: Record)
    requires whole { length part.old ≡ 16 }
    requires few { n ≤ 16 }
    ensures { part.new ≡ record_bytes n from }
{
    let body = from.body;
    let [e0, e1, e2, e3] = word_bytes(body.event());
    let [a0, a1, a2, a3] = word_bytes(unsigned(body.argument()));
    let [l0, l1, l2, l3] = word_bytes(labels::words::over(n, from.labels, 0));
    let kind = body.kind() as u8;
    let channel = body.channel();
    part.copy_from_slice(&[
        from.station,
        from.count,
        kind,
        channel,
        e0,
        e1,
        e2,
        e3,
        a0,
        a1,
        a2,
        a3,
        l0,
        l1,
        l2,
        l3,
    ]);
}
