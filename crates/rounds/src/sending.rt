//! The frames of a round: all are written before any station hears.

ghost use Rattle.std.specs.Prelude.{◌≡◌, length};
ghost use Rattle.bodies.specs.Refusals.{number_of};
ghost use Rattle.rounds.specs.Frames as spec;

use bodies::refusals::Refusal;
use hearing_spec::FRAME_ROOM;
use station_spec::Station;

/// Writes the frame of station k of a group of n in an edition into its part of the bytes, if it
/// may be written.
pub fn send(
    bytes: &mut [u8],
    s: &Station,
    edition: usize,
    n: usize,
    k: usize,
) -> Result<(), Refusal>
    requires { length bytes.old ≡ spec.frames_room }
    ensures refusal { number_of result ≡ spec.send_refusal edition n k s.now }
    ensures bytes { bytes.new ≡ spec.bytes_after edition n k s.now bytes.old }
{
    if !group::limits::member_inside(s, edition, n, k) {
        return Err(Refusal::OutsideLimits);
    }
    if !records::numbers::count_fits(n, s.table[k].count) {
        return Err(Refusal::CountTooHigh);
    }
    let at = FRAME_ROOM * k;
    // It fits: a part has room for every frame.
    let _length = frame_writer::write_table(
        &mut bytes[at..at + FRAME_ROOM],
        &s.held,
        &s.table,
        edition,
        n,
        k,
    );
    Ok(())
}

/// Of the answers for two stations, that of the round.
#[tactic(auto, unfolding(crate::specs::Frames::worse))]
pub fn worse(a: Result<(), Refusal>, b: Result<(), Refusal>) -> Result<(), Refusal>
    ensures { number_of result ≡ spec.worse (number_of a) (number_of b) }
{
    match (a, b) {
        (Err(Refusal::OutsideLimits), _) | (_, Ok(())) => a,
        _ => b,
    }
}
