// The calls of a station that write or hear a frame.

ghost use Rattle.std.specs.Prelude.{◌≡◌, true, ◌≤◌, length, replicate};
ghost use Rattle.bodies.specs.Refusals.{number};
ghost use Rattle.station_spec.specs.Limits.{station_inside};
ghost use Rattle.station_spec.specs.Calls.{write_call, buffer_after, sources_of, hear_call};
ghost use Rattle.station_spec.specs.Inner.Writing.{as_written};
ghost use Rattle.hearing_spec.specs.Buffer.{frame_room};
ghost use Rattle.hearing_spec.specs.Room.{takings_room};
ghost use Rattle.listening.specs.Listened.{takings_at, TakenRoom};
ghost use Rattle.station.specs.Beside as spec;
ghost use Rattle.station.specs.Beside.{both_room, HearsBeside};

use bodies::Body;
use bodies::refusals::{DONE, Refusal};
use frame_spec::Written;
use hearing_spec::{Ear, FRAME_ROOM};
use station_spec::{Heard, Station, Taking};

/// The room of two frames.
pub const BOTH_ROOM: usize = 2 * FRAME_ROOM;

// Writes the table's records into the buffer, and answers with their number of bytes. What is
// refused leaves the buffer as it is.
#[tactic(auto, using(station_spec::proofs::StationLimits::inside_own, station_spec::proofs::StationLimits::inside_high), unfolding(station_spec::specs::State::cell_of))]
fn try_write(s: &Station, buffer: &mut [u8]) -> Result<usize, Refusal>
    ensures answer { as_written result ≡ write_call s.now (length buffer.old) }
    ensures buffer { buffer.new ≡ buffer_after s.now buffer.old }
{
    if !station_limits::station_inside(s) {
        return Err(Refusal::OutsideLimits);
    }
    if !records::numbers::count_fits(s.n, s.table[s.own].count) {
        return Err(Refusal::CountTooHigh);
    }
    frame_writer::write_table(buffer, &s.held, &s.table, s.edition, s.n, s.own)
}

/// Write frame: the table's records into the buffer, whose bytes past the frame are kept.
pub fn write(s: Station, buffer: &mut [u8]) -> Written
    ensures answer { result ≡ write_call s (length buffer.old) }
    ensures buffer { buffer.new ≡ buffer_after s buffer.old }
{
    match try_write(&s, buffer) {
        Ok(len) => Written { refusal: DONE, len },
        Err(refusal) => Written {
            refusal: refusal.number(),
            len: 0,
        },
    }
}

// The station's own frame, and then a heard one, put into the room of two.
fn put_both(both: &mut [u8], frame: &[u8], s: &Station)
    requires empty { both.old ≡ replicate both_room 0 }
    requires inside { station_inside s.now ≡ true }
    requires short { length frame.now ≤ frame_room }
    ensures { both.new ≡ spec.beside s.now frame.now }
{
    let _ = frame_writer::write_table(
        &mut both[..FRAME_ROOM],
        &s.held,
        &s.table,
        s.edition,
        s.n,
        s.own,
    );
    both[FRAME_ROOM..FRAME_ROOM + frame.len()].copy_from_slice(frame);
}

// What a refused frame leaves: the refusal, and nothing heard.
fn refused(refusal: Refusal) -> Ear
    ensures { result.refusal ≡ number refusal }
{
    let refusal = refusal.number();
    Ear {
        refusal,
        count: 0,
        acked: [false; 16],
        labels: [0; 16],
        len: 0,
    }
}

/// What the call hear judges and hears, before it is taken into the station. The own frame and the
/// heard one are put into `both`, and what was heard is told by places there.
pub fn listen(
    both: &mut [u8],
    places: &mut [u16],
    taken: &mut [u16],
    frame: &[u8],
    s: Station,
) -> Ear
    requires both { both.old ≡ replicate both_room 0 }
    requires places { places.old ≡ replicate 16 0 }
    requires taken { length taken.old ≡ takings_room }
    ensures { HearsBeside s frame.now both.new
        places.new taken.new result }
{
    if !station_limits::station_inside(&s) {
        return refused(Refusal::OutsideLimits);
    }
    match frame_check::frame_refusal(frame, s.edition, s.n, s.own) {
        Ok(()) => {
            put_both(both, frame, &s);
            listening::listen_to(both, FRAME_ROOM, places, taken, &s)
        }
        Err(refusal) => refused(refusal),
    }
}

/// The stations that the records at the first places are of, whose bodies are taken.
pub fn sources_of(both: &[u8], taken: &[u16], len: usize) -> [bool; 16]
    requires { TakenRoom both.now taken.now len }
    ensures { result ≡ sources_of (takings_at both.now taken.now len) }
{
    let mut takings = [Taking {
        source: 0,
        body: Body::Empty,
    }; 30];
    listening::acting::put_takings(both, taken, len, &mut takings);
    super::heard::sources(takings, len)
}

/// Hear: one frame's records in order.
pub fn hear(s: Station, bytes: &[u8]) -> Heard
    ensures { result ≡ hear_call s bytes.now }
{
    let mut both = [0; BOTH_ROOM];
    let mut places = [0; 16];
    let mut taken = [0; 30];
    let heard = listen(&mut both, &mut places, &mut taken, bytes, s);
    if heard.refusal != DONE {
        return Heard {
            refusal: heard.refusal,
            station: s,
            taken: [false; 16],
        };
    }
    let sources = sources_of(&both, &taken, heard.len);
    let mut station = s;
    listening::acting::act(&heard, &both, &places, &taken, &mut station);
    Heard {
        refusal: DONE,
        station,
        taken: sources,
    }
}
