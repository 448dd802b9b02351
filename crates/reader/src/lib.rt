//! A script read in parts of any size, and the listing that comes of it.

#![tactic(auto)]

pub mod steps;

ghost use Rattle.std.specs.Prelude.{◌≡◌, ◌≤◌, length};
ghost use Rattle.listing_lines.specs.Reports.{round_room};
ghost use Rattle.listing_spec.specs.Remaining.{kept_bytes, Feeds};

use listing_lines::rounds::ROUND_ROOM;
use listing_spec::Session;
use listing_spec::reading::{FeedAnswer, KEPT, Reader};

fn answer(session: Session, held: usize, line: [u8; KEPT], read: usize, put: usize) -> FeedAnswer
    ensures { result ≡ record {
      read = read;
      len = put;
      reader = record { session = session; len = held; line = line };
    } }
{
    let reader = Reader {
        session,
        len: held,
        line,
    };
    FeedAnswer {
        read,
        len: put,
        reader,
    }
}

/// A part of the script read, or as much of it as the buffer has room for: what its lines print is
/// put at the front of the buffer.
pub fn feed(r: Reader, part: &[u8], out: &mut [u8]) -> FeedAnswer
    requires held { r.len ≤ kept_bytes }
    requires room { round_room ≤ length out.old }
    ensures { Feeds r part.now out.old out.new result }
{
    let mut session = r.session;
    let mut line = r.line;
    let mut held = r.len;
    let mut read = 0;
    let mut at = 0;
    // Kept as a while loop: it ends by the room that is left, and takes a line at each turn.
    while ROUND_ROOM <= out.len() - at {
        let taken = steps::take_line(&mut line, held, part, read);
        held = taken.len;
        read = taken.next;
        if read == part.len() {
            return answer(session, held, line, read, at);
        }
        at += listing::apply(&mut session, &line[..held], &mut out[at..]);
        held = 0;
        read += 1;
    }
    answer(session, held, line, read, at)
}
