//! One script line applied to a session, and the listing that comes of it.

#![tactic(auto)]

pub mod commands;
pub mod ends;

ghost use Rattle.std.specs.Prelude.{◌≡◌, ◌≤◌, length};
ghost use Rattle.script.specs.Line.{command_of, masks_of};
ghost use Rattle.listing_lines.specs.Lines.{Put, line_length};
ghost use Rattle.listing_lines.specs.Reports.{round_room};
ghost use Rattle.listing_spec.specs.Listing.{refusal_text, obeyed, answered, after, printed};

use bodies::Body;
use group_spec::Post;
use listing_lines::{Line, REFUSED};
use listing_spec::Session;
use script::Command;

// The most that a round's columns can number.
const LAST_ROUND: u32 = 999_999;

// The line of a refusal, with the number of rounds done, put at the front of the buffer.
fn put_refusal(rounds: u32, station: usize, refusal: u32, out: &mut [u8]) -> usize
    requires { line_length ≤ length out.old }
    ensures { Put out.old out.new 0 result (refusal_text rounds station refusal) }
{
    let line = Line {
        round: rounds,
        letter: REFUSED,
        station,
        source: refusal as usize,
        body: Body::Empty,
    };
    line.put(out, 0)
}

// A round's line, whose masks the group hears by; a round past the last that can be numbered stops
// the reading.
#[tactic(auto, unfolding(listing_spec::specs::Listing::obeyed, listing_spec::specs::Listing::answered, listing_spec::specs::Listing::rounded_by))]
fn apply_round(s: &mut Session, line: &[u8], out: &mut [u8]) -> usize
    requires few { s.old.n ≤ 16 }
    requires room { round_room ≤ length out.old }
    ensures session { s.new ≡ obeyed s.old (masks_of s.old.n line.now) Command.Round }
    ensures text { Put out.old out.new 0 result
        (answered s.old (masks_of s.old.n line.now) Command.Round) }
{
    if LAST_ROUND <= s.rounds {
        return ends::halt(s, out);
    }
    let made = rounds::round(s.group, script::masks(line, s.n));
    s.rounds += 1;
    s.stopped = false;
    s.group = made.group;
    listing_lines::rounds::put_round(out, s.n, s.rounds, &made.reports)
}

// What a line says, done.
#[tactic(auto, unfolding(listing_spec::specs::Listing::obeyed, listing_spec::specs::Listing::answered), using(script::proofs::Rounds::round_size, listing_lines::proofs::Placed::put_none))]
fn obey(s: &mut Session, command: Command, line: &[u8], out: &mut [u8]) -> usize
    requires said { command ≡ command_of s.old.n line.now }
    requires room { round_room ≤ length out.old }
    ensures session { s.new ≡ obeyed s.old (masks_of s.old.n line.now) command }
    ensures text { Put out.old out.new 0 result
        (answered s.old (masks_of s.old.n line.now) command) }
{
    match command {
        Command::Size { n } => {
            commands::apply_size(s, n);
            0
        }
        Command::Post {
            station,
            kind,
            event,
            argument,
        } => {
            let post = Post {
                station: station as usize,
                desk: 0,
                body: commands::posted_body(kind, event, argument),
            };
            commands::apply_post(s, post, out)
        }
        Command::Round => apply_round(s, line, out),
        Command::Malformed => ends::halt(s, out),
    }
}

/// One line, without its line end; nothing once the reading has stopped. What it prints is put at
/// the front of the buffer, which has room for what sixteen stations can report of a round. Returns
/// how many bytes were put.
#[tactic(auto, unfolding(listing_spec::specs::Listing::after, listing_spec::specs::Listing::printed), using(listing_lines::proofs::Placed::put_none))]
pub fn apply(s: &mut Session, line: &[u8], out: &mut [u8]) -> usize
    requires { round_room ≤ length out.old }
    ensures session { s.new ≡ after s.old line.now }
    ensures text { Put out.old out.new 0 result (printed s.old line.now) }
{
    if s.stopped {
        return 0;
    }
    let command = script::read_line(line, s.n);
    obey(s, command, line, out)
}
