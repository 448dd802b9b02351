// How a session begins, halts and closes.

ghost use Rattle.std.specs.Prelude.{◌≡◌, ◌++◌, ◌≤◌, length};
ghost use Rattle.listing_lines.specs.Lines.{Put, line_length, end_line};
ghost use Rattle.listing_spec.specs.Listing.{closing_room};
ghost use Rattle.listing_spec.specs.Listing.{session_begun, halted, malformed_text, rest_text, closed};

use bodies::refusals::Refusal;
use listing_spec::Session;

/// A session before any line is read.
#[tactic(auto, unfolding(listing_spec::specs::Listing::session_begun, group_spec::specs::Calls::group_fresh_call, group_spec::specs::Calls::group_fresh_refusal))]
pub fn begin() -> Session
    ensures { result ≡ session_begun }
{
    let made = group::fresh(1);
    let group = made.group;
    Session {
        n: 0,
        rounds: 0,
        stopped: false,
        group,
    }
}

// What is printed where the reading stops.
fn put_malformed(s: &Session, out: &mut [u8]) -> usize
    requires { line_length ≤ length out.old }
    ensures { Put out.old out.new 0 result (malformed_text s.now) }
{
    super::put_refusal(s.rounds, 0, Refusal::MalformedLine.number(), out)
}

/// A malformed line, or a round that has no number: the reading stops. Returns how many bytes were
/// put.
pub fn halt(s: &mut Session, out: &mut [u8]) -> usize
    requires { line_length ≤ length out.old }
    ensures session { s.new ≡ halted s.old }
    ensures text { Put out.old out.new 0 result (malformed_text s.old) }
{
    s.stopped = true;
    put_malformed(s, out)
}

// Malformed at the end of a script: that it breaks off in a line, or has no `N` line. Nothing is
// malformed where the reading has stopped.
#[tactic(auto, unfolding(listing_spec::specs::Listing::rest_text), using(listing_lines::proofs::Placed::put_none, listing_lines::proofs::Columns::length_line))]
fn put_rest(s: &Session, rest: usize, out: &mut [u8]) -> usize
    requires { line_length ≤ length out.old }
    ensures text { Put out.old out.new 0 result (rest_text s.now rest) }
    ensures few { result ≤ line_length }
{
    if s.stopped || (0 < s.n && rest == 0) {
        0
    } else {
        put_malformed(s, out)
    }
}

/// The end of a script, with what stands after its last line end; then the listing's last line.
/// Returns how many bytes were put.
pub fn close(s: &Session, rest: &[u8], out: &mut [u8]) -> usize
    requires { closing_room ≤ length out.old }
    ensures { Put out.old out.new 0 result (closed s.now rest.now ++ end_line) }
{
    let at = put_rest(s, rest.len(), out);
    listing_lines::put_end(out, at)
}
