// The commands of a script that take no time: a new group and a post, each with what it prints.

ghost use Rattle.std.specs.Prelude.{◌≡◌, ◌≤◌, length};
ghost use Rattle.group_spec.specs.Calls.{group_fresh_call, group_post_call};
ghost use Rattle.listing_lines.specs.Lines.{Put, line_length};
ghost use Rattle.listing_spec.specs.Listing.{posted_body, setup_of, sized_by, posted_by, refused_text};

use bodies::Body;
use group_spec::Post;
use listing_spec::Session;
use station_spec::Setup;

// The limit of waiting edits that a listing names.
const LISTING_LIMIT: usize = 32;

/// The body that a post's numbers name, without a channel; Empty, which is no edit, where they name
/// none.
#[tactic(auto, unfolding(listing_spec::specs::Listing::posted_body))]
pub fn posted_body(kind: u32, event: u32, argument: i32) -> Body
    ensures { result ≡ posted_body kind event argument }
{
    if bodies::limits::numbers_inside(kind, event, argument) {
        Body::new(kind, event, argument, 0)
    } else {
        Body::Empty
    }
}

// What a post's answer prints: its refusal, and the station that it names, 0 where that is not
// below n.
#[tactic(auto, unfolding(listing_spec::specs::Listing::refused_text), using(listing_lines::proofs::Placed::put_none))]
fn put_post(s: &Session, station: usize, refusal: u32, out: &mut [u8]) -> usize
    requires { line_length ≤ length out.old }
    ensures { Put out.old out.new 0 result (refused_text s.now.n s.now.rounds station refusal) }
{
    match refusal {
        0 => 0,
        _ => {
            let named = if station < s.n { station } else { 0 };
            super::put_refusal(s.rounds, named, refusal, out)
        }
    }
}

/// An `N` line: a new group, of which nothing is printed.
#[tactic(auto, unfolding(listing_spec::specs::Listing::sized_by))]
pub fn apply_size(s: &mut Session, n: usize)
    ensures { s.new ≡ sized_by s.old n (group_fresh_call (setup_of n)) }
{
    let setup = Setup {
        n,
        limit: LISTING_LIMIT,
        edition: 0,
    };
    let made = group::fresh_limited(setup);
    let group = made.group;
    s.n = n;
    s.stopped = false;
    s.group = group;
}

/// A post, and its refusal where it is refused, put at the front of the buffer. Returns how many
/// bytes were put.
#[tactic(auto, unfolding(listing_spec::specs::Listing::posted_by))]
pub fn apply_post(s: &mut Session, post: Post, out: &mut [u8]) -> usize
    requires { line_length ≤ length out.old }
    ensures session { s.new ≡ posted_by s.old (group_post_call s.old.group post) }
    ensures text { Put out.old out.new 0 result
        (refused_text s.old.n s.old.rounds post.station (group_post_call s.old.group post).refusal) }
{
    let made = group::post(s.group, post);
    let group = made.group;
    s.stopped = false;
    s.group = group;
    put_post(s, post.station, made.refusal, out)
}
