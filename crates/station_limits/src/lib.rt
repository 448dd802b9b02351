// When a station is inside its limits. Entries from N up, places past a length, and records that
// are not held are not looked at.

#![tactic(auto)]

ghost use Rattle.std.specs.Prelude.{◌≡◌, ◌==◌, if◌then◌else◌, ◌||◌, ◌≤◌, ◌<◌};
ghost use Rattle.bodies.specs.Limits.{body_inside};
ghost use Rattle.frame_spec.specs.Record.{count_inside};
ghost use Rattle.lists.specs.Below.{all_below};
ghost use Rattle.station_spec.specs.Limits as spec;

use bodies::Body;
use frame_spec::Record;
use queues::Lane;
use station_spec::Station;

// May a lane hold this body in an edition?
fn takeable(edition: usize, body: Body) -> bool
    ensures { result ≡ spec.takeable (body_inside edition) body }
{
    !body.is_empty() && body.is_inside(edition)
}

// How many bodies the lane of station k may hold.
fn lane_room(k: usize, own: usize) -> u8
    ensures { result ≡ (if k == own then 1 else 2) }
{
    if k == own { 1 } else { 2 }
}

// Does the lane have no more bodies than may be, and may it hold each?
#[tactic(auto, unfolding(station_spec::specs::Limits::lane_inside))]
fn lane_inside(edition: usize, most: u8, lane: &Lane) -> bool
    ensures { result ≡ spec.lane_inside (body_inside edition) most lane.now }
{
    lane.len <= most
        && (lane.len == 0 || takeable(edition, lane.first))
        && (lane.len <= 1 || takeable(edition, lane.second))
}

// May the record of station k have this count? The own record's may reach 255.
fn count_inside(n: usize, own: usize, k: usize, count: u8) -> bool
    requires some { 1 ≤ n }
    requires few { n ≤ 16 }
    ensures { result ≡ (k == own || count_inside n count) }
{
    k == own || records::numbers::count_fits(n, count)
}

// Is this a record of station k, inside its limits, in the table of station own among n?
#[tactic(auto, unfolding(station_spec::specs::Limits::record_inside))]
fn record_inside(edition: usize, n: usize, own: usize, k: usize, record: &Record) -> bool
    requires few { n ≤ 16 }
    requires place { k < n }
    ensures { result ≡ spec.record_inside (body_inside edition) n own k «record».now }
{
    record.station as usize == k
        && count_inside(n, own, k, record.count)
        && record.body.is_inside(edition)
        && labels::words::labels_inside(record.labels, n)
}

// Is what a station has of station k inside its limits: its label, its record where one is held,
// its lane?
#[tactic(auto, unfolding(station_spec::specs::Limits::place_inside, station_spec::specs::Limits::allowed, station_spec::specs::State::cell_of))]
fn place_inside(s: &Station, k: usize) -> bool
    requires few { s.now.n ≤ 16 }
    requires place { k < s.now.n }
    ensures { result ≡ spec.place_inside s.now k }
{
    s.labels[k] <= 2
        && (!s.held[k] || record_inside(s.edition, s.n, s.own, k, &s.table[k]))
        && lane_inside(s.edition, lane_room(k, s.own), &s.lanes[k])
}

// Is what a station has of each station inside its limits?
#[tactic(auto, using(lists::proofs::Laws::all_below_more, lists::proofs::Laws::all_below_at), unfolding(lists::specs::Below::all_below))]
fn places_inside(s: &Station) -> bool
    requires few { s.now.n ≤ 16 }
    ensures { result ≡ all_below s.now.n (spec.place_inside s.now) }
{
    for k in 0..s.n {
        if !place_inside(s, k) {
            return false;
        }
    }
    true
}

/// Is the station inside its limits?
#[tactic(auto, using(station_spec::proofs::CallSteps::valid_parts), unfolding(station_spec::specs::Limits::station_inside, station_spec::specs::Limits::allowed, station_spec::specs::State::cell_of))]
pub fn station_inside(s: &Station) -> bool
    ensures { result ≡ spec.station_inside s.now }
{
    records::numbers::valid_number(s.n, s.own)
        && records::numbers::is_edition(s.edition)
        && s.acked[s.own]
        && s.held[s.own]
        && s.body.is_inside(s.edition)
        && s.waiting.is_inside(s.edition)
        && places_inside(s)
}
