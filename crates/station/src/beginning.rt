// The fresh station, what it is given where neither limit nor edition is named, and what is judged
// of what it is given.

ghost use Rattle.std.specs.Prelude.{◌≡◌, ◌<◌};
ghost use Rattle.bodies.specs.Refusals.{number_of};
ghost use Rattle.station_spec.specs.State.{alone_setup, sized, fresh_station};
ghost use Rattle.station_spec.specs.Calls.{fresh_refusal};

use bodies::Body;
use bodies::refusals::Refusal;
use frame_spec::Record;
use queues::{DEFAULT_LIMIT, Lane, Waiting};
use station_spec::{Setup, Station};

/// Judges what a fresh station is given, and its number.
pub fn judge(setup: Setup, own: usize) -> Result<(), Refusal>
    ensures { number_of result ≡ fresh_refusal setup own }
{
    if !records::numbers::valid_number(setup.n, own) {
        return Err(Refusal::BadNumber);
    }
    if !queues::limit_inside(setup.limit) {
        return Err(Refusal::BadLimit);
    }
    if !records::numbers::is_edition(setup.edition) {
        return Err(Refusal::BadEdition);
    }
    Ok(())
}

/// Station own, as it begins.
#[tactic(auto, unfolding(station_spec::specs::State::fresh_station))]
pub fn fresh_station(setup: Setup, own: usize) -> Station
    requires { own < 16 }
    ensures { result ≡ fresh_station setup own }
{
    let mut acked = [false; 16];
    acked[own] = true;
    let mut labels = [0; 16];
    labels[own] = 1;
    let mut held = [false; 16];
    held[own] = true;
    let no_record = Record {
        station: 0,
        count: 0,
        body: Body::Empty,
        labels: 0,
    };
    let mut table = [no_record; 16];
    table[own] = Record {
        station: own as u8,
        count: 0,
        body: Body::Empty,
        labels: labels::words::pack_over(16, labels, 0),
    };
    Station {
        n: setup.n,
        own,
        edition: setup.edition,
        waiting: Waiting::none(setup.limit),
        acked,
        body: Body::Empty,
        count: 0,
        labels,
        held,
        table,
        lanes: [Lane::EMPTY; 16],
    }
}

/// A station alone, as it begins: what a refused fresh call answers with.
pub fn alone() -> Station
    ensures { result ≡ fresh_station alone_setup 0 }
{
    fresh_station(sized(1), 0)
}

/// What is given where neither limit nor edition is named.
pub fn sized(n: usize) -> Setup
    ensures { result ≡ sized n }
{
    Setup {
        n,
        limit: DEFAULT_LIMIT,
        edition: 0,
    }
}
