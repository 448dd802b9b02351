// The stations that bodies were taken from.

ghost use Rattle.std.specs.Prelude.{◌≡◌, true, ◌≤◌, set, take};
ghost use Rattle.station_spec.specs.Calls.{sources_of};
ghost use Rattle.hearing_spec.specs.Room.{takings_room};

use station_spec::Taking;

// Marks one more place, if there is such a place.
fn mark(places: &mut [bool; 16], source: usize)
    ensures { places.new ≡ set places.old source true }
{
    if source < 16 {
        places[source] = true;
    }
}

/// The stations that the first takings are of.
#[tactic(auto, using(crate::proofs::SourceSteps::sources_none, crate::proofs::SourceSteps::sources_more))]
pub fn sources(takings: [Taking; 30], len: usize) -> [bool; 16]
    requires { len ≤ takings_room }
    ensures { result ≡ sources_of (take len takings) }
{
    let mut places = [false; 16];
    for i in (0..len).rev() {
        mark(&mut places, takings[i].source as usize);
    }
    places
}
