// What C programs call. The declarations for C are in include/relay.h.

#![tactic(auto)]

ghost use Rattle.std.specs.Prelude.{◌≡◌};
ghost use Rattle.bodies.specs.Refusals.{number_of};
ghost use Rattle.frame_spec.specs.Frame.{check_refusal};
ghost use Rattle.station_spec.specs.State.{sized};

mod relay_bulletins;
mod relay_group;
mod relay_planning;
mod relay_station;
mod relay_text;

use bodies::refusals::number_of;
use queues::DEFAULT_LIMIT;
use station_spec::Setup;

// What a fresh call is given that names the limit and the edition.
fn given(n: u32, limit: u32, edition: u32) -> Setup
    ensures { result ≡ record { n = n; limit = limit; edition = edition } }
{
    Setup {
        n: n as usize,
        limit: limit as usize,
        edition: edition as usize,
    }
}

// What a fresh call is given that names the limit alone.
fn limited(n: u32, limit: u32) -> Setup
    ensures { result ≡ record { n = n; limit = limit; edition = 0 } }
{
    given(n, limit, 0)
}

// What a fresh call is given that names neither.
fn sized(n: u32) -> Setup
    ensures { result ≡ sized n }
{
    Setup {
        n: n as usize,
        limit: DEFAULT_LIMIT,
        edition: 0,
    }
}

/// The frame check: 0, or the refusal, for any bytes and any three numbers.
#[unsafe(no_mangle)]
pub extern "C" fn relay_frame_check(bytes: &[u8], n: u32, own: u32, edition: u32) -> u32
    ensures { result ≡ number_of (check_refusal edition bytes.now n own) }
{
    number_of(frame_check::check_frame(bytes, edition as usize, n as usize, own as usize))
}
