//! The forecast: which broadcasts end by a link log, and when (document 02, A1).

ghost use Rattle.std.specs.Prelude.{◌≡◌, length, Ok};
ghost use Rattle.planning_spec.specs.LinkLog.{rounds_of, log_refusal};
ghost use Rattle.planning_spec.specs.Forecast.{forecast_call, forecast_answer};

use super::logs::judge_log;
use super::sets::{begin_all, close, learn};
use bodies::refusals::Refusal;
use planning_spec::ForecastTable;

// The forecast of a log that is not refused: the sets before round 1, and round after round what is
// learnt and what ends.
fn of_rounds(log: &[u16], n: usize, rounds: usize) -> ForecastTable
    requires accepted { log_refusal n (length log.now) ≡ 0 }
    requires whole { rounds ≡ rounds_of n log.now }
    ensures { forecast_answer (Ok result) ≡ forecast_call n log.now }
{
    let mut ends = [0u16; 16];
    let mut last = [0u16; 16];
    let mut sets = [0u16; 256];
    begin_all(&mut sets, n);
    for u in 0..rounds {
        learn(&mut sets, log, u * n, n);
        close(&mut sets, &mut ends, &mut last, n, (u + 1) as u16);
    }
    ForecastTable { ends, last }
}

/// For each station how many of its broadcasts end by a link log of n masks a round, and the round
/// of the last end; 0 where none ends. Entries from n up are 0. BadNumber: n is not 1 to 16.
/// BadLinkLog: the log is not whole rounds, or has more than 2,048.
#[tactic(auto, unfolding(planning_spec::specs::Forecast::forecast_call), using(planning_spec::proofs::Refused::refused))]
pub fn forecast(log: &[u16], n: usize) -> Result<ForecastTable, Refusal>
    ensures { forecast_answer result ≡ forecast_call n log.now }
{
    judge_log(log.len(), n)?;
    Ok(of_rounds(log, n, log.len() / n))
}
