//! Reading a link log (document 02, A1): its refusals, and who hears whom by a mask.

ghost use Rattle.std.specs.Prelude.{◌≡◌};
ghost use Rattle.bodies.specs.Refusals.{number_of};
ghost use Rattle.planning_spec.specs.LinkLog.{log_refusal, mask_hears};

use super::PLACES;
use bodies::refusals::Refusal;

const MOST_ROUNDS: usize = 2048;

/// Judges a log of so many masks for n stations. BadNumber: n is not 1 to 16. BadLinkLog: the log
/// is not whole rounds, or has more than 2,048.
#[tactic(auto, unfolding(planning_spec::specs::LinkLog::log_refusal))]
pub fn judge_log(masks: usize, n: usize) -> Result<(), Refusal>
    ensures { number_of result ≡ log_refusal n masks }
{
    if n < 1 || PLACES < n {
        return Err(Refusal::BadNumber);
    }
    if masks % n != 0 || MOST_ROUNDS < masks / n {
        return Err(Refusal::BadLinkLog);
    }
    Ok(())
}

/// Does station p, with this mask, hear station j? Nobody hears itself.
#[tactic(auto, unfolding(planning_spec::specs::LinkLog::mask_hears))]
pub fn mask_hears(mask: u16, p: usize, j: usize) -> bool
    ensures { result ≡ mask_hears mask p j }
{
    p != j && links::set_at(mask, j)
}
