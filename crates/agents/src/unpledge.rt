//! An unpledge takes from an agent's collateral.
ghost use Rattle.definitions.specs.Pledges.{unpledge_asks, unpledge_does};
ghost use Rattle.definitions.specs.Questions.{Step};
ghost use Rattle.definitions.specs.Sound.{Kempt};
ghost use Rattle.definitions.specs.States.{kept_of};

use crate::stakes::stake;
use collateral::cover::covers;
use register::CAP;
use tariff::cover::kind_points;
use terms::calls::Refusal;
use terms::ledger::Ledger;

/// Questions: opened, agent and kind, cents, and the agent has the cents and does not need their points.
pub fn unpledge(ledger: &mut Ledger, agent: u64, kind: u64, cents: u64) -> Result<(), Refusal>
    requires { Kempt ledger.old }
    ensures step { Step (unpledge_asks (kept_of ledger.old) agent kind cents) tt (unpledge_does (kept_of ledger.old) agent kind cents) (kept_of ledger.old) (kept_of ledger.new) result }
    ensures kempt { Kempt ledger.new }
{
    let (agent, kind) = stake(ledger, agent, kind, cents)?;
    let pledged = ledger.agents[agent].cents[kind.number()];
    if cents > pledged || !covers(ledger, agent, kind_points(cents, kind)) {
        return Err(Refusal::Uncovered);
    }
    ledger.agents[agent].cents[kind.number()] = pledged - cents;
    Ok(())
}
