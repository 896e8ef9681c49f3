//! A pledge adds to an agent's collateral.
ghost use Rattle.definitions.specs.Pledges.{pledge_asks, pledge_does};
ghost use Rattle.definitions.specs.Questions.{Step};
ghost use Rattle.definitions.specs.Sound.{Kempt};
ghost use Rattle.definitions.specs.States.{kept_of};

use crate::stakes::stake;
use register::add_within_cap;
use terms::calls::Refusal;
use terms::ledger::Ledger;

/// Questions: opened, agent and kind, cents, and the agent's cents of the kind stay within the cap.
pub fn pledge(ledger: &mut Ledger, agent: u64, kind: u64, cents: u64) -> Result<(), Refusal>
    requires { Kempt ledger.old }
    ensures step { Step (pledge_asks (kept_of ledger.old) agent kind cents) tt (pledge_does (kept_of ledger.old) agent kind cents) (kept_of ledger.old) (kept_of ledger.new) result }
    ensures kempt { Kempt ledger.new }
{
    let (agent, kind) = stake(ledger, agent, kind, cents)?;
    let pledged = ledger.agents[agent].cents[kind.number()];
    let pledged = add_within_cap(pledged, cents).ok_or(Refusal::OverCap)?;
    ledger.agents[agent].cents[kind.number()] = pledged;
    Ok(())
}
