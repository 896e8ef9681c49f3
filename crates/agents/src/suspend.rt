//! A suspension of an agent.
ghost use Rattle.definitions.specs.Questions.{Step};
ghost use Rattle.definitions.specs.Sound.{Kempt};
ghost use Rattle.definitions.specs.Standings.{suspend_asks, suspend_does};
ghost use Rattle.definitions.specs.States.{kept_of};

use collateral::standings::change_standing;
use questions::is_opened;
use terms::calls::Refusal;
use terms::ledger::Ledger;
use terms::records::{Event, Standing};

/// Questions: opened, agent, and the agent is not suspended.
pub fn suspend(ledger: &mut Ledger, agent: u64) -> Result<(), Refusal>
    requires { Kempt ledger.old }
    ensures step { Step (suspend_asks (kept_of ledger.old) agent) tt (suspend_does (kept_of ledger.old) agent) (kept_of ledger.old) (kept_of ledger.new) result }
    ensures kempt { Kempt ledger.new }
{
    is_opened(ledger)?;
    let agent = questions::agent(ledger, agent)?;
    let agent = &mut ledger.agents[agent];
    if agent.standing == Standing::Suspended {
        return Err(Refusal::WrongCondition);
    }
    change_standing(agent, Event::Suspend);
    Ok(())
}
