//! Noon, when agents that were notified are suspended or cleared.
ghost use Rattle.std.specs.Prelude.{◌≡◌, ◌<◌};
ghost use Rattle.definitions.specs.Limits.{agent_count};
ghost use Rattle.definitions.specs.Questions.{Step};
ghost use Rattle.definitions.specs.Sound.{Kempt};
ghost use Rattle.definitions.specs.Standings.{noon_asks, noon_does, suspended_at_noon, suspensions};
ghost use Rattle.definitions.specs.States.{kept_of};

use collateral::cover::is_short;
use collateral::standings::change_standing;
use questions::is_opened;
use std::array;
use terms::calls::Refusal;
use terms::ledger::Ledger;
use terms::records::{Event, Standing};

// Whether noon suspends an agent: it was notified and is short.
fn suspends(ledger: &Ledger, agent: usize) -> bool
    requires kempt { Kempt ledger.now }
    requires inside { agent < agent_count }
    ensures { result ≡ suspended_at_noon (kept_of ledger.now) agent }
{
    ledger.agents[agent].standing == Standing::Notified && is_short(ledger, agent)
}

/// Questions: opened. It answers how many agents it suspended.
pub fn noon(ledger: &mut Ledger) -> Result<u64, Refusal>
    requires { Kempt ledger.old }
    ensures step { Step (noon_asks (kept_of ledger.old)) (suspensions (kept_of ledger.old)) (noon_does (kept_of ledger.old)) (kept_of ledger.old) (kept_of ledger.new) result }
    ensures kempt { Kempt ledger.new }
{
    is_opened(ledger)?;
    let suspended: [bool; 16] = array::from_fn(|agent| suspends(ledger, agent));
    let count = suspended.iter().filter(|suspends| **suspends).count();
    // Whether an agent is short counts at noon only where it was notified.
    for (place, agent) in ledger.agents.iter_mut().enumerate() {
        let short = suspended[place];
        change_standing(agent, Event::Noon { short });
    }
    Ok(count as u64)
}
