//! Whether an agent's collateral covers what it must.
ghost use Rattle.std.specs.Prelude.{◌≡◌};
ghost use Rattle.definitions.specs.Cover.{covers as is_covered, points as points_of, short_in as is_short};
ghost use Rattle.definitions.specs.Sound.{Kempt};
ghost use Rattle.definitions.specs.States.{agent_in as agent_of, kept_of};

use crate::needs::needed;
use tariff::cover::points;
use terms::ledger::Ledger;

// The points of an agent's collateral: none past the last agent.
fn points_of(ledger: &Ledger, agent: usize) -> u128
    ensures { result ≡ points_of (agent_of (kept_of ledger.now) agent).cents }
{
    ledger.agents.get(agent).map_or(0, |own| points(&own.cents))
}

/// Whether an agent has fewer points than it needs.
pub fn is_short(ledger: &Ledger, agent: usize) -> bool
    requires { Kempt ledger.now }
    ensures { result ≡ is_short (kept_of ledger.now) agent }
{
    points_of(ledger, agent) < u128::from(needed(ledger, agent))
}

/// Whether an agent's points, less those that it needs, are at least so many.
pub fn covers(ledger: &Ledger, agent: usize, more: u128) -> bool
    requires { Kempt ledger.now }
    ensures { result ≡ is_covered (kept_of ledger.now) agent more }
{
    let (points, needed) = (points_of(ledger, agent), u128::from(needed(ledger, agent)));
    points >= needed && points - needed >= more
}
