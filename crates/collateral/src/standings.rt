//! How an agent's standing changes.
ghost use Rattle.std.specs.Prelude.{◌≡◌};
ghost use Rattle.definitions.specs.Cover.{agent_after};

use terms::records::{Agent, Event, Standing};

/// Changes an agent's standing by an event. A close notifies who is clear and short; noon suspends who is notified and short, and
/// clears who is notified and not.
pub fn change_standing(agent: &mut Agent, event: Event)
    ensures { agent.new ≡ agent_after agent.old event }
{
    agent.standing = match (agent.standing, event) {
        (Standing::Clear, Event::Close { short: true }) => Standing::Notified,
        (Standing::Notified, Event::Noon { short: true }) => Standing::Suspended,
        (Standing::Notified, Event::Noon { short: false }) => Standing::Clear,
        (_, Event::Suspend) => Standing::Suspended,
        (_, Event::Resume) => Standing::Clear,
        (standing, _) => standing,
    };
}
