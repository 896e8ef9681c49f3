//! Stop ends a security's eligibility and takes out its requests; its loans run on.
ghost use Rattle.std.specs.Prelude.{◌≡◌};
ghost use Rattle.definitions.specs.Listing.{stop_asks, stop_does};
ghost use Rattle.definitions.specs.Questions.{Step};
ghost use Rattle.definitions.specs.Sound.{Upheld};
ghost use Rattle.definitions.specs.States.{state};

use questions::is_opened;
use register::Register;
use removal::requests::remove_requests;
use terms::calls::Refusal;
use terms::ledger::Ledger;

/// Questions: opened, security, and it is eligible.
pub fn stop<R: Register>(
    ledger: &mut Ledger,
    register: &mut R,
    security: u64,
) -> Result<(), Refusal>
    requires { Upheld (R.holdings register.old) ledger.old }
    ensures step { Step (stop_asks (state (R.holdings register.old) ledger.old) security) tt (stop_does (state (R.holdings register.old) ledger.old) security) (state (R.holdings register.old) ledger.old) (state (R.holdings register.new) ledger.new) result }
    ensures upheld { Upheld (R.holdings register.new) ledger.new }
    ensures frame { R.frame register.new ≡ R.frame register.old }
{
    is_opened(ledger)?;
    let security = questions::security(register, security)?;
    if !ledger.securities[security].eligible {
        return Err(Refusal::WrongCondition);
    }
    ledger.securities[security].eligible = false;
    remove_requests(ledger, register, |request| request.security == security);
    Ok(())
}
