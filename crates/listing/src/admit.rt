//! Admit makes a security eligible.
ghost use Rattle.definitions.specs.Listing.{admit_asks, admit_does};
ghost use Rattle.definitions.specs.Questions.{Step};
ghost use Rattle.definitions.specs.Sound.{Upheld};
ghost use Rattle.definitions.specs.States.{state};

use questions::is_opened;
use register::Register;
use terms::calls::Refusal;
use terms::ledger::Ledger;

/// Questions: opened, security, and it is not eligible yet.
pub fn admit<R: Register>(ledger: &mut Ledger, register: &R, security: u64) -> Result<(), Refusal>
    requires { Upheld (R.holdings register.now) ledger.old }
    ensures step { Step (admit_asks (state (R.holdings register.now) ledger.old) security) tt (admit_does (state (R.holdings register.now) ledger.old) security) (state (R.holdings register.now) ledger.old) (state (R.holdings register.now) ledger.new) result }
    ensures upheld { Upheld (R.holdings register.now) ledger.new }
{
    is_opened(ledger)?;
    let security = questions::security(register, security)?;
    if ledger.securities[security].eligible {
        return Err(Refusal::WrongCondition);
    }
    ledger.securities[security].eligible = true;
    Ok(())
}
