//! A withdrawal takes free shares from a line.
ghost use Rattle.std.specs.Prelude.{◌≡◌};
ghost use Rattle.definitions.specs.Custody.{withdraw_asks, withdraw_does};
ghost use Rattle.definitions.specs.Questions.{Step};
ghost use Rattle.definitions.specs.Sound.{Sound};
ghost use Rattle.definitions.specs.States.{state};

use questions::{is_opened, line, within};
use register::{CAP, Register};
use terms::calls::Refusal;
use terms::ledger::Ledger;

/// Questions: opened, line, quantity, and the shares are free.
pub fn withdraw<R: Register>(
    ledger: &Ledger,
    register: &mut R,
    account: u64,
    security: u64,
    quantity: u64,
) -> Result<(), Refusal>
    requires { Sound (state (R.holdings register.old) ledger.now) }
    ensures step { Step (withdraw_asks (state (R.holdings register.old) ledger.now) account security quantity) tt (withdraw_does (state (R.holdings register.old) ledger.now) account security quantity) (state (R.holdings register.old) ledger.now) (state (R.holdings register.new) ledger.now) result }
    ensures sound { Sound (state (R.holdings register.new) ledger.now) }
    ensures frame { R.frame register.new ≡ R.frame register.old }
{
    is_opened(ledger)?;
    let (account, security) = line(register, account, security)?;
    within(quantity, 1, CAP)?;
    register
        .debit(account, security, quantity)
        .map_err(|_| Refusal::TooFewShares)
}
