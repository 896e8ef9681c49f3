//! A deposit brings shares onto a line.
ghost use Rattle.std.specs.Prelude.{◌≡◌};
ghost use Rattle.definitions.specs.Custody.{deposit_asks, deposit_does};
ghost use Rattle.definitions.specs.Questions.{Step};
ghost use Rattle.definitions.specs.Sound.{Sound};
ghost use Rattle.definitions.specs.States.{state};

use crate::totals::total_within_cap;
use questions::{is_opened, line, within};
use register::{CAP, Register, add_within_cap};
use terms::calls::Refusal;
use terms::ledger::Ledger;

/// Questions: opened, line, quantity, and the security's total stays within the cap.
pub fn deposit<R: Register>(
    ledger: &Ledger,
    register: &mut R,
    account: u64,
    security: u64,
    quantity: u64,
) -> Result<(), Refusal>
    requires { Sound (state (R.holdings register.old) ledger.now) }
    ensures step { Step (deposit_asks (state (R.holdings register.old) ledger.now) account security quantity) tt (deposit_does (state (R.holdings register.old) ledger.now) account security quantity) (state (R.holdings register.old) ledger.now) (state (R.holdings register.new) ledger.now) result }
    ensures sound { Sound (state (R.holdings register.new) ledger.now) }
    ensures frame { R.frame register.new ≡ R.frame register.old }
{
    is_opened(ledger)?;
    let (account, security) = line(register, account, security)?;
    within(quantity, 1, CAP)?;
    let total = total_within_cap(register, security).ok_or(Refusal::OverCap)?;
    add_within_cap(total, quantity).ok_or(Refusal::OverCap)?;
    register.credit(account, security, quantity).unwrap();
    Ok(())
}
