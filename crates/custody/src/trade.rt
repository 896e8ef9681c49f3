//! A trade passes free shares of a security from one account to another.
ghost use Rattle.std.specs.Prelude.{◌≡◌};
ghost use Rattle.definitions.specs.Custody.{trade_asks, trade_does};
ghost use Rattle.definitions.specs.Questions.{Step};
ghost use Rattle.definitions.specs.Sound.{Sound};
ghost use Rattle.definitions.specs.States.{state};

use questions::{account, is_opened, within};
use register::{CAP, Register};
use terms::calls::Refusal;
use terms::ledger::Ledger;

/// Questions: opened, lines, quantity and two accounts, and the giver has the shares free.
pub fn trade<R: Register>(
    ledger: &Ledger,
    register: &mut R,
    giver: u64,
    receiver: u64,
    security: u64,
    quantity: u64,
) -> Result<(), Refusal>
    requires { Sound (state (R.holdings register.old) ledger.now) }
    ensures step { Step (trade_asks (state (R.holdings register.old) ledger.now) giver receiver security quantity) tt (trade_does (state (R.holdings register.old) ledger.now) giver receiver security quantity) (state (R.holdings register.old) ledger.now) (state (R.holdings register.new) ledger.now) result }
    ensures sound { Sound (state (R.holdings register.new) ledger.now) }
    ensures frame { R.frame register.new ≡ R.frame register.old }
{
    is_opened(ledger)?;
    let giver = account(register, giver)?;
    let receiver = account(register, receiver)?;
    let security = questions::security(register, security)?;
    within(quantity, 1, CAP)?;
    if giver == receiver {
        return Err(Refusal::OutOfRange);
    }
    register
        .debit(giver, security, quantity)
        .map_err(|_| Refusal::TooFewShares)?;
    register.credit(receiver, security, quantity).unwrap();
    Ok(())
}
