//! Price posts a price, which comes into force at the next close.
ghost use Rattle.definitions.specs.Listing.{price_asks, price_does};
ghost use Rattle.definitions.specs.Questions.{Step};
ghost use Rattle.definitions.specs.Sound.{Upheld};
ghost use Rattle.definitions.specs.States.{state};

use questions::{is_opened, within};
use register::Register;
use terms::calls::Refusal;
use terms::ledger::Ledger;

const MOST_PRICE: u64 = 1_000_000;

/// Questions: opened, security, and the price is in range.
pub fn price<R: Register>(
    ledger: &mut Ledger,
    register: &R,
    security: u64,
    cents: u64,
) -> Result<(), Refusal>
    requires { Upheld (R.holdings register.now) ledger.old }
    ensures step { Step (price_asks (state (R.holdings register.now) ledger.old) security cents) tt (price_does (state (R.holdings register.now) ledger.old) security cents) (state (R.holdings register.now) ledger.old) (state (R.holdings register.now) ledger.new) result }
    ensures upheld { Upheld (R.holdings register.now) ledger.new }
{
    is_opened(ledger)?;
    let security = questions::security(register, security)?;
    within(cents, 1, MOST_PRICE)?;
    ledger.securities[security].posted = Some(cents);
    Ok(())
}
