//! The questions that calls have in common, each asked once: yes, or the refusal that a no gives.
#![tactic(auto)]

ghost use Rattle.std.specs.Prelude.{nat_lt};
ghost use Rattle.definitions.specs.Limits.{within};
ghost use Rattle.definitions.specs.Questions.{has_agent, opened_in};
ghost use Rattle.definitions.specs.States.{kept_of};
ghost use Rattle.questions.specs.Asked.{Asked, account_in, line_in, security_in};

use register::Register;
use std::ops::RangeBounds;
use terms::calls::Refusal;
use terms::ledger::Ledger;

/// Was the book opened?
pub fn is_opened(ledger: &Ledger) -> Result<(), Refusal>
    ensures { Asked (opened_in (kept_of ledger.now)) tt result }
{
    if ledger.opened {
        Ok(())
    } else {
        Err(Refusal::Unopened)
    }
}

// Is there a place with this number, of so many from 0?
fn place(number: u64, count: usize) -> Result<usize, Refusal>
    ensures { Asked (Refusal.Unknown, nat_lt number count) number result }
{
    if number < count as u64 {
        Ok(number as usize)
    } else {
        Err(Refusal::Unknown)
    }
}

/// Is there an agent with this number? It answers the agent's place.
pub fn agent(ledger: &Ledger, number: u64) -> Result<usize, Refusal>
    ensures { Asked (Refusal.Unknown, has_agent number) number result }
{
    place(number, ledger.agents.len())
}

/// Is there an account with this number? It answers the account's place.
pub fn account<R: Register>(register: &R, number: u64) -> Result<usize, Refusal>
    ensures { Asked (Refusal.Unknown, account_in (R.holdings register.now) number) number result }
{
    place(number, register.accounts())
}

/// Is there a security with this number? It answers the security's place.
pub fn security<R: Register>(register: &R, number: u64) -> Result<usize, Refusal>
    ensures { Asked (Refusal.Unknown, security_in (R.holdings register.now) number) number result }
{
    place(number, register.securities())
}

/// Is there a line of this account and this security? It answers their places.
pub fn line<R: Register>(
    register: &R,
    account: u64,
    security: u64,
) -> Result<(usize, usize), Refusal>
    ensures { Asked (Refusal.Unknown, line_in (R.holdings register.now) account security) (account, security) result }
{
    let account = place(account, register.accounts())?;
    let security = place(security, register.securities())?;
    Ok((account, security))
}

/// Is the number one from `low` to `high`?
pub fn within(number: u64, low: u64, high: u64) -> Result<(), Refusal>
    ensures { Asked (Refusal.OutOfRange, within low high number) tt result }
{
    if (low..=high).contains(&number) {
        Ok(())
    } else {
        Err(Refusal::OutOfRange)
    }
}
