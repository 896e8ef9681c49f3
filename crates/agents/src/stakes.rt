//! What pledge and unpledge ask first.
ghost use Rattle.std.specs.Prelude.{◌≡◌, true, ◌&&◌, MatchResult, Some, None, [], ◌∷◌, nat_lt};
ghost use Rattle.register.specs.Holdings.{the_cap};
ghost use Rattle.terms.specs.Numbers.{kind_of};
ghost use Rattle.definitions.specs.Limits.{kind_count, within};
ghost use Rattle.definitions.specs.Questions.{first_no, has_agent, opened_in};
ghost use Rattle.definitions.specs.States.{kept_of};

use questions::{is_opened, within};
use register::CAP;
use terms::calls::Refusal;
use terms::ledger::Ledger;
use terms::records::Kind;

/// Opened, agent and kind, cents. It answers the agent's place and the kind.
pub(crate) fn stake(
    ledger: &Ledger,
    agent: u64,
    kind: u64,
    cents: u64,
) -> Result<(usize, Kind), Refusal>
    ensures { MatchResult result (λ v. (ledger.now.opened ≡ true) × (has_agent agent ≡ true) × (within 1 the_cap cents ≡ true) × (v.0 ≡ agent) × (Some v.1 ≡ kind_of kind)) (λ r. first_no (opened_in (kept_of ledger.now) ∷ (Refusal.Unknown, has_agent agent && nat_lt kind kind_count) ∷ (Refusal.OutOfRange, within 1 the_cap cents) ∷ []) ≡ Some r) }
{
    is_opened(ledger)?;
    let agent = questions::agent(ledger, agent)?;
    let kind = Kind::try_from(kind)?;
    within(cents, 1, CAP)?;
    Ok((agent, kind))
}
