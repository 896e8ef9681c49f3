//! Whether a lending and a borrowing request match.
ghost use Rattle.std.specs.Prelude.{◌≡◌, Decides, not};
ghost use Rattle.definitions.specs.Matching.{Matches, shares_with};
ghost use Rattle.definitions.specs.States.{is_suspended, kept_of, state, suspended};
ghost use Rattle.register.specs.Holdings.{Holdings};

use terms::ledger::Ledger;
use terms::records::{Request, Sharing, Standing};

/// Whether a request's agent is not suspended.
pub fn is_active(ledger: &Ledger, request: &Request) -> bool
    ensures { result ≡ not (suspended (kept_of ledger.now) request.now.agent) }
{
    ledger
        .agents
        .get(request.agent)
        .map_or(true, |agent| agent.standing != Standing::Suspended)
}

// Whether a request may be matched with one that has so much left: one for a single partner has no more left itself.
fn shares_with(sharing: Sharing, own: u64, other: u64) -> bool
    ensures { result ≡ shares_with sharing own other }
{
    sharing == Sharing::Many || own <= other
}

/// Whether a lending and a borrowing request match: the same security, two accounts, both active, a rate and a duration that suit
/// both, and whichever is for one partner has no more left than the other; whatever the register holds.
pub fn is_match(ledger: &Ledger, lending: &Request, borrowing: &Request) -> bool
    ensures { (h : Holdings) → Decides result (Matches (state h ledger.now) lending.now borrowing.now) }
{
    lending.security == borrowing.security
        && lending.account != borrowing.account
        && is_active(ledger, lending)
        && is_active(ledger, borrowing)
        && lending.rate <= borrowing.rate
        && borrowing.duration <= lending.duration
        && shares_with(lending.sharing, lending.left, borrowing.left)
        && shares_with(borrowing.sharing, borrowing.left, lending.left)
}
