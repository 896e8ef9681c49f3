//! The pair that is matched first.
ghost use Rattle.definitions.specs.Matching.{FirstPair, NoPair};
ghost use Rattle.definitions.specs.Sound.{Neat};
ghost use Rattle.definitions.specs.States.{state};
ghost use Rattle.matching.specs.Meets.{Meets};
ghost use Rattle.register.specs.Holdings.{Holdings};
ghost use Rattle.std.specs.Prelude.{Decides, MatchOption};

use crate::pairs::is_match;
use terms::ledger::Ledger;
use terms::records::{BorrowingRequest, LendingRequest};

/// The places of two partners in their lists.
#[derive(Clone, Copy)]
pub struct Places {
    pub lending: usize,
    pub borrowing: usize,
}

// Whether a place holds a partner of a borrowing request. Not by `is_some_and`: what its closure says is not
// proved for every holdings.
fn is_partner(ledger: &Ledger, place: &Option<LendingRequest>, borrowing: &BorrowingRequest) -> bool
    ensures { (h : Holdings) → Decides result (Meets (state h ledger.now) place.now borrowing.now) }
{
    match place {
        Some(lending) => is_match(ledger, &lending.request, &borrowing.request),
        None => false,
    }
}

/// The first borrowing request that has a partner, with its first partner, in list order: `None` just if no pair matches. What the register
/// holds makes no difference.
pub fn first_pair(ledger: &Ledger) -> Option<Places>
    requires { Neat ledger.now }
    ensures { (h : Holdings) → MatchOption result (NoPair (state h ledger.now)) (λ p. FirstPair (state h ledger.now) p.lending p.borrowing) }
{
    'search: {
        for (borrowing, borrower) in ledger.requests.borrowing.iter().enumerate() {
            let Some(request) = borrower else {
                break 'search None;
            };
            for (lending, lender) in ledger.requests.lending.iter().enumerate() {
                if is_partner(ledger, lender, request) {
                    break 'search Some(Places { lending, borrowing });
                }
            }
        }
        None
    }
}
