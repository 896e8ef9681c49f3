//! What is to be covered by collateral.
ghost use Rattle.std.specs.Prelude.{◌≡◌};
ghost use Rattle.definitions.specs.Cover.{loan_exposure, request_exposure};
ghost use Rattle.terms.specs.declared.records.Exposure.{Exposure};

use terms::records::{BorrowingRequest, Exposure, Loan};

/// A record of shares that an agent asks to borrow, or has borrowed.
pub trait Exposed {
    // What of it is to be covered, and by whom.
    ghost exposes: { Self → Exposure };

    /// What of it is to be covered, and by whom.
    fn exposure(&self) -> Exposure
        ensures { result ≡ exposes self.now };
}

/// What is not matched of a request is to be covered.
impl Exposed for BorrowingRequest {
    ghost exposes = { request_exposure };

    fn exposure(&self) -> Exposure {
        Exposure {
            agent: self.request.agent,
            security: self.request.security,
            quantity: self.request.left,
        }
    }
}

/// A loan is to be covered by its borrower.
impl Exposed for Loan {
    ghost exposes = { loan_exposure };

    fn exposure(&self) -> Exposure {
        Exposure {
            agent: self.borrower.agent,
            security: self.security,
            quantity: self.quantity,
        }
    }
}
