//! The orders in which requests and loans stand.
ghost use Rattle.terms.specs.Orders.{borrows_before, lends_before, returns_before};
ghost use Rattle.std.proofs.Common.{rules};

use crate::records::{BorrowingRequest, LendingRequest, Loan};
use ordered::order::Ranked;
use std::cmp::Reverse;

/// Lowest rate first, then lowest update number.
impl Ranked for LendingRequest {
    ghost precedes = { lends_before };

    ghost asymmetric = { Prim.search rules };

    ghost chain = { Prim.search rules };

    fn before(&self, other: &Self) -> bool {
        let (x, y) = (self.request, other.request);
        (x.rate, x.update) < (y.rate, y.update)
    }
}

/// Highest rate first, then lowest update number.
impl Ranked for BorrowingRequest {
    ghost precedes = { borrows_before };

    ghost asymmetric = { Prim.search rules };

    ghost chain = { Prim.search rules };

    fn before(&self, other: &Self) -> bool {
        let (x, y) = (self.request, other.request);
        (Reverse(x.rate), x.update) < (Reverse(y.rate), y.update)
    }
}

/// Earliest return day first, then lowest reference.
impl Ranked for Loan {
    ghost precedes = { returns_before };

    ghost asymmetric = { Prim.search rules };

    ghost chain = { Prim.search rules };

    fn before(&self, other: &Self) -> bool {
        (self.due, self.reference) < (other.due, other.reference)
    }
}
