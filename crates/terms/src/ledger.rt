//! The plain ledger of a book. Its lists stand in fixed arrays, since no call may want memory.
use crate::records::{Agent, BorrowingRequest, LendingRequest, Loan, Security};

/// The open requests, each list in its order, and how many update numbers were given.
#[derive(Drop)]
pub struct Requests {
    pub lending: [Option<LendingRequest>; 64],
    pub borrowing: [Option<BorrowingRequest>; 64],
    pub updates: u64,
}

/// The open loans in their order, and how many references were given out.
#[derive(Drop)]
pub struct Loans {
    pub standing: [Option<Loan>; 128],
    pub references: u64,
}

/// All that a book keeps beside its register. It was `opened` if its register was fit and its day in range.
// `opened` is a field and not an option of the rest, since a book that was not opened has its day and its register all the same. That
// a ledger is in order is said by contracts and not by its type: a deposit, or whether two requests match, is asked of any ledger.
#[derive(Drop)]
pub struct Ledger {
    pub opened: bool,
    pub today: u64,
    pub securities: [Security; 16],
    pub agents: [Agent; 16],
    pub requests: Requests,
    pub loans: Loans,
}
