//! The book: a register, a calendar and a ledger that stay in step, whatever calls are put to it.
#![tactic(auto)]

pub mod books;
mod fitness;
pub mod runs;

/// The last day on which a book may be opened.
pub const LAST_OPENING: u64 = 17_897;
