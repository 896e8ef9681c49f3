//! The terms of the book: its records, the calls that may be put to it and what it answers, its plain ledger, and the orders
//! of its lists.
#![tactic(auto)]

pub mod calls;
pub mod faults;
pub mod ledger;
pub mod orders;
pub mod records;
pub mod theorems;
