//! Free shares that come, go and pass from one account to another: deposit, withdraw and trade.
//!
//! A book has its register and its ledger as fields, and what holds of the two as a fact of its own. Here they come apart, since
//! each call is lent as much of them as it may change.
#![tactic(auto)]

pub mod deposit;
pub mod totals;
pub mod trade;
pub mod withdraw;
