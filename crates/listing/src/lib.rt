//! Which securities may be lent, and at what price: admit, stop and price.
//!
//! Register and ledger come apart here, and not as the book's fields, since each call is lent as much of them as it may change.
#![tactic(auto)]

pub mod admit;
pub mod price;
pub mod stop;
