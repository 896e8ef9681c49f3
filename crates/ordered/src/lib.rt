//! One list for every kind of record whose order is total, in memory that the caller supplies.
//!
//! Records stand strictly ascending from the first place on. Putting one in is refused exactly where a record equal to it in the order
//! stands there or, said second, where the memory is full; taking one out exactly where the place is empty. A refusal changes nothing, and a freed place is used again.
//! All records of which a test holds are taken out at once.
#![tactic(auto)]

pub mod list;
pub mod order;
mod places;
pub mod theorems;
