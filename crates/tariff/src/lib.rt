//! What a loan is worth, asks for in collateral, and costs.
#![tactic(auto)]

pub mod bills;
pub mod cover;
pub mod fines;
mod rates;
pub mod theorems;
