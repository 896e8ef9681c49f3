//! What an agent has to cover, whether its collateral covers it, and how its standing changes.
#![tactic(auto)]

pub mod cover;
pub mod exposures;
pub mod needs;
pub mod standings;
