//! Which requests match, and the pair that is matched first.
#![tactic(auto)]

pub mod pairs;
pub mod search;
