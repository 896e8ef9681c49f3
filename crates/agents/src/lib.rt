//! The agents: what they pledge, and how they stand. The calls pledge, unpledge, suspend and noon.
#![tactic(auto)]

pub mod noon;
pub mod pledge;
mod stakes;
pub mod suspend;
pub mod unpledge;
