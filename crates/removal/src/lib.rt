//! Requests that leave their lists: they are taken out, and what is left of the lending ones is released.
#![tactic(auto)]

mod release;
pub mod requests;
