//! What a text of instructions is made of: its lines, the words of a line, and what each word says.
#![tactic(auto)]

mod dates;
pub mod faults;
pub mod kinds;
pub mod lines;
mod marks;
mod numbers;
mod operands;
pub mod reader;
pub mod theorems;
pub mod verbs;
