//! Theorems, each the contract of a function that does nothing else.
ghost use Rattle.instructions.specs.Theorems.{LeftmostFault};

pub use words::theorems::{lines_split_stands, numbers_written_stands, words_split_stands};

/// The fault of a line stands at the first place that is not as its verb asks.
pub fn leftmost_fault_stands()
    ensures { LeftmostFault }
{}
