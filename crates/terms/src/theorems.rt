//! Theorems, each the contract of a function that does nothing else.
ghost use Rattle.terms.specs.Theorems.{OwnNumbers, SameKeys};

/// Each refusal, fault, outcome and kind has a number of its own.
pub fn own_numbers_stand()
    ensures { OwnNumbers }
{}

/// Records that are equal in the order of their list have the same two keys.
pub fn same_keys_stand()
    ensures { SameKeys }
{}
