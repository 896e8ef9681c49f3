//! Theorems, each the contract of a function that does nothing else.
ghost use Rattle.calendar.specs.Theorems.{Fortnight, OneTenth};

/// The tenth business day after a day is fixed by its definition.
pub fn one_tenth_stands()
    ensures { OneTenth }
{}

/// The worked figure comes out.
pub fn fortnight_stands()
    ensures { Fortnight }
{}
