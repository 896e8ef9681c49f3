//! Theorems, each the contract of a function that does nothing else.
ghost use Rattle.tariff.specs.Theorems.{Figures, Rounding};

/// The figures that the rules give, all together.
pub fn figures_stand()
    ensures { Figures }
{}

/// What it is to be rounded down and up, and that a need is exact when its quantity is split.
pub fn rounding_stands()
    ensures { Rounding }
{}
