//! Theorems, each the contract of a function.
ghost use Rattle.std.specs.Prelude.{◌≡◌};
ghost use Rattle.register.specs.Holdings.{the_cap};
ghost use Rattle.register.specs.Theorems.{Laws};

use crate::CAP;

/// The constant of the code is the cap of the rules.
pub fn cap_stands() -> u64
    ensures { result ≡ the_cap }
{
    CAP
}

/// The laws of the four changes: what becomes of the totals, and that no other line is touched.
pub fn laws_stand()
    ensures { Laws }
{}
