//! Lists of changes, put to any register, to two registers, and to bytes.
ghost use Rattle.std.specs.Prelude.{◌≡◌};
ghost use Rattle.image.specs.Image.{beyond, imaged};
ghost use Rattle.registers.specs.Lists.{Runs};

use crate::changes::{Answer, Change, put};
use crate::samples::COUNT;
use image::ImageRegister;
use register::{Refused, Register};

/// Puts each change to the register, one after the other.
pub fn put_all<R: Register>(register: &mut R, changes: &[Change; COUNT]) -> [Answer; COUNT]
    ensures run { Runs (R.holdings register.old) changes.now result (R.holdings register.new) }
    ensures frame { R.frame register.new ≡ R.frame register.old }
{
    let none = Answer {
        outcome: Err(Refused),
        free: 0,
        reserved: 0,
    };
    let mut answers = [none; COUNT];

    // A `map` over the changes would promise nothing of the register that its closure changes.
    for (i, change) in changes.iter().enumerate() {
        answers[i] = put(register, *change);
    }
    answers
}

/// Puts each change to both registers. Registers that hold the same answer the same, and then hold the same.
pub fn put_both<R: Register, S: Register>(
    first: &mut R,
    second: &mut S,
    changes: &[Change; COUNT],
) -> ([Answer; COUNT], [Answer; COUNT])
    ensures first { Runs (R.Register.holdings first.old) changes.now result.0 (R.Register.holdings first.new) }
    ensures second { Runs (S.Register.holdings second.old) changes.now result.1 (S.Register.holdings second.new) }
    ensures alike { R.Register.holdings first.old ≡ S.Register.holdings second.old → (result.0 ≡ result.1) × (R.Register.holdings first.new ≡ S.Register.holdings second.new) }
    ensures frames { (R.Register.frame first.new ≡ R.Register.frame first.old) × (S.Register.frame second.new ≡ S.Register.frame second.old) }
{
    let answers = put_all(first, changes);
    (answers, put_all(second, changes))
}

/// Puts each change to the register in these bytes. The bytes beyond its numbers stay.
pub fn put_to_bytes(bytes: &mut [u8], changes: &[Change; COUNT]) -> [Answer; COUNT]
    ensures run { Runs (imaged bytes.old) changes.now result (imaged bytes.new) }
    ensures beyond { beyond bytes.new ≡ beyond bytes.old }
{
    let mut register = ImageRegister::new(bytes);
    put_all(&mut register, changes)
}
