//! What is due on a loan that was not delivered, in cents, each amount rounded up.
ghost use Rattle.std.specs.Prelude.{◌≡◌};
ghost use Rattle.definitions.specs.Tariff.{fine_on, penalty_on};

use crate::rates::Rate;

// The rates of the fine and of the penalty, and the ends of the fine.
const FINE: Rate = Rate { hundredths: 14 };

const LEAST_FINE: u64 = 300_000;

const MOST_FINE: u64 = 1_000_000;

const PENALTY: Rate = Rate { hundredths: 200 };

/// The fine on a loan of a value that was not delivered.
pub fn fine(value: u64) -> u64
    ensures { result ≡ fine_on value }
{
    FINE.part_up(value).clamp(LEAST_FINE, MOST_FINE)
}

/// The penalty on a loan of a value that is closed by cash.
pub fn penalty(value: u64) -> u64
    ensures { result ≡ penalty_on value }
{
    PENALTY.part_up(value)
}
