//! Rates, and the parts of an amount that they give.
ghost use Rattle.std.specs.Prelude.{◌≡◌, ◌≤◌};
ghost use Rattle.definitions.specs.Tariff.{part_down, part_up};

/// A rate in hundredths of a percent, no more than the whole.
#[derive(Clone, Copy)]
pub(crate) struct Rate {
    pub(crate) hundredths: u64,
    ghost at_most_whole: { hundredths ≤ 10000 },
}

const WHOLE: u128 = 10_000;

impl Rate {
    // The part of an amount, rounded down.
    pub(crate) fn part_down(self, amount: u64) -> u64
        ensures { result ≡ part_down self.hundredths amount }
    {
        (u128::from(amount) * u128::from(self.hundredths) / WHOLE) as u64
    }

    // The part of an amount, rounded up.
    pub(crate) fn part_up(self, amount: u64) -> u64
        ensures { result ≡ part_up self.hundredths amount }
    {
        (u128::from(amount) * u128::from(self.hundredths)).div_ceil(WHOLE) as u64
    }
}
