//! The table calendar: a bit for each day.
ghost use Rattle.std.specs.Prelude.{◌≡◌};
ghost use Rattle.calendar.specs.Business.{table_business};
ghost use Rattle.calendar.specs.Bounds.{table_bounded};

use crate::Calendar;
use days::LAST_DAY;

/// Day `d` is bit `d % 8`, 0 the lowest, of byte `d / 8`, set for a business day; days past the bytes are none.
#[derive(Clone, Copy)]
pub struct TableCalendar<'a> {
    bytes: &'a [u8],
}

impl<'a> TableCalendar<'a> {
    /// The calendar that these bytes are.
    pub fn new(bytes: &'a [u8]) -> TableCalendar<'a>
        ensures { result.bytes.now ≡ bytes.now }
    {
        TableCalendar { bytes }
    }
}

impl Calendar for TableCalendar<'_> {
    ghost business = { λ x d. table_business x.bytes.now d };

    ghost bounded = { λ x d h. table_bounded x.bytes.now d h };

    fn is_business(&self, day: u64) -> bool {
        let byte = self.bytes.get((day / 8) as usize);
        day <= LAST_DAY && byte.is_some_and(|byte| (*byte >> (day % 8)) & 1 == 1)
    }
}
