//! The tenth business day after a day, by any calendar.
ghost use Rattle.calendar.specs.Notice.{Tenth};

use crate::Calendar;
use days::LAST_DAY;

// The place of the business day that is looked for.
const TENTH: usize = 10;

/// The tenth business day after today, which is not counted itself: `None` if there is none up to the last day.
pub fn tenth_business_day<C: Calendar>(calendar: &C, today: u64) -> Option<u64>
    ensures { Tenth (C.business calendar.now) today result }
{
    (today.saturating_add(1)..LAST_DAY + 1)
        .filter(|day| calendar.is_business(*day))
        .nth(TENTH - 1)
}
