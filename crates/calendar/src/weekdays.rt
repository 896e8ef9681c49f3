//! The weekday calendar: Monday to Friday, less listed holidays.
ghost use Rattle.std.specs.Prelude.{◌≡◌, take};
ghost use Rattle.days.specs.Weekdays.{weekday_of};
ghost use Rattle.calendar.specs.Business.{is_in, is_workday, most_holidays, weekday_business};
ghost use Rattle.calendar.specs.Bounds.{weekday_bounded};

use crate::Calendar;
use days::weekdays::{Weekday, weekday_of};

// So many of the holidays count; later ones are ignored.
const MOST_HOLIDAYS: usize = 32;

/// Monday to Friday, less the first 32 of the holidays listed.
#[derive(Clone, Copy)]
pub struct WeekdayCalendar<'a> {
    holidays: &'a [u64],
}

impl<'a> WeekdayCalendar<'a> {
    /// The calendar with these holidays, listed in any order.
    pub fn new(holidays: &'a [u64]) -> WeekdayCalendar<'a>
        ensures { result.holidays.now ≡ holidays.now }
    {
        WeekdayCalendar { holidays }
    }
}

// Whether the day is a Monday to Friday.
fn is_workday(day: u64) -> bool
    ensures { result ≡ is_workday (weekday_of day) }
{
    !matches!(
        weekday_of(day),
        None | Some(Weekday::Saturday | Weekday::Sunday)
    )
}

// Whether the day is one of the holidays that count.
fn is_listed(holidays: &[u64], day: u64) -> bool
    ensures { result ≡ is_in (take most_holidays holidays.now) day }
{
    holidays
        .iter()
        .take(MOST_HOLIDAYS)
        .any(|holiday| *holiday == day)
}

impl Calendar for WeekdayCalendar<'_> {
    ghost business = { λ x d. weekday_business x.holidays.now d };

    ghost bounded = { λ x d h. weekday_bounded x.holidays.now d h };

    fn is_business(&self, day: u64) -> bool {
        is_workday(day) && !is_listed(self.holidays, day)
    }
}
