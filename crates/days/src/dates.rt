//! Dates, and their conversion to days and back.
ghost use Rattle.std.specs.Prelude.{◌≡◌, Some};
ghost use Rattle.days.specs.Dates.{date_of, date_text, day_of};

use crate::LAST_DAY;
use crate::table::Month;
use std::fmt;

/// A year, a month and a day of the month. Any numbers may stand here: `day_of` says whether they are a date.
#[derive(Clone, Copy, PartialEq, Eq)]
pub struct Date {
    pub year: u16,
    pub month: u8,
    pub day: u8,
}

// The years whose days have numbers.
const FIRST_YEAR: u16 = 2000;

const LAST_YEAR: u16 = 2049;

/// The day of a date: `None` unless it is a true date of the years 2000 to 2049.
pub fn day_of(date: Date) -> Option<u64>
    ensures { result ≡ day_of date }
{
    let Date { year, month, day } = date;
    if !(FIRST_YEAR..=LAST_YEAR).contains(&year) || !(1..=12).contains(&month) || day < 1 {
        return None;
    }
    let month = Month {
        index: usize::from(year - FIRST_YEAR) * 12 + usize::from(month - 1),
    };
    if u64::from(day) > month.length() {
        return None;
    }
    Some(month.first_day() + u64::from(day - 1))
}

/// The date of a day: `None` past the last day.
pub fn date_of(day: u64) -> Option<Date>
    ensures { result ≡ date_of day }
{
    if day > LAST_DAY {
        return None;
    }
    let found = Month::of_day(day);
    let year = FIRST_YEAR + (found.index / 12) as u16;
    let month = (found.index % 12) as u8 + 1;
    let day = (day - found.first_day()) as u8 + 1;
    Some(Date { year, month, day })
}

/// As text, 1 March 2024 is 2024-03-01.
impl fmt::Display for Date {
    ghost output = { λ x. Some (date_text x) };

    fn fmt<W: fmt::Write>(&self, f: &mut fmt::Formatter<W>) -> fmt::Result {
        let Date { year, month, day } = *self;
        write!(f, "{year}-{month:02}-{day:02}")
    }
}
