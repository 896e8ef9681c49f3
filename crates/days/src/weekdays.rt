//! The days of the week.
ghost use Rattle.std.specs.Prelude.{◌≡◌, Some};
ghost use Rattle.days.specs.Weekdays.{weekday_of, weekday_text};

use crate::LAST_DAY;
use std::fmt;

/// The days of the week, from that of day 0 on.
#[derive(Clone, Copy, PartialEq, Eq)]
pub enum Weekday {
    Saturday,
    Sunday,
    Monday,
    Tuesday,
    Wednesday,
    Thursday,
    Friday,
}

// The week that day 0 begins.
const WEEK: [Weekday; 7] = [
    Weekday::Saturday,
    Weekday::Sunday,
    Weekday::Monday,
    Weekday::Tuesday,
    Weekday::Wednesday,
    Weekday::Thursday,
    Weekday::Friday,
];

/// The weekday of a day: `None` past the last day.
pub fn weekday_of(day: u64) -> Option<Weekday>
    ensures { result ≡ weekday_of day }
{
    if day > LAST_DAY {
        return None;
    }
    Some(WEEK[(day % 7) as usize])
}

impl fmt::Display for Weekday {
    ghost output = { λ w. Some (weekday_text w) };

    fn fmt<W: fmt::Write>(&self, f: &mut fmt::Formatter<W>) -> fmt::Result {
        f.write_str(match self {
            Weekday::Saturday => "Saturday",
            Weekday::Sunday => "Sunday",
            Weekday::Monday => "Monday",
            Weekday::Tuesday => "Tuesday",
            Weekday::Wednesday => "Wednesday",
            Weekday::Thursday => "Thursday",
            Weekday::Friday => "Friday",
        })
    }
}
