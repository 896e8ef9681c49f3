//! What the almanac says of one day.
ghost use Rattle.std.specs.Prelude.{◌≡◌, Some};
ghost use Rattle.almanac.specs.Almanac.{differs as differs_from, entry_of, line_text};

use days::dates::{Date, date_of, day_of};
use days::weekdays::{Weekday, weekday_of};
use std::fmt;

/// A day with its date and weekday, and the day that its date has.
#[derive(Clone, Copy)]
pub struct Entry {
    pub day: u64,
    pub date: Date,
    pub weekday: Weekday,
    pub again: Option<u64>,
}

/// The entry of a day, made by converting it to its date and back: `None` past the last day.
pub fn entry_of(day: u64) -> Option<Entry>
    ensures { result ≡ entry_of day }
{
    let date = date_of(day)?;
    let weekday = weekday_of(day)?;
    let again = day_of(date);
    Some(Entry {
        day,
        date,
        weekday,
        again,
    })
}

impl Entry {
    /// Whether the date of the entry's day has another day, or none.
    pub fn differs(&self) -> bool
        ensures { result ≡ differs_from self.now.day self.now.again }
    {
        self.again != Some(self.day)
    }
}

/// The line of the entry, where the day that came back is marked if it differs.
impl fmt::Display for Entry {
    ghost output = { λ e. Some (line_text e) };

    fn fmt<W: fmt::Write>(&self, f: &mut fmt::Formatter<W>) -> fmt::Result {
        let Entry {
            day,
            date,
            weekday,
            again,
        } = *self;
        write!(f, "{day} {date} {weekday} ")?;
        match again {
            Some(same) if same == day => writeln!(f, "{same}"),
            Some(other) => writeln!(f, "{other} differs"),
            None => writeln!(f, "none differs"),
        }
    }
}
