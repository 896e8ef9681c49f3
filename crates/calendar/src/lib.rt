//! Calendars: which days are business days, and the tenth business day after a day.
#![tactic(auto)]

ghost use Rattle.std.specs.Prelude.{◌≡◌, ℕ, Bool};
ghost use Rattle.calendar.specs.Business.{Bounded};

pub mod notice;
pub mod tables;
pub mod theorems;
pub mod weekdays;

/// A calendar means a fixed set of business days among day 0 to day 18,262.
pub trait Calendar {
    ghost business: { Self → ℕ → Bool };

    // No day past the last is in the set.
    ghost bounded: { Bounded business };

    /// Whether a day is a business day.
    fn is_business(&self, day: u64) -> bool
        ensures { result ≡ business self.now day };
}

#[cfg(test)]
mod tests {
    use super::*;
    use crate::notice::tenth_business_day;
    use crate::tables::*;
    use crate::weekdays::*;

    #[test]
    fn weeks(rt: HostRuntime) {
        let plain = WeekdayCalendar::new(&[]);
        assert!(rt; tenth_business_day(&plain, 8826) == Some(8840));
        assert!(rt; tenth_business_day(&plain, 18_255) == None);
        assert!(rt; !plain.is_business(0));
        assert!(rt; plain.is_business(18_262));
        assert!(rt; !plain.is_business(18_264));
        let with_holiday = WeekdayCalendar::new(&[8830, 8830, 99_999]);
        assert!(rt; tenth_business_day(&with_holiday, 8826) == Some(8843));
    }

    #[test]
    fn bits(rt: HostRuntime) {
        let few = TableCalendar::new(&[0b0111_1100, 1]);
        assert!(rt; !few.is_business(1));
        assert!(rt; few.is_business(2));
        assert!(rt; few.is_business(8));
        assert!(rt; !few.is_business(9));
        assert!(rt; !few.is_business(16));
        assert!(rt; tenth_business_day(&few, 0) == None);
    }
}
