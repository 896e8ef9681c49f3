//! Day numbers, dates and weekdays. Day 0 is Saturday 1 January 2000, and day 18,262 is 31 December 2049.
#![tactic(auto)]

pub mod dates;
mod table;
pub mod theorems;
pub mod weekdays;

/// The last day that has a number: 31 December 2049.
pub const LAST_DAY: u64 = 18_262;

#[cfg(test)]
mod tests {
    use crate::dates::*;
    use crate::weekdays::*;

    fn on(year: u16, month: u8, day: u8) -> Date {
        Date { year, month, day }
    }

    #[test]
    fn dates_to_days(rt: HostRuntime) {
        assert!(rt; day_of(on(2000, 3, 1)) == Some(60));
        assert!(rt; day_of(on(2024, 3, 1)) == Some(8826));
        assert!(rt; day_of(on(2049, 12, 31)) == Some(18262));
        assert!(rt; day_of(on(2023, 2, 29)) == None);
        assert!(rt; day_of(on(2024, 13, 1)) == None);
        assert!(rt; day_of(on(2050, 1, 1)) == None);
    }

    #[test]
    fn days_to_dates(rt: HostRuntime) {
        assert!(rt; date_of(8826) == Some(on(2024, 3, 1)));
        assert!(rt; weekday_of(8826) == Some(Weekday::Friday));
        assert!(rt; date_of(18263) == None);
        assert!(rt; weekday_of(18263) == None);
    }
}
