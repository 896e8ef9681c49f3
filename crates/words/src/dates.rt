//! The day whose date a word writes.
ghost use Rattle.std.specs.Prelude.{◌≡◌};
ghost use Rattle.words.specs.Dates.{day_written, two_digits};

use days::dates::{Date, day_of};

// The number that two digits write.
fn two_digits(tens: u8, ones: u8) -> Option<u8>
    ensures { result ≡ two_digits tens ones }
{
    (tens.is_ascii_digit() && ones.is_ascii_digit()).then(|| (tens - b'0') * 10 + (ones - b'0'))
}

// The day whose date the word writes like 2024-03-01, if it is a true date of the years 2000 to 2049.
pub(crate) fn day_written(word: &[u8]) -> Option<u64>
    ensures { result ≡ day_written word.now }
{
    let &[c1, c2, y1, y2, b'-', m1, m2, b'-', d1, d2] = word else {
        return None;
    };
    let century = two_digits(c1, c2)?;
    let years = two_digits(y1, y2)?;
    let month = two_digits(m1, m2)?;
    let day = two_digits(d1, d2)?;
    let year = u16::from(century) * 100 + u16::from(years);
    day_of(Date { year, month, day })
}
