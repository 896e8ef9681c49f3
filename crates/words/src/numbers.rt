//! The number that a word writes.
ghost use Rattle.std.specs.Prelude.{◌≡◌, ◌≤◌, length};
ghost use Rattle.words.specs.Numbers.{number_written, digits};

const MOST_DIGITS: usize = 13;

const ZERO: u8 = b'0';

// The number that the word writes in 1 to 13 digits, with no needless zero in front.
pub(crate) fn number_of(word: &[u8]) -> Option<u64>
    ensures { result ≡ number_written word.now }
{
    if word.is_empty() || word.len() > MOST_DIGITS {
        return None;
    }
    if word[0] == ZERO && word.len() > 1 {
        return None;
    }
    digits_of(word)
}

// The number that at most 13 digits write. A loop, since in a `try_fold` it is not proved that ten times the number so far fits.
fn digits_of(word: &[u8]) -> Option<u64>
    requires { length word.now ≤ 13 }
    ensures { result ≡ digits 0 word.now }
{
    let mut n: u64 = 0;
    for b in word {
        if !b.is_ascii_digit() {
            return None;
        }
        n = n * 10 + u64::from(*b - b'0');
    }
    Some(n)
}
