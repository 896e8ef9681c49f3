//! Numbers in bytes, most significant byte first.
ghost use Rattle.std.specs.Prelude.{◌≡◌, ◌+◌, ◌<◌, ◌≤◌, length, slice_range};
ghost use Rattle.image.specs.Image.{u16_at, u64_at};
ghost use Rattle.image.specs.Inner.{Stored};

// The `N` bytes from `at` on. Copied, since the `unwrap` of a `first_chunk` stays in the program as a test, and in a loop the counts are
// then read anew for each number.
fn word_at<const N: usize>(bytes: &[u8], at: usize) -> [u8; N]
    requires { at + N ≤ length bytes.now }
    ensures { result ≡ slice_range bytes.now at (at + N) }
{
    let mut word = [0; N];
    word.copy_from_slice(&bytes[at..at + N]);
    word
}

// The number in the two bytes from `at` on.
pub(crate) fn read_u16(bytes: &[u8], at: usize) -> u16
    requires { at + 2 ≤ length bytes.now }
    ensures { result ≡ u16_at bytes.now at }
{
    u16::from_be_bytes(word_at(bytes, at))
}

// The number in the eight bytes from `at` on.
pub(crate) fn read_u64(bytes: &[u8], at: usize) -> u64
    requires { at + 8 ≤ length bytes.now }
    ensures { result ≡ u64_at bytes.now at }
{
    u64::from_be_bytes(word_at(bytes, at))
}

// Writes a number into the eight bytes from `at` on.
pub(crate) fn write_u64(bytes: &mut [u8], at: usize, value: u64)
    requires { at + 8 ≤ length bytes.old }
    ensures { Stored bytes.old bytes.new at value }
{
    bytes[at..at + 8].copy_from_slice(&value.to_be_bytes());
}
