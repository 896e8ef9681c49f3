//! Where a mark stands in bytes.
ghost use Rattle.std.specs.Prelude.{◌≡◌, ◌≤◌, length};
ghost use Rattle.words.specs.Parts.{until};

// How many bytes stand before the first `mark`, or in all.
pub(crate) fn length_until(mark: u8, bytes: &[u8]) -> usize
    ensures within { result ≤ length bytes.now }
    ensures value { result ≡ until mark bytes.now }
{
    bytes.iter().position(|b| *b == mark).unwrap_or(bytes.len())
}
