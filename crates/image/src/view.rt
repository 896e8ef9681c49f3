//! A register in bytes, only to be read.
ghost use Rattle.std.specs.Prelude.{◌≡◌};
ghost use Rattle.image.specs.View.{image_of};

use crate::lines::{counts_in, find_line};
use crate::words::read_u64;

/// A view of a register in bytes.
#[derive(Clone, Copy)]
pub struct Image<'a> {
    bytes: &'a [u8],
}

impl<'a> Image<'a> {
    /// The view of these bytes.
    pub fn new(bytes: &'a [u8]) -> Image<'a>
        ensures { result.bytes.now ≡ bytes.now }
    {
        Image { bytes }
    }

    /// The number of accounts: 0 where the bytes are too few for the register that they announce.
    pub fn accounts(self) -> usize
        ensures { result ≡ (image_of self.entry).accounts }
    {
        counts_in(self.bytes).accounts
    }

    /// The number of securities: 0 where the bytes are too few.
    pub fn securities(self) -> usize
        ensures { result ≡ (image_of self.entry).securities }
    {
        counts_in(self.bytes).securities
    }

    // The next two differ in the place that they read alone, and are one call each.

    /// The free shares of a line: 0 outside the counts.
    pub fn free(self, account: usize, security: usize) -> u64
        ensures { result ≡ (image_of self.entry).free account security }
    {
        find_line(self.bytes, account, security).map_or(
            0,
            |line| read_u64(self.bytes, line.free_at),
        )
    }

    /// The reserved shares of a line: 0 outside the counts.
    pub fn reserved(self, account: usize, security: usize) -> u64
        ensures { result ≡ (image_of self.entry).reserved account security }
    {
        find_line(self.bytes, account, security).map_or(
            0,
            |line| read_u64(self.bytes, line.reserved_at),
        )
    }
}
