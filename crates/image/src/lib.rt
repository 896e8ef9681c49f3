//! Share registers in bytes: a view that only reads, and a register over the caller's own bytes.
#![tactic(auto)]

ghost use Rattle.std.specs.Prelude.{◌≡◌};
ghost use Rattle.image.specs.Image.{frame_of, imaged};
ghost use Rattle.image.specs.Zero.{imaged_outside};

use register::changes::{credit, debit, hold, release};
use register::{Refused, Register};

mod lines;
mod numbers;
pub mod theorems;
mod view;
mod words;

use numbers::ImageKey;
pub use view::Image;

/// A register over bytes that it borrows. It never reads or writes the bytes past its last number.
#[derive(Drop)]
pub struct ImageRegister<'a> {
    bytes: &'a mut [u8],
}

impl<'a> ImageRegister<'a> {
    /// The register in these bytes, which are left as they are.
    pub fn new(bytes: &'a mut [u8]) -> ImageRegister<'a>
        ensures same { result.bytes.now ≡ bytes.old }
        ensures lent { result.bytes.ghost_name ≡ bytes.entry.ghost_name }
    {
        ImageRegister { bytes }
    }
}

impl<'a> Register for ImageRegister<'a> {
    ghost holdings = { λ x. imaged x.bytes.now };

    ghost frame = { λ x. frame_of x.bytes.ghost_name x.bytes.now };

    ghost outside = { λ x a s h. imaged_outside x.bytes.now a s h };

    fn accounts(&self) -> usize {
        Image::new(self.bytes).accounts()
    }

    fn securities(&self) -> usize {
        Image::new(self.bytes).securities()
    }

    fn free(&self, account: usize, security: usize) -> u64 {
        Image::new(self.bytes).free(account, security)
    }

    fn reserved(&self, account: usize, security: usize) -> u64 {
        Image::new(self.bytes).reserved(account, security)
    }

    fn credit(&mut self, account: usize, security: usize, shares: u64) -> Result<(), Refused> {
        credit(self, ImageKey(()), account, security, shares)
    }

    fn debit(&mut self, account: usize, security: usize, shares: u64) -> Result<(), Refused> {
        debit(self, ImageKey(()), account, security, shares)
    }

    fn hold(&mut self, account: usize, security: usize, shares: u64) -> Result<(), Refused> {
        hold(self, ImageKey(()), account, security, shares)
    }

    fn release(&mut self, account: usize, security: usize, shares: u64) -> Result<(), Refused> {
        release(self, ImageKey(()), account, security, shares)
    }
}
