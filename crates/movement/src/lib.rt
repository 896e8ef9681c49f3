//! A share register over an opening that it only reads, with a movement beside each number.
#![tactic(auto)]

ghost use Rattle.std.specs.Prelude.{IfOk};
ghost use Rattle.image.specs.View.{image_of};
ghost use Rattle.movement.specs.Meaning.{holdings_of, moved_outside, own_memory};
ghost use Rattle.movement.specs.Opening.{Opened};

use image::Image;
use register::changes::{Numbers, credit, debit, hold, release};
use register::{Refused, Register};
use std::alloc::{AllocError, Global};

mod lines;
mod numbers;
mod opening;
mod state;

use lines::MovementKey;
use numbers::Movement;
use opening::taken;
pub use opening::{MAX_ACCOUNTS, MAX_SECURITIES};
pub use state::MovementRegister;

impl<'a> MovementRegister<'a> {
    /// A register that holds the opening where it has at most 64 accounts, at most 16 securities and no number over the cap, and
    /// nothing where it has not. Want of memory is an error.
    pub fn new(heap: Global, opening: Image<'a>) -> Result<MovementRegister<'a>, AllocError>
        ensures { IfOk result (λ x. Opened (image_of opening.entry) (holdings_of x)) }
    {
        let opening = taken(opening);
        let still = Movement {
            free: 0,
            reserved: 0,
        };
        let movements = vec![in heap; still; opening.accounts() * opening.securities()]?;
        Ok(MovementRegister { opening, movements })
    }
}

impl<'a> Register for MovementRegister<'a> {
    ghost holdings = { λ x. holdings_of x };

    ghost frame = { λ _. own_memory };

    ghost outside = { λ x a s h. moved_outside x a s h };

    fn accounts(&self) -> usize {
        self.opening.accounts()
    }

    fn securities(&self) -> usize {
        self.opening.securities()
    }

    // The next two not by `map_or`: what its closure says of the line is not proved.
    fn free(&self, account: usize, security: usize) -> u64 {
        match self.line(account, security) {
            Some(line) => self.free_of(line),
            None => 0,
        }
    }

    fn reserved(&self, account: usize, security: usize) -> u64 {
        match self.line(account, security) {
            Some(line) => self.reserved_of(line),
            None => 0,
        }
    }

    fn credit(&mut self, account: usize, security: usize, shares: u64) -> Result<(), Refused> {
        credit(self, MovementKey(()), account, security, shares)
    }

    fn debit(&mut self, account: usize, security: usize, shares: u64) -> Result<(), Refused> {
        debit(self, MovementKey(()), account, security, shares)
    }

    fn hold(&mut self, account: usize, security: usize, shares: u64) -> Result<(), Refused> {
        hold(self, MovementKey(()), account, security, shares)
    }

    fn release(&mut self, account: usize, security: usize, shares: u64) -> Result<(), Refused> {
        release(self, MovementKey(()), account, security, shares)
    }
}
