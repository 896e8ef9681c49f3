//! The lines of a register, as the four changes read and set them.
ghost use Rattle.std.specs.Prelude.{◌≡◌, MatchOption};
ghost use Rattle.register.specs.Holdings.{Inside};
ghost use Rattle.image.specs.View.{image_of};
ghost use Rattle.movement.specs.Inner.{Placed};
ghost use Rattle.movement.specs.Meaning.{holdings_of, own_memory};

use crate::numbers::{after, towards};
use crate::state::MovementRegister;
use register::changes::Numbers;

/// The key to the numbers. Nobody outside this crate comes by one.
#[derive(Clone, Copy)]
pub struct MovementKey(pub(crate) ());

/// A line, and the index of its movement.
#[derive(Clone, Copy)]
pub struct Line {
    pub(crate) account: usize,
    pub(crate) security: usize,
    pub(crate) index: usize,
}

impl<'a> MovementRegister<'a> {
    // The index of a line, or `None` outside the counts.
    fn place(&self, account: usize, security: usize) -> Option<usize>
        ensures { MatchOption result (Inside (holdings_of self.now) account security → ⊥) (λ i. Placed (image_of self.now.opening).accounts (image_of self.now.opening).securities account security i) }
    {
        let securities = self.opening.securities();
        if account >= self.opening.accounts() || security >= securities {
            return None;
        }
        Some(account * securities + security)
    }
}

impl<'a> Numbers for MovementRegister<'a> {
    ghost holdings = { λ x. holdings_of x };

    ghost frame = { λ _. own_memory };

    type Key = MovementKey;

    type Line = Line;

    ghost account_of = { λ line. line.account };

    ghost security_of = { λ line. line.security };

    ghost found = { λ x line. Placed (image_of x.opening).accounts (image_of x.opening).securities line.account line.security line.index };

    fn line(&self, account: usize, security: usize) -> Option<Line> {
        let index = self.place(account, security)?;
        Some(Line {
            account,
            security,
            index,
        })
    }

    fn free_of(&self, line: Line) -> u64 {
        after(
            self.opening.free(line.account, line.security),
            self.movements[line.index].free,
        )
    }

    fn reserved_of(&self, line: Line) -> u64 {
        after(
            self.opening.reserved(line.account, line.security),
            self.movements[line.index].reserved,
        )
    }

    // Two settings and not one of both numbers: a credit or a debit says nothing of the reserved one.
    fn set_free(&mut self, _key: MovementKey, line: Line, number: u64) {
        let movement = towards(self.opening.free(line.account, line.security), number);
        self.movements[line.index].free = movement;
    }

    fn set_reserved(&mut self, _key: MovementKey, line: Line, number: u64) {
        let movement = towards(self.opening.reserved(line.account, line.security), number);
        self.movements[line.index].reserved = movement;
    }
}
