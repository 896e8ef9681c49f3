//! The numbers of a register in bytes, as the four changes read and set them.
ghost use Rattle.image.specs.Image.{frame_of, imaged};
ghost use Rattle.image.specs.Inner.{Found};

use crate::ImageRegister;
use crate::lines::{Line, find_line};
use crate::words::{read_u64, write_u64};
use register::changes::Numbers;

/// The key to the numbers. Nobody outside this crate comes by one.
#[derive(Clone, Copy)]
pub struct ImageKey(pub(crate) ());

impl<'a> Numbers for ImageRegister<'a> {
    ghost holdings = { λ x. imaged x.bytes.now };

    ghost frame = { λ x. frame_of x.bytes.ghost_name x.bytes.now };

    type Key = ImageKey;

    type Line = Line;

    ghost account_of = { λ line. line.account };

    ghost security_of = { λ line. line.security };

    ghost found = { λ x line. Found x.bytes.now line.account line.security line };

    fn line(&self, account: usize, security: usize) -> Option<Line> {
        find_line(self.bytes, account, security)
    }

    fn free_of(&self, line: Line) -> u64 {
        read_u64(self.bytes, line.free_at)
    }

    fn reserved_of(&self, line: Line) -> u64 {
        read_u64(self.bytes, line.reserved_at)
    }

    // Two settings and not one of both numbers: a credit or a debit says nothing of the reserved one.
    fn set_free(&mut self, _key: ImageKey, line: Line, number: u64) {
        write_u64(self.bytes, line.free_at, number);
    }

    fn set_reserved(&mut self, _key: ImageKey, line: Line, number: u64) {
        write_u64(self.bytes, line.reserved_at, number);
    }
}
