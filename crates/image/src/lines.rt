//! The counts and the lines of a register in bytes.
ghost use Rattle.std.specs.Prelude.{◌≡◌, ◌-◌, ◌*◌, ◌≤◌, length, MatchOption};
ghost use Rattle.image.specs.Image.{accounts_of, securities_of};
ghost use Rattle.image.specs.Inner.{Found, Missing};

use crate::words::read_u16;

#[derive(Clone, Copy)]
pub(crate) struct Counts {
    pub(crate) accounts: usize,
    pub(crate) securities: usize,
}

// The two counts stand first, in `HEADER` bytes; each number takes `NUMBER` bytes.
const HEADER: usize = 4;

const NUMBER: usize = 8;

// The counts of the header, or 0 where the bytes are too few for them: 0 and not `None`, since the image of such bytes has no
// lines.
pub(crate) fn counts_in(bytes: &[u8]) -> Counts
    ensures accounts { result.accounts ≡ accounts_of bytes.now }
    ensures securities { result.securities ≡ securities_of bytes.now }
    ensures room { 16 * (result.accounts * result.securities) ≤ length bytes.now - 4 }
{
    if bytes.len() >= HEADER {
        let accounts = usize::from(read_u16(bytes, 0));
        let securities = usize::from(read_u16(bytes, 2));
        if HEADER + 2 * NUMBER * (accounts * securities) <= bytes.len() {
            return Counts {
                accounts,
                securities,
            };
        }
    }
    Counts {
        accounts: 0,
        securities: 0,
    }
}

/// A line, and where its two numbers stand.
#[derive(Clone, Copy)]
pub struct Line {
    pub(crate) account: usize,
    pub(crate) security: usize,
    pub(crate) free_at: usize,
    pub(crate) reserved_at: usize,
}

// The line, or `None` outside the counts.
pub(crate) fn find_line(bytes: &[u8], account: usize, security: usize) -> Option<Line>
    ensures { MatchOption result (Missing bytes.now account security) (λ l. Found bytes.now account security l × (l.account ≡ account) × (l.security ≡ security)) }
{
    let Counts {
        accounts,
        securities,
    } = counts_in(bytes);
    if account >= accounts || security >= securities {
        return None;
    }
    let index = account * securities + security;
    Some(Line {
        account,
        security,
        free_at: HEADER + NUMBER * index,
        reserved_at: HEADER + NUMBER * (accounts * securities + index),
    })
}
