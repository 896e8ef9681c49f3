//! Codes of twelve characters, and what the program does with them.
ghost use Rattle.ranking.specs.Ranking.{code_before};
ghost use Rattle.ranking.specs.Lower;

use crate::steps::Step;
use ordered::order::Ranked;
use std::fmt;

/// A code of twelve characters.
#[derive(Clone, Copy)]
pub struct Code {
    pub letters: [u8; 12],
}

/// The code with the lower value at the first character where the two differ comes first.
impl Ranked for Code {
    ghost precedes = { code_before };

    ghost asymmetric = { λ x y h. Lower.asymmetric x.letters y.letters h };

    ghost chain = { λ x y z h k. Lower.chain x.letters y.letters z.letters h k };

    fn before(&self, other: &Self) -> bool {
        self.letters < other.letters
    }
}

impl fmt::Display for Code {
    fn fmt<W: fmt::Write>(&self, f: &mut fmt::Formatter<W>) -> fmt::Result {
        for letter in self.letters {
            f.write_char(letter as char)?;
        }
        Ok(())
    }
}

/// The steps of the program on codes.
pub const CODE_STEPS: [Step<Code>; 14] = [
    Step::Put(Code {
        letters: *b"MA0000000027",
    }),
    Step::Put(Code {
        letters: *b"AB9000000000",
    }),
    Step::Put(Code {
        letters: *b"AB000000000A",
    }),
    Step::Put(Code {
        letters: *b"AB9000000000",
    }),
    Step::Put(Code {
        letters: *b"AB0000000009",
    }),
    Step::Take(5),
    Step::Take(2),
    Step::Take(2),
    Step::Put(Code {
        letters: *b"AB9000000000",
    }),
    Step::Put(Code {
        letters: *b"AB0000000009",
    }),
    Step::Replace(
        1,
        Code {
            letters: *b"AB000000000A",
        },
    ),
    Step::Replace(
        1,
        Code {
            letters: *b"AB000000000B",
        },
    ),
    Step::Take(0),
    Step::Put(Code {
        letters: *b"ZZ0000000001",
    }),
];
