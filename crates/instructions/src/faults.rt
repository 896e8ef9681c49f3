//! What can be wrong with a line, and with the input of the program.
ghost use Rattle.std.specs.Prelude.{◌≡◌};
ghost use Rattle.instructions.specs.Faults.{of_word, of_line, program_fault_number, program_fault_place};

use terms::faults::Fault;
pub use words::faults::WordFault;

/// What is wrong with a line, and at which place: 0 for the line as a whole.
#[derive(Clone, Copy)]
pub struct LineFault {
    pub fault: Fault,
    pub place: usize,
}

/// What is wrong with the input: one of its lines, or that it has more than 65,536 bytes.
#[derive(Clone, Copy)]
pub enum ProgramFault {
    Line(LineFault),
    TooLarge,
}

// No discriminant: the other fault brings a number of its own.
const TOO_LARGE: u64 = 6;

impl ProgramFault {
    /// The number by which the fault is given: a line's is its own.
    pub fn number(self) -> u64
        ensures { result ≡ program_fault_number self }
    {
        match self {
            ProgramFault::Line(line) => line.fault.number(),
            ProgramFault::TooLarge => TOO_LARGE,
        }
    }

    /// The place by which the fault is given: a line's is its own, and 0 stands for all of the input.
    pub fn place(self) -> usize
        ensures { result ≡ program_fault_place self }
    {
        match self {
            ProgramFault::Line(line) => line.place,
            ProgramFault::TooLarge => 0,
        }
    }
}

/// A fault in a word is a fault of its line.
impl From<WordFault> for LineFault {
    ghost from_gives = { λ e r. r ≡ of_word e };

    fn from(e: WordFault) -> LineFault {
        let (fault, place) = match e {
            WordFault::NotVerb(place) => (Fault::NotVerb, place),
            WordFault::Missing(place) => (Fault::Missing, place),
            WordFault::Excess(place) => (Fault::Excess, place),
            WordFault::WrongKind(place) => (Fault::WrongKind, place),
        };
        LineFault { fault, place }
    }
}

/// A fault of a line is a fault of the input.
impl From<LineFault> for ProgramFault {
    ghost from_gives = { λ e r. r ≡ of_line e };

    fn from(e: LineFault) -> ProgramFault {
        ProgramFault::Line(e)
    }
}
