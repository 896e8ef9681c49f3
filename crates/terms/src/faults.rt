//! What can be wrong with a line of text.
ghost use Rattle.std.specs.Prelude.{◌≡◌};
ghost use Rattle.terms.specs.Numbers.{fault_number};

/// What is wrong with a line: its first word is no verb, a word is missing, one is too many, one is of the wrong kind, or the
/// line is too long.
#[derive(Clone, Copy)]
pub enum Fault {
    NotVerb = 1,
    Missing = 2,
    Excess = 3,
    WrongKind = 4,
    TooLong = 5,
}

impl Fault {
    /// The number by which the fault is given.
    pub fn number(self) -> u64
        ensures { result ≡ fault_number self }
    {
        self as u64
    }
}
