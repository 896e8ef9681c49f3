//! The verb that a line begins with.
ghost use Rattle.std.specs.Prelude.{◌≡◌};
ghost use Rattle.words.specs.Verbs.{verb_named};

/// The verbs, one for each instruction.
#[derive(Clone, Copy)]
pub enum Verb {
    Start,
    Admit,
    Stop,
    Price,
    Deposit,
    Withdraw,
    Trade,
    Pledge,
    Unpledge,
    Suspend,
    Noon,
}

// The verb that the word names, if it names one.
#[tactic(auto, using(crate::proofs::Spellings::spelt_like))]
pub(crate) fn verb_of(word: &[u8]) -> Option<Verb>
    ensures { result ≡ verb_named word.now }
{
    match word {
        b"start" => Some(Verb::Start),
        b"admit" => Some(Verb::Admit),
        b"stop" => Some(Verb::Stop),
        b"price" => Some(Verb::Price),
        b"deposit" => Some(Verb::Deposit),
        b"withdraw" => Some(Verb::Withdraw),
        b"trade" => Some(Verb::Trade),
        b"pledge" => Some(Verb::Pledge),
        b"unpledge" => Some(Verb::Unpledge),
        b"suspend" => Some(Verb::Suspend),
        b"noon" => Some(Verb::Noon),
        _ => None,
    }
}
