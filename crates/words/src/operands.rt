//! The words of a line, each as one of the kind that is asked for.
ghost use Rattle.std.specs.Prelude.{◌≡◌, Ok, Err, MatchResult};
ghost use Rattle.words.specs.Kinds.{verb as the_verb, number as a_number, day as a_day, expiry as an_expiry, sharing as a_sharing, meant};
ghost use Rattle.words.specs.Operands.{ReadBy, done, field, next as the_next};
ghost use Rattle.words.specs.Reading.{left, step};

use crate::faults::WordFault;
use crate::kinds::Word;
use crate::reader::Reader;
use crate::verbs::Verb;
use terms::records::Sharing;

impl<'a> Reader<'a> {
    // The next word with its place.
    fn word(&mut self) -> Result<(Word<'a>, usize), WordFault>
        ensures value { MatchResult result (λ x. Ok (meant x.0, x.1) ≡ the_next (left self.old)) (λ e. Err e ≡ the_next (left self.old)) }
        ensures after { left self.new ≡ step (left self.old) }
    {
        let place = self.place();
        let part = self.next().ok_or(WordFault::Missing(place))?;
        Ok((Word::of(part.bytes), part.place))
    }

    // What `kind` makes of the next word. Where it makes nothing of it, `fault` says what is wrong at its place.
    fn field<T: Drop, K: FnOnce(Word<'a>) -> Option<T>, F: FnOnce(usize) -> WordFault>(
        &mut self,
        kind: K,
        fault: F,
    ) -> Result<T, WordFault>
        requires kinds { K.IsAlwaysCallable kind }
        requires faults { F.IsAlwaysCallable fault }
        ensures value { ReadBy (K.post kind) (F.post fault) (the_next (left self.old)) result }
        ensures after { left self.new ≡ step (left self.old) }
    {
        let (word, place) = self.word()?;
        kind(word).ok_or(fault(place))
    }

    /// The next word, which has to be a verb.
    pub fn verb(&mut self) -> Result<Verb, WordFault>
        ensures value { result ≡ field the_verb (left self.old) }
        ensures after { left self.new ≡ step (left self.old) }
    {
        self.field(Word::as_verb, WordFault::NotVerb)
    }

    /// The next word, which has to be a number.
    pub fn number(&mut self) -> Result<u64, WordFault>
        ensures value { result ≡ field a_number (left self.old) }
        ensures after { left self.new ≡ step (left self.old) }
    {
        self.field(Word::as_number, WordFault::WrongKind)
    }

    /// The next word, which has to be a date: its day.
    pub fn day(&mut self) -> Result<u64, WordFault>
        ensures value { result ≡ field a_day (left self.old) }
        ensures after { left self.new ≡ step (left self.old) }
    {
        self.field(Word::as_day, WordFault::WrongKind)
    }

    /// The next word, which has to be a date or a dash: the day, if one is given.
    pub fn expiry(&mut self) -> Result<Option<u64>, WordFault>
        ensures value { result ≡ field an_expiry (left self.old) }
        ensures after { left self.new ≡ step (left self.old) }
    {
        self.field(Word::as_expiry, WordFault::WrongKind)
    }

    /// The next word, which has to be `one` or `many`.
    pub fn sharing(&mut self) -> Result<Sharing, WordFault>
        ensures value { result ≡ field a_sharing (left self.old) }
        ensures after { left self.new ≡ step (left self.old) }
    {
        self.field(Word::as_sharing, WordFault::WrongKind)
    }

    /// No further word.
    pub fn end(&mut self) -> Result<(), WordFault>
        ensures value { result ≡ done (left self.old) }
        ensures after { left self.new ≡ step (left self.old) }
    {
        match self.next() {
            None => Ok(()),
            Some(part) => Err(WordFault::Excess(part.place)),
        }
    }
}
