//! What a line asks for.
ghost use Rattle.std.specs.Prelude.{◌≡◌};
ghost use Rattle.instructions.specs.Meaning.{asked, instructs, parsed, starts};
ghost use Rattle.words.specs.Reading.{left};

use crate::faults::LineFault;
use crate::instruction::Instruction;
use terms::calls::Call;
use terms::faults::Fault;
use words::reader::Reader;
use words::verbs::Verb;

// The most bytes that a line may have, its newline apart.
const MOST_BYTES: usize = 120;

// The call of a verb, whose operands are these numbers in this order and no more. It is a macro, since a function cannot be given
// the names of a variant's fields.
macro_rules! call {
    ($words:ident => $verb:ident $($number:ident)*) => {{
        $(let $number = $words.number()?;)*
        $words.end()?;
        Ok(Instruction::Call(Call::$verb { $($number),* }))
    }};
}

// start DATE
fn start(words: &mut Reader) -> Result<Instruction, LineFault>
    ensures { result ≡ starts (left words.old) }
{
    let day = words.day()?;
    words.end()?;
    Ok(Instruction::Start { day })
}

// What the words after the verb ask for.
fn rest_of_line(verb: Verb, words: &mut Reader) -> Result<Instruction, LineFault>
    ensures { result ≡ asked verb (left words.old) }
{
    match verb {
        Verb::Start => start(words),
        Verb::Admit => call!(words => Admit security),
        Verb::Stop => call!(words => Stop security),
        Verb::Price => call!(words => Price security cents),
        Verb::Deposit => call!(words => Deposit account security quantity),
        Verb::Withdraw => call!(words => Withdraw account security quantity),
        Verb::Trade => call!(words => Trade giver receiver security quantity),
        Verb::Pledge => call!(words => Pledge agent kind cents),
        Verb::Unpledge => call!(words => Unpledge agent kind cents),
        Verb::Suspend => call!(words => Suspend agent),
        Verb::Noon => call!(words => Noon),
    }
}

// What the words of a line ask for.
fn instructed(words: &mut Reader) -> Result<Instruction, LineFault>
    ensures { result ≡ instructs (left words.old) }
{
    let verb = words.verb()?;
    rest_of_line(verb, words)
}

/// What a line asks for, or its first fault from the left.
pub fn parse_line(line: &[u8]) -> Result<Instruction, LineFault>
    ensures { result ≡ parsed line.now }
{
    if line.len() > MOST_BYTES {
        return Err(LineFault {
            fault: Fault::TooLong,
            place: 0,
        });
    }
    let mut words = Reader::new(line);
    instructed(&mut words)
}
