//! A day's text, from its bytes to the bytes of the answers.
ghost use Rattle.std.specs.Prelude.{◌≡◌, IfOk, None, string_bytes};
ghost use Rattle.desk.specs.Day.{day_text, zeros as zero_holdings};
ghost use Rattle.desk.specs.Plan.{told};
ghost use Rattle.definitions.specs.Runs.{answers};
ghost use Rattle.definitions.specs.States.{opening};
ghost use Rattle.words.specs.Parts.{lines};

use crate::plan::plan_of;
use crate::replies::reply_all;
use crate::zeros::zero_image;
use book::runs::run;
use calendar::weekdays::WeekdayCalendar;
use image::ImageRegister;
use instructions::answers::{Reply, reply_text};
use instructions::faults::ProgramFault;
use std::alloc::{AllocError, Global};
use terms::calls::Call;

const MOST_BYTES: usize = 65_536;

// The replies to a text that opens the book on a day and puts these calls to it.
fn answer_run(heap: Global, text: &[u8], day: u64, calls: &[Call]) -> Result<String, AllocError>
    ensures { IfOk result (λ s. string_bytes s ≡ told 1 None (answers (opening zero_holdings day) calls.now) (lines text.now)) }
{
    let mut bytes = zero_image(heap)?;
    let register = ImageRegister::new(bytes.as_mut_slice());

    // Not by `map_err` or `or`: what is run holds a borrowed register, which the checker does not follow through them.
    match run(heap, register, WeekdayCalendar::new(&[]), day, calls) {
        Ok(finished) => reply_all(heap, text, finished.journal.as_slice()),
        Err(_) => Err(AllocError),
    }
}

/// The answers to a day's text, whatever its bytes; or want of memory, and then nothing is answered.
pub fn answer_day(heap: Global, text: &[u8]) -> Result<String, AllocError>
    ensures { IfOk result (λ s. string_bytes s ≡ day_text text.now) }
{
    if text.len() > MOST_BYTES {
        return reply_text(heap, 0, Reply::Faulty(ProgramFault::TooLarge));
    }
    let plan = plan_of(heap, text)?;
    match plan.day {
        None => reply_all(heap, text, &[]),
        Some(day) => answer_run(heap, text, day, plan.calls.as_slice()),
    }
}
