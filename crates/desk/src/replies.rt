//! The second pass over a day's text: the reply to each line, with the answers of the run.
ghost use Rattle.std.specs.Prelude.{◌≡◌, map, IfOk, None, string_bytes};
ghost use Rattle.desk.specs.Plan.{told};
ghost use Rattle.words.specs.Parts.{lines};

use crate::turns::Turn;
use book::runs::Entry;
use instructions::answers::reply_text;
use std::alloc::{AllocError, Global};
use words::lines::Lines;

// The replies to the lines of a text, with the entries of its run.
pub(crate) fn reply_all(heap: Global, text: &[u8], entries: &[Entry]) -> Result<String, AllocError>
    ensures { IfOk result (λ s. string_bytes s ≡ told 1 None (map (λ e. e.answer) entries.now) (lines text.now)) }
{
    let mut out = String::new(heap);
    let mut day = None;
    let mut left = entries.iter();
    for (i, line) in (Lines { rest: text }).enumerate() {
        let turn = Turn::of(day, line);
        let reply = reply_text(heap, i + 1, turn.reply(&mut left))?;
        out.push_str(reply.as_str())?;
        day = turn.leaves();
    }
    Ok(out)
}
