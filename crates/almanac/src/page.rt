//! The text of the almanac.
ghost use Rattle.std.specs.Prelude.{◌≡◌, IfOk, string_bytes};
ghost use Rattle.almanac.specs.Almanac.{almanac_text};

use crate::entry::entry_of;
use days::LAST_DAY;
use std::alloc::{AllocError, Global};
use std::fmt::Write;

/// The whole almanac: a line for each day, and a last line that counts them.
pub fn almanac(heap: Global) -> Result<String, AllocError>
    ensures { IfOk result (λ s. string_bytes s ≡ almanac_text) }
{
    let mut text = String::new(heap);
    let mut different: u64 = 0;
    for entry in (0..=LAST_DAY).filter_map(entry_of) {
        write!(text, "{entry}")?;
        different += u64::from(entry.differs());
    }
    let days = LAST_DAY + 1;
    writeln!(text, "{days} days, {different} differ")?;
    Ok(text)
}
