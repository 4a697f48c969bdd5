//! How a line says the settings of a core, by which a story begins.
ghost use Rattle.std.specs.Prelude.{IfSome};
ghost use Rattle.core_state.specs.Settings.{AreWithin};

use crate::words::{number_of, short_of};
use core_state::RunSettings;

/// The settings that a line says: how many slots, how many rows a batch has, how many seats there
/// are, and how many workers, of which there are none where the line does not say it.
pub(crate) fn settings_of(line: &str) -> Option<RunSettings>
    ensures { IfSome result AreWithin }
{
    let mut words = line.split_ascii_whitespace();
    if words.next()? != "core" {
        return None;
    }
    let slots = count_of(words.next()?)?;
    let batch = count_of(words.next()?)?;
    let seats = count_of(words.next()?)?;
    let workers = count_of(words.next().unwrap_or("0"))?;
    if words.next().is_some() {
        return None;
    }
    settings_within(workers, slots, batch, seats)
}

/// The number of 32 bits that a word is, if it is one.
fn count_of(word: &str) -> Option<u32> {
    short_of(number_of(word)?)
}

/// These settings, where they are within the limits of a core.
fn settings_within(workers: u32, slots: u32, batch: u32, seats: u32) -> Option<RunSettings>
    ensures { IfSome result AreWithin }
{
    if workers > 16
        || slots < 1
        || slots > 64
        || batch < 1
        || batch > 1024
        || seats < 1
        || seats > 128
    {
        return None;
    }
    Some(RunSettings {
        workers,
        slots,
        batch,
        seats,
    })
}
