//! From the words to the settings.
ghost use Rattle.std.specs.Prelude.{◌≡◌, IfOk, IfSome, codes, map, string_bytes};
ghost use Rattle.std.specs.List.{list_any};
ghost use Rattle.std.specs.Str.{bytes_eq};
ghost use Rattle.star_main.specs.Ranges.{AreInRange};
ghost use Rattle.star_main.specs.Table.{settings_of};

use crate::options::{command_of, matches_in};
use crate::settings::Settings;
use crate::table::settings_by;
use star_values::NoMemory;
use std::alloc::Global;

/// The names of the options.
static OPTIONS: [&str; 8] = [
    "mode", "workers", "slots", "batch", "seed", "rows", "port", "accept",
];

/// The settings that the words name. Each option stands at most once, in any order, as `--name
/// value` in two words or as `--name=value` in one, and what is left out has its default. There are
/// no settings where a word is `--`, an option is unknown, repeated or without its value, a value
/// is not one that the option takes, or a word belongs to no option; `--help` and `--version` are
/// unknown, and so is an abbreviated name. The only error is want of memory.
pub(crate) fn read_words(alloc: Global, words: &[String]) -> Result<Option<Settings>, NoMemory>
    ensures settings { IfOk result (λ settings.
        settings ≡ settings_of (map string_bytes words.now)) }
    ensures range { IfOk result (λ settings. IfSome settings AreInRange) }
{
    // `clap` would end the options at this word, and take what follows as values of none.
    if has_hyphens(words) {
        return Ok(None);
    }
    let command = command_of(alloc, OPTIONS.as_slice())?;
    let Some(matches) = matches_in(command, words)? else {
        return Ok(None);
    };
    Ok(settings_by(&matches))
}

/// Some word is `--`.
fn has_hyphens(words: &[String]) -> bool
    ensures { result ≡ list_any (λ word. bytes_eq (string_bytes word) (codes "--")) words.now }
{
    words.iter().any(|word| word.as_str() == "--")
}
