//! The settings that the values of the options make.
ghost use Rattle.std.specs.Prelude.{◌≡◌, codes};
ghost use Rattle.clap.specs.Matches.{first_value, found_of};
ghost use Rattle.star_main.specs.Table.{settings_by};
ghost use Rattle.star_main.specs.Values.{number_or};
ghost use Rattle.star_main.specs.declared.limits.TheConstants.{PORT};

use crate::limits::{ACCEPT, BATCH, OptionNumbers, PORT, ROWS, SEED, SLOTS, WORKERS};
use crate::settings::Settings;
use crate::values::{mode_or, number_or};
use clap::ArgMatches;

/// The settings that the table makes of the values that were found.
#[tactic(auto, unfolding(crate::specs::Table::settings_by))]
pub(crate) fn settings_by(matches: &ArgMatches) -> Option<Settings>
    ensures { result ≡ settings_by (first_value (found_of matches.now)) }
{
    let mode = mode_or(matches.get_str("mode"))?;
    let workers = number_at(matches, "workers", WORKERS)?;
    let slots = number_at(matches, "slots", SLOTS)?;
    let batch = number_at(matches, "batch", BATCH)?;
    let seed = number_at(matches, "seed", SEED)?;
    let rows = number_at(matches, "rows", ROWS)?;
    let port = port_at(matches)?;
    let accept = number_at(matches, "accept", ACCEPT)?;
    Some(Settings {
        mode,
        workers,
        slots,
        batch,
        seed,
        rows,
        port,
        accept,
    })
}

/// The number that was found for a name.
fn number_at(matches: &ArgMatches, name: &str, numbers: OptionNumbers) -> Option<u32>
    ensures { result ≡ number_or numbers (first_value (found_of matches.now) name.now) }
{
    number_or(numbers, matches.get_str(name))
}

/// The number of `--port`, which is below 2^16.
fn port_at(matches: &ArgMatches) -> Option<u16>
    ensures { result ≡ number_or PORT (first_value (found_of matches.now) (codes "port")) }
{
    let port = number_at(matches, "port", PORT)?;
    Some(port as u16)
}
