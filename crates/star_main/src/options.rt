//! The options, as `clap` is told of them, and what it finds in words.
ghost use Rattle.std.specs.Prelude.{◌≡◌, true, map, IfOk, option_map, string_bytes};
ghost use Rattle.clap.specs.Faults.{is_simple_and_free};
ghost use Rattle.clap.specs.Matches.{found_of};
ghost use Rattle.clap.specs.Simple.{app_of};
ghost use Rattle.clap.specs.Walk.{rows_of};
ghost use Rattle.star_main.specs.Rows.{answer_of, app_with, bare_app};

use clap::error::ErrorKind;
use clap::{Arg, ArgMatches, Command};
use star_values::NoMemory;
use std::alloc::Global;

/// A command with an option for each name, each of one value, and with no other.
pub(crate) fn command_of<'a>(alloc: Global, names: &'a [&'a str]) -> Result<Command<'a>, NoMemory>
    ensures { IfOk result (λ command.
        app_of command ≡ app_with (map (λ name. name.now) names.now)) }
{
    let mut command = bare_command(alloc);
    for name in names {
        let option = Arg::new(alloc, name).long(name);
        command = command.arg(option)?;
    }
    Ok(command)
}

fn bare_command<'a>(alloc: Global) -> Command<'a>
    ensures { app_of result ≡ bare_app }
{
    Command::new(alloc, "cjoin")
        .no_binary_name(true)
        .disable_help_flag(true)
        .disable_version_flag(true)
}

/// What the command finds in the words. There is nothing where it refuses them.
pub(crate) fn matches_in<'a>(
    command: Command<'a>,
    words: &'a [String],
) -> Result<Option<ArgMatches<'a>>, NoMemory>
    requires { is_simple_and_free (app_of command) ≡ true }
    ensures { IfOk result (λ found. option_map (λ matches. rows_of (found_of matches)) found
        ≡ answer_of (app_of command.entry) (map string_bytes words.entry.now)) }
{
    match command.try_get_matches_from(words) {
        Ok(matches) => Ok(Some(matches)),
        Err(error) => {
            if error.kind() == ErrorKind::OutOfMemory {
                Err(NoMemory)
            } else {
                Ok(None)
            }
        }
    }
}
