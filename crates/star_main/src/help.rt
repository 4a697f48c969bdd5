//! What the program says of its command line: what is wrong with the words, or the help.
ghost use Rattle.std.specs.Prelude.{◌≡◌, IsNone, map, string_bytes};
ghost use Rattle.star_main.specs.Help.{asks_for_help, is_help};
ghost use Rattle.star_main.specs.Table.{settings_of};

use crate::fault::Fault;
use crate::limits::{ACCEPT, BATCH, OptionNumbers, PORT, ROWS, SEED, SLOTS, WORKERS};
use crate::word_fault::{OptionValues, WordFault, fault_among, name_and_value};
use std::{fmt, io};

/// The most bytes of a word that a message repeats.
const MAX_QUOTED: usize = 100;

/// The names of the options.
const OPTION_NAMES: &str =
    "--mode, --workers, --slots, --batch, --seed, --rows, --port and --accept";

/// The help above the options that take numbers.
const PROGRAM_AND_MODE: &str = "
cjoin answers a script of declarations, CSV loads, deletes and star queries, and one scan of the fact
table serves all running queries.

Options, in any order, each at most once, as --name VALUE or --name=VALUE. In parentheses are the
modes in which an option has an effect. A number has one to seven digits.
  --mode     run, alone, make or serve, default run";

/// The help below them.
const MODES_AND_STATUSES: &str = "
Modes:
  run        answers the script on the standard input; all queries share one scan
  alone      answers the script on the standard input, each query alone, with the same replies
  make       makes a workload, answers it, and writes one line that sums up the replies
  serve      serves connections, up to 64 at once; each sends a script and gets its replies

./cjoin --prove, alone or before other words, proves the program once.

Statuses:
  0  every reply was written, none is 'refused' or 'memory'; or --accept connections were served
  1  every reply was written, and at least one is 'refused' or 'memory'
  2  the words name no settings; nothing was read or written
  3  a read of the input failed
  4  a write failed
  5  out of memory
  6  the script is longer than its limit of 64 MiB
  7  the port could not be listened at, or waiting for a connection failed
  8  the system gave no random numbers; nothing was read or written

Examples:
  ./cjoin < examples/stores.cjoin
  ./cjoin --mode serve --port 7000
  ./cjoin --mode alone < FILE";

/// The help on the options that take numbers.
static NUMBERS: [NumberHelp; 7] = [
    NumberHelp {
        name: "--workers",
        numbers: WORKERS,
        meaning: "threads beside those that read and write (run, make, serve)",
    },
    NumberHelp {
        name: "--slots",
        numbers: SLOTS,
        meaning: "how many queries may run at once (run, make, serve)",
    },
    NumberHelp {
        name: "--batch",
        numbers: BATCH,
        meaning: "the most rows of a batch (run, make, serve)",
    },
    NumberHelp {
        name: "--seed",
        numbers: SEED,
        meaning: "where the draws of the made workload begin (make)",
    },
    NumberHelp {
        name: "--rows",
        numbers: ROWS,
        meaning: "how many sales the made workload has (make)",
    },
    NumberHelp {
        name: "--port",
        numbers: PORT,
        meaning: "the port of 127.0.0.1 to listen at (serve)",
    },
    NumberHelp {
        name: "--accept",
        numbers: ACCEPT,
        meaning: "how many connections are served, or 0 for any number (serve)",
    },
];

/// Says on the standard error why words name no settings: what is wrong with them and then the usage,
/// or the usage and then the help if a word asks for it.
pub(crate) fn explain_words(rt: &impl Eprint, words: &[String]) -> io::Result<()>
    requires { IsNone (settings_of (map string_bytes words.now)) }
{
    if asks_for_help(words) {
        rt.eprintln(Fault::Words)?;
        return print_help(rt);
    }
    let fault = fault_among(words);
    rt.eprintln(Refusal { words, fault })?;
    rt.eprintln(Fault::Words)
}

/// One of the words is `--help` or `-h`.
fn asks_for_help(words: &[String]) -> bool
    ensures { result ≡ asks_for_help (map string_bytes words.now) }
{
    words.iter().any(|word| is_help(word.as_str()))
}

fn is_help(word: &str) -> bool
    ensures { result ≡ is_help word.now }
{
    word == "--help" || word == "-h"
}

fn print_help(rt: &impl Eprint) -> io::Result<()> {
    rt.eprintln(PROGRAM_AND_MODE)?;
    for option in &NUMBERS {
        rt.eprintln(option)?;
    }
    rt.eprintln(MODES_AND_STATUSES)
}

/// The help on an option that takes numbers.
struct NumberHelp {
    name: &'static str,
    numbers: OptionNumbers,
    meaning: &'static str,
}

impl fmt::Display for NumberHelp {
    fn fmt<W: fmt::Write>(&self, f: &mut fmt::Formatter<W>) -> fmt::Result {
        let name = self.name;
        let OptionNumbers {
            least,
            greatest,
            default,
        } = self.numbers;
        let meaning = self.meaning;
        write!(
            f,
            "  {name:<9}  {least} to {greatest}, default {default}: {meaning}"
        )
    }
}

impl fmt::Display for OptionValues {
    fn fmt<W: fmt::Write>(&self, f: &mut fmt::Formatter<W>) -> fmt::Result {
        match self {
            OptionValues::Modes => write!(f, "run, alone, make or serve"),
            OptionValues::Numbers(numbers) => {
                let least = numbers.least;
                let greatest = numbers.greatest;
                write!(f, "a number from {least} to {greatest}")
            }
        }
    }
}

/// What is wrong with words, as a message.
#[derive(Clone, Copy)]
struct Refusal<'a> {
    words: &'a [String],
    fault: WordFault,
}

impl fmt::Display for Refusal<'_> {
    fn fmt<W: fmt::Write>(&self, f: &mut fmt::Formatter<W>) -> fmt::Result {
        match self.fault {
            WordFault::Stray(place) => {
                let word = Quoted(word_at(self.words, place));
                write!(f, "{word} belongs to no option")
            }
            WordFault::Unknown(place) => {
                let name = Quoted(name_at(self.words, place));
                write!(f, "{name} is no option; the options are {OPTION_NAMES}")
            }
            WordFault::Repeated(place) => {
                let name = name_at(self.words, place);
                write!(f, "{name} is named twice")
            }
            WordFault::NoValue(option) => {
                let name = name_at(self.words, option.place);
                let values = option.values;
                write!(f, "{name} has no value; it takes {values}")
            }
            WordFault::WrongValue(option) => {
                let name = name_at(self.words, option.place);
                let values = option.values;
                let value = Quoted(value_at(self.words, option.place));
                write!(f, "{name} takes {values}, and not {value}")
            }
        }
    }
}

/// The word at a place.
fn word_at(words: &[String], place: usize) -> &str {
    match words.get(place) {
        Some(word) => word.as_str(),
        None => "",
    }
}

/// The name of the option at a place, with its hyphens.
fn name_at(words: &[String], place: usize) -> &str {
    name_and_value(word_at(words, place)).0
}

/// The value of the option at a place: in its own word, or the next word.
fn value_at(words: &[String], place: usize) -> &str {
    match name_and_value(word_at(words, place)).1 {
        Some(value) => value,
        None => word_at(words, place.saturating_add(1)),
    }
}

/// A text between quotes, with escapes for control characters. A long text is cut.
#[derive(Clone, Copy)]
struct Quoted<'a>(&'a str);

impl fmt::Display for Quoted<'_> {
    fn fmt<W: fmt::Write>(&self, f: &mut fmt::Formatter<W>) -> fmt::Result {
        let end = self.0.floor_char_boundary(MAX_QUOTED);
        let shown = &self.0[..end];
        let shown = shown.escape_debug();
        if end < self.0.len() {
            write!(f, "'{shown}'..")
        } else {
            write!(f, "'{shown}'")
        }
    }
}
