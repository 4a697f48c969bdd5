//! The CJOIN program: the command line, the top call, and what is said of a run that was cut short.
#![tactic(auto)]

ghost use Rattle.std.specs.Prelude.{◌≡◌, ◌≢◌};
ghost use Rattle.std.specs.IoError.{error_kind};

mod examples;
mod fault;
mod help;
mod laws;
mod limits;
mod options;
mod reading;
mod settings;
mod table;
mod top;
mod values;
mod word_fault;

use crate::fault::Fault;
use crate::help::explain_words;
use crate::top::{FAULTY_WORDS, OUT_OF_MEMORY, cjoin};
use script_run::Host;
use star_io::{StdSink, StdSource, TcpDoor};
use std::env::{self, Env};
use std::hash::RandomState;
use std::io::{self, ErrorKind};
use std::process::ExitCode;
use std::random::RandomSource;
use worker_gate::NoGate;

/// The status where the system gives no random numbers, by which keys would be hashed.
/// Nothing was read or written.
const NO_RANDOM_NUMBERS: u8 = 8;

/// Runs the script on the standard input, or serves connections, as the words say, and ends
/// with the status of that.
fn main(rt: HostRuntime) -> ExitCode {
    let status = match words_and_keys(&rt) {
        Ok((words, hash_keys)) => {
            let mut source = StdSource::new(rt.reader());
            let mut sink = StdSink::new(io::writer(&rt));
            let mut door = TcpDoor::new(&rt);
            let host = Host {
                rt: &rt,
                alloc: rt.alloc(),
                hash_keys,
            };
            let status = cjoin(host, &words, &mut source, &mut sink, &mut door, &NoGate).status;
            if status == FAULTY_WORDS {
                // There is nowhere to report a standard error that fails.
                let _ = explain_words(&rt, &words);
            } else {
                say_fault(&rt, status);
            }
            status
        }
        Err(status) => {
            say_fault(&rt, status);
            status
        }
    };
    ExitCode::from(status)
}

/// Says on the standard error what a status means, if it is that of a fault.
fn say_fault(rt: &impl Eprint, status: u8) {
    if let Some(fault) = Fault::of_status(status) {
        // There is nowhere to report a standard error that fails.
        let _ = rt.eprintln(fault);
    }
}

/// The words behind the program's name, and keys for hashes, drawn at random; or the status where
/// either is not to be had.
fn words_and_keys(
    rt: &(impl Env + AllocGlobal + RandomSource),
) -> Result<(Vec<String>, RandomState), u8> {
    let words = match words(rt) {
        Ok(words) => words,
        Err(error) => return Err(status_without_words(&error)),
    };
    match RandomState::new(rt) {
        Ok(hash_keys) => Ok((words, hash_keys)),
        Err(_) => Err(NO_RANDOM_NUMBERS),
    }
}

/// The words behind the program's name. A word that is not text is an error.
fn words(rt: &(impl Env + AllocGlobal)) -> io::Result<Vec<String>> {
    let mut words = Vec::new(rt.alloc());
    for word in env::args(rt)?.skip(1) {
        words.push(word)?;
    }
    Ok(words)
}

/// The status where the words cannot be read: a word is not text, or no memory was left for them.
fn status_without_words(error: &io::Error) -> u8
    ensures memory { error_kind error.now ≡ ErrorKind.OutOfMemory → result ≡ 5 }
    ensures faulty { error_kind error.now ≢ ErrorKind.OutOfMemory → result ≡ 2 }
{
    if error.kind() == ErrorKind::OutOfMemory {
        OUT_OF_MEMORY
    } else {
        FAULTY_WORDS
    }
}
