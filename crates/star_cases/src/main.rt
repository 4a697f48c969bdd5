//! Plays the stories on the standard input, and prints each line with what came of it;
//! then runs every case of the folder in which it starts, prints a line a case, and ends
//! with 0 where all are right.
#![tactic(auto)]

mod answers;
mod case;
mod choice;
mod drive;
mod event;
mod judge;
mod outcome;
mod question;
mod settings;
mod stage;
mod story;
mod told;
mod unlent;
mod words;

use crate::case::case_names;
use crate::outcome::{are_all_right, check_case, count_right};
use crate::stage::play;
use script_run::Host;
use std::hash::RandomState;
use std::io;
use std::process::ExitCode;
use std::random::RandomSource;
use std::rt::Files;
use std::sync::Wait;
use std::thread::Threads;

fn main(rt: HostRuntime) -> ExitCode {
    match play_and_check(&rt, ".") {
        Ok(true) => ExitCode::SUCCESS,
        Ok(false) => ExitCode::FAILURE,
        Err(error) => {
            // There is nowhere to tell of a standard error that fails.
            let _ = eprintln!(rt; "{error}");
            ExitCode::from(2)
        }
    }
}

/// Plays the stories on the standard input, and then runs the cases of a folder. Answers
/// whether these are all right.
fn play_and_check<
    R: Input + Files + Print + AllocGlobal + RandomSource + Threads + Wait + Sync + Clone + Drop,
>(rt: &R, folder: &str) -> io::Result<bool> {
    play(rt)?;
    check_folder(rt, folder)
}

/// Runs the cases of a folder, prints what came of them, and answers whether all are right.
fn check_folder<
    R: Files + Print + AllocGlobal + RandomSource + Threads + Wait + Sync + Clone + Drop,
>(rt: &R, folder: &str) -> io::Result<bool> {
    let host = Host {
        rt,
        alloc: rt.alloc(),
        hash_keys: RandomState::new(rt)?,
    };
    let mut outcomes = Vec::new(host.alloc);
    for name in case_names(rt, folder)? {
        let outcome = check_case(host, folder, name)?;
        println!(rt; "{outcome}")?;
        outcomes.push(outcome)?;
    }
    let right = count_right(&outcomes);
    let all = outcomes.len();
    println!(rt; "{right} of {all} cases are right")?;
    Ok(are_all_right(&outcomes))
}
