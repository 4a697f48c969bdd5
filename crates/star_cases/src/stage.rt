//! The stories on the standard input, one after the other.
ghost use Rattle.core_state.specs.Settings.{AreWithin};

use crate::settings::settings_of;
use crate::story::Story;
use crate::told::{NO_MEMORY, NOT_UNDERSTOOD};
use core_state::RunSettings;
use star_values::NoMemory;
use std::alloc::{AllocError, Global};
use std::hash::RandomState;
use std::io;
use std::random::RandomSource;
use std::thread::Threads;

/// Plays the stories on the standard input, and prints each line with what came of it.
pub(crate) fn play<R: Input + Print + AllocGlobal + RandomSource + Threads + Sync>(
    rt: &R,
) -> io::Result<()> {
    let hash_keys = RandomState::new(rt)?;
    let mut stage = Stage {
        hash_keys,
        story: None,
    };
    let played = stage.play_lines(rt);
    drop(stage);
    played
}

/// Where the stories are played, one after the other.
#[derive(Drop)]
struct Stage {
    hash_keys: RandomState,
    story: Option<Story>,
}

impl Stage {
    /// The lines of the standard input, one after the other.
    fn play_lines<R: Input + Print + AllocGlobal + Threads + Sync>(
        &mut self,
        rt: &R,
    ) -> io::Result<()> {
        for line in rt.lines(rt.alloc()) {
            self.play_line(rt, line?.as_str())?;
        }
        Ok(())
    }

    /// A line of a story: it is printed, and below it what came of it.
    fn play_line<R: Print + AllocGlobal + Threads + Sync>(
        &mut self,
        rt: &R,
        line: &str,
    ) -> io::Result<()> {
        println!(rt; "{line}")?;
        let mut told = String::new(rt.alloc());
        self.tell(rt, line, &mut told)?;
        print_told(rt, told.as_str())
    }

    /// Tells what comes of a line of the story that goes on, or that begins with it.
    fn tell<R: AllocGlobal + Threads + Sync>(
        &mut self,
        rt: &R,
        line: &str,
        told: &mut String,
    ) -> Result<(), AllocError> {
        if line.is_empty() || line.starts_with("# ") {
            return Ok(());
        }
        match settings_of(line) {
            Some(settings) => told.push_str(self.begin(rt.alloc(), settings)),
            None => self.go_on(rt, line, told),
        }
    }

    /// A story of a core of these settings begins, and the one before is over.
    fn begin(&mut self, alloc: Global, settings: RunSettings) -> &'static str
        requires { AreWithin settings }
    {
        match Story::new(alloc, self.hash_keys, settings) {
            Ok(begun) => {
                drop(self.story.replace(begun));
                ""
            }
            Err(NoMemory) => NO_MEMORY,
        }
    }

    /// Tells what comes of a line that begins no story.
    fn go_on<R: Threads + Sync>(
        &mut self,
        rt: &R,
        line: &str,
        told: &mut String,
    ) -> Result<(), AllocError> {
        match &mut self.story {
            None => told.push_str(NOT_UNDERSTOOD),
            Some(story) => story.tell(rt, line, told),
        }
    }
}

/// Prints what is told of a line, each line of it behind two spaces.
fn print_told(rt: &impl Print, told: &str) -> io::Result<()> {
    for part in told.lines() {
        println!(rt; "  {part}")?;
    }
    Ok(())
}
