//! What the program tells of a run that was cut short, on its standard error.
ghost use Rattle.std.specs.Prelude.{◌≡◌};
ghost use Rattle.star_main.specs.Fault.{fault_of};

use thiserror::Error;

/// Why there are no replies to a whole script.
#[derive(Debug, Drop, Error)]
pub(crate) enum Fault {
    #[error("usage: cjoin [--mode run|alone|make|serve] [--workers N] [--slots N] [--batch N] [--seed N] [--rows N] [--port N] [--accept N]")]
    Words,
    #[error("read fault")]
    Read,
    #[error("write fault")]
    Write,
    #[error("out of memory")]
    Memory,
    #[error("script limit")]
    Limit,
    #[error("door fault")]
    Door,
    #[error("no random numbers")]
    Random,
}

impl Fault {
    /// The fault of a status, where there is one.
    pub fn of_status(status: u8) -> Option<Fault>
        ensures { result ≡ fault_of status }
    {
        match status {
            2 => Some(Fault::Words),
            3 => Some(Fault::Read),
            4 => Some(Fault::Write),
            5 => Some(Fault::Memory),
            6 => Some(Fault::Limit),
            7 => Some(Fault::Door),
            8 => Some(Fault::Random),
            _ => None,
        }
    }
}
