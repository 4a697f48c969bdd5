//! A worker's hand. A batch that is in one is in `home`, or in `lent` while the worker has it.
ghost use Rattle.std.specs.Prelude.{◌≡◌};

use filter_order::Versions;
use std::marker::Model;

/// A worker's hand, with the versions of filters that its batch is to pass, in their order.
#[derive(Debug, Drop)]
pub struct Hand {
    pub worker: u32,
    pub versions: Versions,
}

impl Model for Hand {
    ghost use Rattle.core_parts.specs.InFlight as state;

    ghost Value = { state.Hand };

    ghost view = { λ hand. record { worker = hand.worker; versions = hand.versions } };
}

impl Hand {
    pub fn worker(&self) -> u32
        ensures { result ≡ self.now.worker }
    {
        self.worker
    }

    pub fn versions(&self) -> &Versions
        ensures { result.now ≡ self.now.versions }
    {
        &self.versions
    }
}
