//! A source over bytes in memory of which no read fails.
ghost use Rattle.std.specs.Prelude.{◌≡◌, ◌<◌, ◌≤◌, false, length, IfOk};
ghost use Rattle.star_io.specs.Source.{GivesBytes};

use crate::failed::Failed;
use crate::source::Source;
use std::marker::Model;

/// A source over bytes in memory, which are lent to it: each read gives as many of them as have
/// room. No read fails.
///
/// Reading does not allocate.
#[derive(Drop)]
pub struct SureSource<'a> {
    rest: &'a [u8],
    ended: bool,
}

impl<'a> Model for SureSource<'a> {
    ghost use Rattle.star_io.specs.SureSource.{SureState};

    ghost Value = { SureState };

    ghost view = { λ s. record { left = s.rest.now; ended = s.ended } };
}

impl<'a> SureSource<'a> {
    /// A source of `bytes` of which no read was made yet.
    pub fn new(bytes: &'a [u8]) -> SureSource<'a>
        ensures { result ≡ record { left = bytes.now; ended = false } }
    {
        SureSource {
            rest: bytes,
            ended: false,
        }
    }
}

impl<'a> Source for SureSource<'a> {
    ghost use Rattle.star_io.specs.SureSource.{GivesAllItCan, sure_side};

    ghost reading = { sure_side };

    fn read(&mut self, into: &mut [u8]) -> Result<usize, Failed>
        requires { 0 < length into.old }

        // As every source.
        ensures bound { IfOk result (λ n. n ≤ length into.new) }
        ensures gives { GivesBytes (sure_side self.old) (sure_side self.new) into.new result }

        // How many bytes it gives, and all that changes.
        ensures sure { GivesAllItCan self.old self.new (length into.old) result }
    {
        let n = into.len().min(self.rest.len());
        into[..n].copy_from_slice(&self.rest[..n]);
        self.rest = &self.rest[n..];
        self.ended = n == 0 || self.ended;
        Ok(n)
    }
}
