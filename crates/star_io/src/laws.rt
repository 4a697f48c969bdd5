//! What the words on counts of faults and on links mean, said once more in other words.
ghost use Rattle.std.specs.Prelude.{◌≡◌, ℕ, ◌<◌, ◌≤◌, length};
ghost use Rattle.star_io.specs.Faults.{last_count, next_count, Rose};

use crate::failed::Failed;
use crate::link::Link;
use crate::sink::Sink;
use crate::source::Source;

/// A count of faults rises with each fault, or stands still at its last value.
pub fn one_more_is_a_rise()
    ensures { (count : ℕ) → count ≤ last_count → Rose count (next_count count) }
{}

/// A read of a link leaves its writing side.
pub fn a_read_leaves_the_writes<L: Link>(link: &mut L, into: &mut [u8]) -> Result<usize, Failed>
    requires { 0 < length into.old }
    ensures { L.writing link.new ≡ L.writing link.old }
{
    link.read(into)
}

/// A write to a link leaves its reading side.
pub fn a_write_leaves_the_reads<L: Link>(link: &mut L, bytes: &[u8]) -> Result<usize, Failed>
    requires { 0 < length bytes.now }
    ensures { L.reading link.new ≡ L.reading link.old }
{
    link.write(bytes)
}
