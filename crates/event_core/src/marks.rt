//! What the core keeps beside its state, for the workers that it is lent to.
ghost use Rattle.std.specs.Prelude.{◌≡◌, ◌↔◌, ◌+◌, ◌%◌, All, None, false, true};

use crate::machine::Core;

/// What the core keeps beside its state, and no event reads or changes.
#[derive(Clone, Copy, Debug, PartialEq, Eq)]
pub struct Marks {
    /// Whether the workers are to end.
    pub closing: bool,

    /// How many batches were distributed, from 0 to 15 and round again.
    pub distributed: u32,

    /// Whether a statement waits until all that is lent is home.
    pub waiting: bool,
}

impl Core {
    /// From now on the workers are to end.
    pub fn mark_closing(&mut self)
        ensures { self.new ≡ record self.old { marks = record self.old.marks { closing = true } } }
    {
        self.marks.closing = true;
    }

    /// Whether the workers are to end.
    pub fn is_closing(&self) -> bool
        ensures { result ≡ self.now.marks.closing }
    {
        self.marks.closing
    }

    /// Whether a statement waits from now on until all that is lent is home.
    pub fn mark_waiting(&mut self, waiting: bool)
        ensures { self.new
            ≡ record self.old { marks = record self.old.marks { waiting = waiting } } }
    {
        self.marks.waiting = waiting;
    }

    /// Whether a statement waits until all that is lent is home.
    pub fn is_waiting(&self) -> bool
        ensures { result ≡ self.now.marks.waiting }
    {
        self.marks.waiting
    }

    /// Whether something is out with a seat beside its batch.
    pub fn is_any_out(&self) -> bool
        ensures { (result ≡ false) ↔ All (λ lending. lending ≡ None) self.now.out }
    {
        self.distributor.is_any_out()
    }

    /// Adds one to a number that goes from 0 to 15 and round again, and gives it.
    pub fn count_up(&mut self) -> u32
        ensures count { result ≡ (self.old.marks.distributed + 1) % 16 }
        ensures marks { self.new
            ≡ record self.old { marks = record self.old.marks { distributed = result } } }
    {
        self.marks.distributed = next_in_round(self.marks.distributed);
        self.marks.distributed
    }
}

/// The number after one, below 16, where 0 comes after 15.
fn next_in_round(number: u32) -> u32
    ensures { result ≡ (number + 1) % 16 }
{
    ((number as u64 + 1) % 16) as u32
}
