//! A script that is being written, and the steps that each line is made of.
ghost use Rattle.std.specs.Prelude.{◌≡◌, ◌<◌, ◌+◌, ◌^◌, [], OnOk};
ghost use Rattle.make_load.specs.Script.{draw, next, say, tell};

use itoa::Buffer;
use star_values::{ByteText, NoMemory};
use std::alloc::Global;

/// The text so far, and the state of the draws.
#[derive(Drop)]
pub(crate) struct Draft {
    x: u32,
    text: ByteText,
}

impl Draft {
    /// An empty script, whose draws start from the seed.
    pub(crate) fn new(alloc: Global, seed: u32) -> Draft
        ensures { result ≡ record { x = seed; text = [] } }
    {
        Draft {
            x: seed,
            text: ByteText::new(alloc),
        }
    }

    pub(crate) fn into_text(self) -> ByteText
        ensures { result ≡ self.text }
    {
        self.text
    }

    /// Writes bytes.
    #[tactic(auto, unfolding(crate::specs::Script::say))]
    pub(crate) fn say(&mut self, bytes: &[u8]) -> Result<(), NoMemory>
        ensures { OnOk result (self.new ≡ say bytes.now self.old) }
    {
        self.text.extend_from_slice(bytes)
    }

    /// Writes a number.
    #[tactic(auto, unfolding(crate::specs::Script::tell))]
    pub(crate) fn tell(&mut self, number: u32) -> Result<(), NoMemory>
        ensures { OnOk result (self.new ≡ tell number self.old) }
    {
        self.say(Buffer::new().format(number).as_bytes())
    }

    /// Draws one of so many numbers, from the least on, and writes it.
    #[tactic(auto, unfolding(crate::specs::Script::draw))]
    pub(crate) fn draw(&mut self, least: u32, range: u32) -> Result<(), NoMemory>
        requires some { 0 < range }
        requires fits { least + range < 2 ^ 32 }
        ensures { OnOk result (self.new ≡ draw least range self.old) }
    {
        self.x = next(self.x);
        let number = least + self.x / 65536 % range;
        self.text
            .extend_from_slice(Buffer::new().format(number).as_bytes())
    }
}

/// The state of the draws behind one more draw.
#[tactic(auto, unfolding(crate::specs::Script::next))]
fn next(x: u32) -> u32
    ensures { result ≡ next x }
{
    ((u64::from(x) * 1_103_515_245 + 12_345) % 2_147_483_648) as u32
}
