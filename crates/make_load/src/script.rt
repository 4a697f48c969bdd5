//! The made workload.
ghost use Rattle.std.specs.Prelude.{◌≡◌, IfOk};
ghost use Rattle.make_load.specs.Script.{made_script};

use crate::draft::Draft;
use crate::lines::script;
use star_values::{ByteText, NoMemory};
use std::alloc::Global;

/// The script that a seed makes, with so many sales: the tables of a star, the loads of its
/// dimensions, and twelve loads of sales with five queries behind each. The only error is want of
/// memory.
#[tactic(auto, unfolding(crate::specs::Script::made_script))]
pub fn make_script(alloc: Global, seed: u32, rows: u32) -> Result<ByteText, NoMemory>
    ensures { IfOk result (λ text. text ≡ made_script seed rows) }
{
    let mut draft = Draft::new(alloc, seed);
    script(&mut draft, rows)?;
    Ok(draft.into_text())
}
