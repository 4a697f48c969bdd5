//! The line of a summary.
ghost use Rattle.std.specs.Prelude.{◌≡◌, ◌++◌, decimal, IfOk, OnOk, OnErr};
ghost use Rattle.make_load.specs.Summary.{summary_text};

use crate::totals::Summary;
use itoa::Buffer;
use star_values::{ByteText, NoMemory};
use std::alloc::Global;

/// Appends the line of a summary: its numbers, each behind its name, and a line feed.
pub fn print_summary(summary: &Summary, out: &mut ByteText) -> Result<(), NoMemory>
    ensures ok { OnOk result (out.new ≡ out.old ++ summary_text summary.now) }
    ensures err { OnErr result (out.new ≡ out.old) }
{
    let text = summary_text(out.allocator(), summary)?;
    out.extend_from_slice(text.as_bytes())
}

#[tactic(auto, unfolding(crate::specs::Summary::summary_text))]
fn summary_text(alloc: Global, summary: &Summary) -> Result<ByteText, NoMemory>
    ensures { IfOk result (λ text. text ≡ summary_text summary.now) }
{
    let mut text = ByteText::new(alloc);
    print_number(b"summary statements ", summary.statements, &mut text)?;
    print_number(b" commits ", summary.commits, &mut text)?;
    print_number(b" answers ", summary.answers, &mut text)?;
    print_number(b" rows ", summary.rows, &mut text)?;
    print_number(b" overflows ", summary.overflows, &mut text)?;
    print_number(b" refused ", summary.refused, &mut text)?;
    print_number(b" memory ", summary.memory, &mut text)?;
    print_number(b" bytes ", summary.bytes, &mut text)?;
    print_number(b" sum ", summary.sum, &mut text)?;
    text.extend_from_slice(b"\n")?;
    Ok(text)
}

/// Appends a number behind its name.
fn print_number(name: &[u8], number: u64, out: &mut ByteText) -> Result<(), NoMemory>
    ensures { OnOk result (out.new ≡ out.old ++ name.now ++ decimal number) }
{
    out.extend_from_slice(name)?;
    out.extend_from_slice(Buffer::new().format(number).as_bytes())
}
