//! The text of replies.
ghost use Rattle.std.specs.Prelude.{◌≡◌, ◌++◌, IfOk, OnOk, OnErr};
ghost use Rattle.reply_text.specs.Text.{more_text, row_text, text_of};
ghost use Rattle.reply_text.specs.declared.reply.Reply.TheVariants.{Answer, Commit, Memory, Overflow, Refused, Table, Waited};

use crate::reply::Reply;
use star_plan::{AnswerRows, CellList};
use star_values::{ByteText, Cell, NoMemory, Refusal, SmallText, cell_text};
use std::alloc::Global;

/// Appends the text of a reply: one line, and behind an answer's line one line for each row.
pub fn print_reply(reply: &Reply, out: &mut ByteText) -> Result<(), NoMemory>
    ensures ok { OnOk result (out.new ≡ out.old ++ text_of reply.now) }
    ensures err { OnErr result (out.new ≡ out.old) }
{
    let text = reply_text(out.allocator(), reply)?;
    out.extend_from_slice(text.as_bytes())
}

fn reply_text(alloc: Global, reply: &Reply) -> Result<ByteText, NoMemory>
    ensures { IfOk result (λ text. text ≡ text_of reply.now) }
{
    match reply {
        Reply::Table(name) => table_text(alloc, name),
        Reply::Commit { number, rows } => commit_text(alloc, *number, *rows),
        Reply::Answer { snapshot, rows } => answer_text(alloc, *snapshot, rows),
        Reply::Overflow { snapshot } => overflow_text(alloc, *snapshot),
        Reply::Memory => memory_text(alloc),
        Reply::Refused(refusal) => refused_text(alloc, *refusal),
        Reply::Waited => waited_text(alloc),
    }
}

fn table_text(alloc: Global, name: &SmallText) -> Result<ByteText, NoMemory>
    ensures { IfOk result (λ text. text ≡ text_of (Table name.now)) }
{
    let mut text = ByteText::new(alloc);
    text.extend_from_slice(b"table ")?;
    text.extend_from_slice(name.as_bytes())?;
    text.extend_from_slice(b"\n")?;
    Ok(text)
}

fn commit_text(alloc: Global, number: u64, rows: u64) -> Result<ByteText, NoMemory>
    ensures { IfOk result (λ text. text ≡ text_of (Commit number rows)) }
{
    let line = format!(in alloc; "commit {number} rows {rows}\n")?;
    Ok(ByteText::from(line.into_bytes()))
}

fn overflow_text(alloc: Global, snapshot: u64) -> Result<ByteText, NoMemory>
    ensures { IfOk result (λ text. text ≡ text_of (Overflow snapshot)) }
{
    let line = format!(in alloc; "overflow {snapshot}\n")?;
    Ok(ByteText::from(line.into_bytes()))
}

fn memory_text(alloc: Global) -> Result<ByteText, NoMemory>
    ensures { IfOk result (λ text. text ≡ text_of Memory) }
{
    let mut text = ByteText::new(alloc);
    text.extend_from_slice(b"memory\n")?;
    Ok(text)
}

fn refused_text(alloc: Global, refusal: Refusal) -> Result<ByteText, NoMemory>
    ensures { IfOk result (λ text. text ≡ text_of (Refused refusal)) }
{
    let number = refusal.number();
    let line = format!(in alloc; "refused {number} {refusal}\n")?;
    Ok(ByteText::from(line.into_bytes()))
}

fn waited_text(alloc: Global) -> Result<ByteText, NoMemory>
    ensures { IfOk result (λ text. text ≡ text_of Waited) }
{
    let mut text = ByteText::new(alloc);
    text.extend_from_slice(b"waited\n")?;
    Ok(text)
}

fn answer_text(alloc: Global, snapshot: u64, rows: &AnswerRows) -> Result<ByteText, NoMemory>
    ensures { IfOk result (λ text. text ≡ text_of (Answer snapshot rows.now)) }
{
    let rows = rows.as_slice();
    let count = rows.len();
    let line = format!(in alloc; "answer {snapshot} rows {count}\n")?;
    let mut text = ByteText::from(line.into_bytes());
    for row in rows {
        print_row(row, &mut text)?;
    }
    Ok(text)
}

/// Appends the cells of a row with a comma between each two, and a line feed.
fn print_row(row: &CellList, out: &mut ByteText) -> Result<(), NoMemory>
    ensures { OnOk result (out.new ≡ out.old ++ row_text row.now) }
{
    if let [first, rest @ ..] = row.as_slice() {
        cell_text(first, out)?;
        print_more(rest, out)?;
    }
    out.extend_from_slice(b"\n")
}

/// Appends cells, each behind a comma.
fn print_more(cells: &[Cell], out: &mut ByteText) -> Result<(), NoMemory>
    ensures { OnOk result (out.new ≡ out.old ++ more_text cells.now) }
{
    for cell in cells {
        out.extend_from_slice(b",")?;
        cell_text(cell, out)?;
    }
    Ok(())
}
