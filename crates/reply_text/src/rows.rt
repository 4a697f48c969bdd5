//! The rows of an answer at the front of bytes.
ghost use Rattle.std.specs.Prelude.{◌≡◌, ◌==◌, length, option_map, IfOk};
ghost use Rattle.std.specs.List.{list_all};
ghost use Rattle.reply_text.specs.Reading.{are_even, even_rows_at, row_at, rows_in};

use crate::cells::ended_cell_at;
use star_plan::{AnswerRows, CellList};
use star_values::{ListOf, NoMemory};
use std::alloc::Global;

/// So many rows, where all have as many cells as the first. No room is made for rows that are not
/// there.
#[tactic(auto, unfolding(crate::specs::Reading::even_rows_at))]
pub(crate) fn even_rows_at(
    alloc: Global,
    count: u64,
    bytes: &[u8],
) -> Result<Option<(AnswerRows, &[u8])>, NoMemory>
    ensures { IfOk result (λ found.
        option_map (λ f. (f.0, f.1.now)) found ≡ even_rows_at count bytes.now) }
{
    let Ok(found) = rows_in(alloc, count, bytes) else {
        return Err(NoMemory);
    };
    match found {
        Some((rows, rest)) if are_even(rows.as_slice()) => Ok(Some((rows, rest))),
        _ => Ok(None),
    }
}

fn rows_in(alloc: Global, count: u64, bytes: &[u8]) -> Result<Option<(AnswerRows, &[u8])>, NoMemory>
    ensures { IfOk result (λ found.
        option_map (λ f. (f.0, f.1.now)) found ≡ rows_in count bytes.now) }
{
    let mut rows = ListOf::new(alloc);
    let mut rest = bytes;
    'rows: for _row in 0..count {
        let Ok(found) = row_at(alloc, rest) else {
            return Err(NoMemory);
        };
        let Some((row, behind)) = found else {
            return Ok(None);
        };
        rows.push(row)?;
        rest = behind;
    }
    Ok(Some((rows, rest)))
}

#[tactic(auto, unfolding(crate::specs::Reading::row_at))]
fn row_at(alloc: Global, bytes: &[u8]) -> Result<Option<(CellList, &[u8])>, NoMemory>
    ensures { IfOk result (λ found. option_map (λ f. (f.0, f.1.now)) found ≡ row_at bytes.now) }
{
    let mut cells = ListOf::new(alloc);
    let mut rest = bytes;
    'cells: for _byte in bytes {
        let Ok(found) = ended_cell_at(alloc, rest) else {
            return Err(NoMemory);
        };
        let Some((cell, last, behind)) = found else {
            return Ok(None);
        };
        cells.push(cell)?;
        if last {
            return Ok(Some((cells, behind)));
        }
        rest = behind;
    }
    Ok(None)
}

#[tactic(auto, unfolding(crate::specs::Reading::are_even))]
fn are_even(rows: &[CellList]) -> bool
    ensures { result ≡ are_even rows.now }
{
    match rows {
        [] => true,
        [first, rest @ ..] => have_width(rest, first.len()),
    }
}

fn have_width(rows: &[CellList], width: usize) -> bool
    ensures { result ≡ list_all (λ row. length row == width) rows.now }
{
    rows.iter().all(|row| row.len() == width)
}
