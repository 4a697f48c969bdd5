//! Loads: the checks of a block, in their order, and the rows that it adds.
ghost use Rattle.std.specs.Prelude.{◌≡◌, ℕ, ◌+◌, ◌^◌, ◌<◌, List, ◌≤◌, ◌++◌, false, not, nat_lt, All, IsSome, IsTrue, Some, None, Ok, IfOk, IfErr, IfSome, IsErrOf, OnOk, OnErr, length, map};
ghost use Rattle.std.specs.Option.{ForSome};
ghost use Rattle.star_values.specs.declared.refusal.Refusal.TheVariants.{BadRecord};
ghost use Rattle.star_values.specs.Roomy.{Roomy};
ghost use Rattle.star_plan.specs.Columns.{columns_of, kinds_of};
ghost use Rattle.star_values.specs.Value.{kinds_in};
ghost use Rattle.star_plan.specs.declared.table.Table.TheVariants.{Fact, Dimension};
ghost use Rattle.star_plan.specs.Named.{table_named};
ghost use Rattle.star_plan.specs.Limits.{IsWithinLimits};
ghost use Rattle.fact_versions.specs.declared.version.Version.{Version};
ghost use Rattle.dimension_rows.specs.declared.dimension_row.DimensionRow.{DimensionRow};
ghost use Rattle.csv_load.specs.Records.{records_in};
ghost use Rattle.csv_load.specs.Rows.{typed_rows};
ghost use Rattle.query_meaning.specs.History.{Loaded, grown_at, rows_by};
ghost use Rattle.query_meaning.specs.Keyed.{HasKeyNumbers, IsKeyed, plain};
ghost use Rattle.query_meaning.specs.Store.{rows_in};
ghost use Rattle.star_store.specs.Done.{Commits};
ghost use Rattle.query_meaning.specs.KeptTables.{AreSound, rows_of_all, tables_of};
ghost use Rattle.star_store.specs.Fault.{Tells};
ghost use Rattle.star_store.specs.Parts.{AreVersionsBy, HasRowsUpTo, IsReadForDimension, TakesNewRows};
ghost use Rattle.star_store.specs.Loads.{load_change, load_form, loaded_records, repeats_a_key};
ghost use Rattle.star_store.specs.declared.done.Done.{Done};
ghost use Rattle.star_values.specs.declared.statement_fault.StatementFault.TheVariants.{Refused, Memory};

use crate::done::Done;
use crate::rows::{append_rows, kinds_of, repeats_a_key};
use crate::versions::{append_versions, versions_of};
use csv_load::{
    BlockForm, LoadRows, ReadBlock, count_records, each_record_is_a_row, rows_have_the_kinds,
};
use dimension_rows::{DimensionRows, Dims, MAX_DIMENSION_ROWS};
use fact_versions::{FactVersions, MAX_VERSIONS, Version};
use query_meaning::later_rows_move_no_key_number;
use star_plan::{ColumnDef, Schema, Table, columns_of, find_table, rows_fit_by_their_kinds};
use star_values::{ListOf, NoMemory, Refusal, SmallText, StatementFault};
use std::alloc::Global;

/// A block to be loaded into the table of a name, with a header or without one. It may have been
/// read before.
#[derive(Drop)]
pub(crate) struct BlockToLoad<'a> {
    pub(crate) name: &'a SmallText,
    pub(crate) header: bool,
    pub(crate) block: &'a [u8],
    pub(crate) read: Option<ReadBlock<'a>>,
    pub(crate) ghost same: { ForSome read (λ read. read.block.now ≡ block.now) },
}

/// By what form a block is to be read that is loaded into the table of a name,
/// where such a table is there.
pub(crate) fn block_form(
    alloc: Global,
    schema: &Schema,
    name: &SmallText,
    header: bool,
) -> Result<Option<BlockForm>, NoMemory>
    requires { IsWithinLimits schema.now }
    ensures { IfOk result (λ form. form ≡ load_form schema.now name.now header) }
{
    match find_table(schema, name) {
        Some(table) => Ok(Some(form_for(alloc, columns_of(schema, table), header)?)),
        None => Ok(None),
    }
}

/// The form of a block for a table with these columns.
fn form_for(alloc: Global, columns: &[ColumnDef], header: bool) -> Result<BlockForm, NoMemory>
    ensures { IfOk result (λ form.
        form ≡ record { header = header; kinds = kinds_of columns.now }) }
{
    let kinds = kinds_of(alloc, columns)?;
    Ok(BlockForm {
        header,
        kinds: ListOf::from(kinds),
    })
}

/// From so many bytes on the records of a block are counted before rows are made of them: those of
/// a smaller one take no more memory than a few loads that are taken.
const COUNTED_FIRST: usize = 4 * 1024 * 1024;

/// Whether a block has more records than any table has room for, whose rows need not be made then.
/// Of a block that is not large this is not asked.
pub(crate) fn is_over_every_table(
    alloc: Global,
    block: &[u8],
    header: bool,
) -> Result<bool, NoMemory>
    ensures { IfOk result (λ over.
        IsTrue over → MAX_VERSIONS < length (records_in header block.now)) }
{
    if block.len() < COUNTED_FIRST {
        return Ok(false);
    }
    let count = count_records(alloc, block, header)?;
    Ok(count > MAX_VERSIONS as u64)
}

/// Whether a block that was not read before has more records than any table has room for.
fn is_over(alloc: Global, load: &BlockToLoad<'_>) -> Result<bool, NoMemory>
    ensures { IfOk result (λ over.
        IsTrue over → MAX_VERSIONS < length (records_in load.now.header load.now.block.now)) }
{
    if load.read.is_some() {
        return Ok(false);
    }
    is_over_every_table(alloc, load.block, load.header)
}

/// The block as it is read for a table with these columns. It is read now,
/// unless it was read so before.
fn read_for<'a>(
    alloc: Global,
    columns: &[ColumnDef],
    load: BlockToLoad<'a>,
) -> Result<ReadBlock<'a>, NoMemory>
    ensures kinds { IfOk result (λ read. read.form.kinds ≡ kinds_of columns.now) }
    ensures records { IfOk result (λ read.
        records_in read.form.header read.block.now
        ≡ records_in load.entry.header load.entry.block.now) }
{
    let form = form_for(alloc, columns, load.header)?;
    let BlockToLoad {
        name: _,
        header,
        block,
        read,
    } = load;
    if let Some(read) = read {
        if read.form.is_of(header, form.kinds.as_slice()) {
            return Ok(read);
        }
    }
    ReadBlock::read(alloc, form, block)
}

/// Whether a table with so many rows has room for the records of a block.
fn has_room(count: u32, most: usize, read: &ReadBlock<'_>) -> bool
    requires { count ≤ most }
    ensures { result
        ≡ not (nat_lt most (count + length (records_in read.now.form.header read.now.block.now))) }
{
    read.count() <= (most - count as usize) as u64
}

/// The rows that a block adds to a dimension, by the checks in their order.
fn checked_rows(
    alloc: Global,
    schema: &Schema,
    dims: &Dims,
    number: u8,
    read: ReadBlock<'_>,
) -> Result<LoadRows, StatementFault>
    requires read { IsReadForDimension schema.now dims.now number read.form.kinds }
    ensures rows { (facts : Roomy Version) (commits : ℕ) → IfOk result (λ rows.
        loaded_records (plain (tables_of schema.now dims.now facts commits))
        (Dimension number) (records_in read.entry.form.header read.entry.block.now)
        ≡ Ok (Loaded (Dimension number) rows)) }
    ensures taken { IfOk result (TakesNewRows (rows_in (rows_of_all dims.now) number)) }
    ensures tells { (facts : Roomy Version) (commits : ℕ) → IfErr result (Tells
        (loaded_records (plain (tables_of schema.now dims.now facts commits))
        (Dimension number) (records_in read.entry.form.header read.entry.block.now))) }
{
    each_record_is_a_row();
    rows_have_the_kinds();
    let dimension = &dims.as_slice()[number as usize];
    if !has_room(dimension.len(), MAX_DIMENSION_ROWS, &read) {
        return Err(StatementFault::Refused(Refusal::Limit));
    }
    let Some(rows) = read.into_rows() else {
        return Err(StatementFault::Refused(Refusal::BadRecord));
    };
    if repeats_a_key(alloc, dimension, rows.as_slice())? {
        return Err(StatementFault::Refused(Refusal::DuplicateKey));
    }
    Ok(rows)
}

/// Loads rows into a dimension, as the next commit.
fn commit_rows(
    dims: &mut Dims,
    number: u8,
    rows: LoadRows,
    commits: &mut u64,
) -> Result<Done, NoMemory>
    requires there { number < length dims.old }
    requires taken { TakesNewRows (rows_in (rows_of_all dims.old) number) rows }
    ensures rows { OnOk result (rows_of_all dims.new
        ≡ grown_at number (rows_by (commits.old + 1) rows) (rows_of_all dims.old)) }
    ensures commits { OnOk result (commits.new ≡ commits.old + 1) }
    ensures done { IfOk result (λ done.
        done ≡ record { commit = commits.old + 1; rows = length rows }) }
    ensures err { OnErr result
        ((rows_of_all dims.new ≡ rows_of_all dims.old) × (commits.new ≡ commits.old)) }
{
    let count = rows.len() as u64;
    let Some(commit) = commits.checked_add(1) else {
        return Err(NoMemory);
    };
    grow(&mut dims.as_mut_slice()[number as usize], rows, commit)?;
    *commits = commit;
    Ok(Done {
        commit,
        rows: count,
    })
}

/// Loads the rows of a block into a dimension.
fn load_dimension(
    alloc: Global,
    schema: &Schema,
    dims: &mut Dims,
    commits: &mut u64,
    number: u8,
    read: ReadBlock<'_>,
) -> Result<Done, StatementFault>
    requires read { IsReadForDimension schema.now dims.old number read.form.kinds }
    ensures commits { (facts : Roomy Version) → Commits
        (loaded_records (plain (tables_of schema.now dims.old facts commits.old))
        (Dimension number) (records_in read.entry.form.header read.entry.block.now))
        (tables_of schema.now dims.old facts commits.old)
        (tables_of schema.now dims.new facts commits.new) result }
    ensures grown { OnOk result ((more : List DimensionRow)
        × (rows_of_all dims.new ≡ grown_at number more (rows_of_all dims.old))) }
{
    let rows = checked_rows(alloc, schema, dims, number, read)?;
    Ok(commit_rows(dims, number, rows, commits)?)
}

/// Appends rows that a commit loads to a dimension. All room is made before the first row goes in.
fn grow(dimension: &mut DimensionRows, rows: LoadRows, commit: u64) -> Result<(), NoMemory>
    requires taken { TakesNewRows dimension.old.items rows }
    ensures ok { OnOk result (dimension.new.items ≡ dimension.old.items ++ rows_by commit rows) }
    ensures err { OnErr result (dimension.new.items ≡ dimension.old.items) }
{
    dimension.reserve(rows.len())?;
    append_rows(dimension, rows, commit);
    Ok(())
}

/// The versions that a block adds to the fact table, by the checks in their order.
fn checked_versions(
    alloc: Global,
    schema: &Schema,
    dims: &Dims,
    facts: &FactVersions,
    commit: u64,
    read: ReadBlock<'_>,
) -> Result<Vec<Version>, StatementFault>
    requires rows { HasRowsUpTo schema.now dims.now commit }
    requires kinds { read.form.kinds ≡ kinds_of (columns_of schema.now Fact) }
    ensures rows { (commits : ℕ) → IfOk result (λ versions.
        loaded_records (plain (tables_of schema.now dims.now facts.now commits)) Fact
        (records_in read.entry.form.header read.entry.block.now)
        ≡ Ok (Loaded Fact (map (λ version. version.row) versions.items))) }
    ensures versions { IfOk result (λ versions.
        AreVersionsBy schema.now (rows_of_all dims.now) commit
        (map (λ version. version.row) versions.items) versions.items) }
    ensures few { IfOk result (λ versions.
        length facts.now.items + length versions.items ≤ MAX_VERSIONS) }
    ensures tells { (commits : ℕ) → IfErr result (Tells
        (loaded_records (plain (tables_of schema.now dims.now facts.now commits)) Fact
        (records_in read.entry.form.header read.entry.block.now))) }
{
    rows_fit_by_their_kinds();
    each_record_is_a_row();
    rows_have_the_kinds();
    if !has_room(facts.len(), MAX_VERSIONS, &read) {
        return Err(StatementFault::Refused(Refusal::Limit));
    }
    let Some(rows) = read.into_rows() else {
        return Err(StatementFault::Refused(Refusal::BadRecord));
    };
    versions_of(alloc, schema, dims, rows, commit)
}

/// Loads versions into the fact table, as the commit after so many. All room is made before
/// the first version goes in.
fn commit_versions(
    facts: &mut FactVersions,
    versions: Vec<Version>,
    commits: &mut u64,
) -> Result<Done, NoMemory>
    requires few { length facts.old.items + length versions.items ≤ MAX_VERSIONS }
    ensures versions { OnOk result (facts.new.items ≡ facts.old.items ++ versions.items) }
    ensures commits { OnOk result (commits.new ≡ commits.old + 1) }
    ensures within { OnOk result (commits.old + 1 < 2 ^ 64) }
    ensures done { IfOk result (λ done.
        done ≡ record { commit = commits.old + 1; rows = length versions.items }) }
    ensures err { OnErr result ((facts.new.items ≡ facts.old.items) × (commits.new ≡ commits.old)) }
{
    let count = versions.len() as u64;
    let Some(commit) = commits.checked_add(1) else {
        return Err(NoMemory);
    };
    facts.reserve(versions.len())?;
    append_versions(facts, versions);
    *commits = commit;
    Ok(Done {
        commit,
        rows: count,
    })
}

/// Loads the rows of a block into the fact table.
fn load_facts(
    alloc: Global,
    schema: &Schema,
    dims: &Dims,
    facts: &mut FactVersions,
    commits: &mut u64,
    read: ReadBlock<'_>,
) -> Result<Done, StatementFault>
    requires rows { HasRowsUpTo schema.now dims.now commits.old }
    requires kinds { read.form.kinds ≡ kinds_of (columns_of schema.now Fact) }
    ensures commits { Commits
        (loaded_records (plain (tables_of schema.now dims.now facts.old commits.old)) Fact
        (records_in read.entry.form.header read.entry.block.now))
        (tables_of schema.now dims.now facts.old commits.old)
        (tables_of schema.now dims.now facts.new commits.new) result }
    ensures keyed { All (HasKeyNumbers schema.now (rows_of_all dims.now)) facts.old.items →
        All (HasKeyNumbers schema.now (rows_of_all dims.now)) facts.new.items }
{
    let commit = commits.saturating_add(1);
    let versions = checked_versions(alloc, schema, dims, facts, commit, read)?;
    Ok(commit_versions(facts, versions, commits)?)
}

/// Loads a block into the table of its name, as the next commit.
pub(crate) fn load(
    alloc: Global,
    schema: &Schema,
    dims: &mut Dims,
    facts: &mut FactVersions,
    commits: &mut u64,
    load: BlockToLoad<'_>,
) -> Result<Done, StatementFault>
    requires sound { AreSound (tables_of schema.now dims.old facts.old commits.old) }
    ensures commits { Commits
        (load_change (plain (tables_of schema.now dims.old facts.old commits.old))
        load.entry.name.now load.entry.header load.entry.block.now)
        (tables_of schema.now dims.old facts.old commits.old)
        (tables_of schema.now dims.new facts.new commits.new) result }
    ensures keyed { IsKeyed (tables_of schema.now dims.new facts.new commits.new) }
    ensures known { IsErrOf result StatementFault.Memory →
        IsSome schema.now.fact × IsSome (table_named schema.now load.entry.name.now) }
{
    later_rows_move_no_key_number();
    if schema.fact.is_none() {
        return Err(StatementFault::Refused(Refusal::OutOfOrder));
    }
    let Some(table) = find_table(schema, load.name) else {
        return Err(StatementFault::Refused(Refusal::UnknownName));
    };
    let over = is_over(alloc, &load)?;
    if over {
        return Err(StatementFault::Refused(Refusal::Limit));
    }
    let read = read_for(alloc, columns_of(schema, table), load)?;
    match table {
        Table::Fact => load_facts(alloc, schema, dims, facts, commits, read),
        Table::Dimension(number) => load_dimension(alloc, schema, dims, commits, number, read),
    }
}
