//! The tables as they are kept. The work of each call stands in `declare`, `load` and `delete`.
ghost use Rattle.std.specs.Prelude.{◌≡◌, ◌-◌, ◌^◌, ◌<◌, true, IfOk, IfSome, IsErrOf, IsSome, length, option_map};
ghost use Rattle.star_plan.specs.Columns.{kinds_of};
ghost use Rattle.star_plan.specs.Fits.{some_test_fits};
ghost use Rattle.star_plan.specs.Test.{test_of};
ghost use Rattle.star_plan.specs.Declaration.{declared_dimension, declared_fact};
ghost use Rattle.star_plan.specs.Named.{table_named};
ghost use Rattle.star_plan.specs.Schemas.{ReferencesNothing};
ghost use Rattle.query_meaning.specs.History.{DimensionDeclared, FactDeclared};
ghost use Rattle.query_meaning.specs.Keyed.{IsKeyed, plain};
ghost use Rattle.query_meaning.specs.Settled.{IsSettled};
ghost use Rattle.query_meaning.specs.Store.{empty_store};
ghost use Rattle.star_store.specs.Deletes.{delete_change};
ghost use Rattle.star_store.specs.Done.{Commits, DeclaresTable};
ghost use Rattle.query_meaning.specs.KeptTables.{rows_of_all};
ghost use Rattle.star_store.specs.Loads.{load_change, load_form};

use crate::declare::add_dimension;
use crate::delete::delete;
use crate::done::Done;
use crate::laws_of_tables::changes_of_statements_are_taken;
use crate::load::{BlockToLoad, block_form, load};
use csv_load::{BlockForm, ReadBlock};
use dimension_rows::Dims;
use fact_versions::FactVersions;
use query_meaning::accepted_histories_are_settled;
use star_plan::{Predicate, Schema, TableDef, declare_fact, empty_schemas_are_declared};
use star_values::{ListOf, NoMemory, SmallText, StatementFault};
use std::alloc::Global;
use std::hash::RandomState;
use std::marker::Model;

/// The declared tables, their rows and versions, and the number of commits.
///
/// Nothing is taken away: a dimension's rows and the fact table's versions keep their places.
#[derive(Debug, Drop)]
pub struct Store {
    alloc: Global,
    hash_keys: RandomState,
    schema: Schema,
    dims: Dims,
    facts: FactVersions,
    commits: u64,
}

impl Model for Store {
    ghost use Rattle.query_meaning.specs.Keyed.{KeyedStore};
    ghost use Rattle.query_meaning.specs.KeptTables.{AreSound, tables_of};

    ghost Value = { KeyedStore };

    ghost view = { λ store. tables_of store.schema store.dims store.facts store.commits };

    ghost invariant = { λ store.
        AreSound (tables_of store.schema store.dims store.facts store.commits) };
}

impl Store {
    /// No tables and no commit, which takes no memory yet. Rows of dimensions are found
    /// by hashes with these keys.
    pub fn new(alloc: Global, hash_keys: RandomState) -> Store
        ensures { plain result ≡ empty_store }
    {
        empty_schemas_are_declared();
        accepted_histories_are_settled();
        Store {
            alloc,
            hash_keys,
            schema: Schema {
                dimensions: ListOf::new(alloc),
                fact: None,
            },
            dims: ListOf::new(alloc),
            facts: FactVersions::new(alloc),
            commits: 0,
        }
    }

    pub fn schema(&self) -> &Schema
        ensures schema { result.now ≡ self.now.schema }
        ensures settled { IsSettled (plain self.now) }
    {
        &self.schema
    }

    /// The versions of the fact table, with their key numbers.
    pub fn facts(&self) -> &FactVersions
        ensures versions { result.now.items ≡ self.now.versions }
        ensures keyed { IsKeyed self.now }
        ensures settled { IsSettled (plain self.now) }
    {
        &self.facts
    }

    /// The rows of each dimension, by its number.
    pub fn dims(&self) -> &Dims
        ensures { rows_of_all result.now ≡ self.now.dimensions }
    {
        &self.dims
    }

    /// Adds a dimension behind those that were declared. Its first column is its key.
    ///
    /// It is refused for the first reason that the schema gives, and takes memory only
    /// where nothing refuses it.
    pub fn declare_dimension(&mut self, table: TableDef) -> Result<(), StatementFault>
        requires columns { 0 < length table.columns }
        requires plain { ReferencesNothing table }
        ensures { DeclaresTable DimensionDeclared
            (declared_dimension self.old.schema table) self.old self.new result }
    {
        accepted_histories_are_settled();
        add_dimension(
            self.alloc,
            self.hash_keys,
            &mut self.schema,
            &mut self.dims,
            table,
        )
    }

    /// Adds the fact table. It is refused for the first reason that the schema
    /// gives, and takes no memory.
    pub fn declare_fact(&mut self, table: TableDef) -> Result<(), StatementFault>
        requires columns { 0 < length table.columns }
        ensures declares { DeclaresTable FactDeclared
            (declared_fact self.old.schema table) self.old self.new result }
        ensures known { ¬ (IsErrOf result StatementFault.Memory) }
    {
        accepted_histories_are_settled();
        Ok(declare_fact(&mut self.schema, table)?)
    }

    /// By what form a block is to be read that is loaded into the table of a name, with a header or
    /// without one. There is none where there is no such table.
    pub fn block_form(&self, table: &SmallText, header: bool) -> Result<Option<BlockForm>, NoMemory>
        ensures { IfOk result (λ form. form ≡ load_form self.now.schema table.now header) }
    {
        block_form(self.alloc, &self.schema, table, header)
    }

    /// Loads the records of a block into a table, as the next commit.
    ///
    /// It is refused, for the first of these reasons: before the fact table was declared; where
    /// no table has the name; for more records than the table has room for; for a record that is
    /// no row of the table; in a dimension for a key that stands twice in the block or in the
    /// table; and in the fact table for a foreign key that is the key of no row. With `header`
    /// the first record is none. Where memory is wanted, or there is no number for one commit
    /// more, nothing has changed. A block that was read before by the form of the table, which is
    /// `read`, is not read again.
    pub fn apply_load<'a>(
        &mut self,
        table: &SmallText,
        block: &'a [u8],
        header: bool,
        read: Option<ReadBlock<'a>>,
    ) -> Result<Done, StatementFault>
        requires { IfSome read (λ read. read.block.now ≡ block.now) }
        ensures commits { Commits (load_change (plain self.old) table.now header block.now)
            self.old self.new result }
        ensures known { IsErrOf result StatementFault.Memory →
            IsSome self.old.schema.fact × IsSome (table_named self.old.schema table.now) }
    {
        accepted_histories_are_settled();
        changes_of_statements_are_taken();
        load(
            self.alloc,
            &self.schema,
            &mut self.dims,
            &mut self.facts,
            &mut self.commits,
            BlockToLoad {
                name: table,
                header,
                block,
                read,
            },
        )
    }

    /// Ends every version that no commit ended and on whose row the predicate, if there is one,
    /// holds, as the next commit.
    ///
    /// It is refused before the fact table was declared. It takes no memory, and answers want of it
    /// only where there is no number for one commit more.
    pub fn apply_delete(&mut self, predicate: Option<&Predicate>) -> Result<Done, StatementFault>
        requires fits { IfSome self.old.schema.fact (λ table.
            some_test_fits (kinds_of table.columns) (option_map (λ p. test_of p.now) predicate)
            ≡ true) }
        ensures commits { Commits (delete_change (plain self.old)
            (option_map (λ p. test_of p.now) predicate.entry))
            self.old self.new result }
        ensures memory { IsErrOf result StatementFault.Memory → self.old.commits ≡ 2 ^ 64 - 1 }
    {
        accepted_histories_are_settled();
        changes_of_statements_are_taken();
        delete(&self.schema, &mut self.facts, &mut self.commits, predicate)
    }

    /// How many commits there were.
    pub fn commits(&self) -> u64
        ensures { result ≡ self.now.commits }
    {
        self.commits
    }
}
