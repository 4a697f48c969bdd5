//! The tables in which the columns of a statement are looked for.
ghost use Rattle.std.specs.Prelude.{◌≡◌, true, count_by, find};
ghost use Rattle.std.specs.List.{list_any};
ghost use Rattle.std.specs.Option.{option_map_or};
ghost use Rattle.star_plan.specs.Columns.{columns_of};
ghost use Rattle.star_plan.specs.Named.{column_named};
ghost use Rattle.star_binder.specs.Bound.{number_of};
ghost use Rattle.star_binder.specs.Places.{is_ambiguous, is_name_of, is_unknown, number_at, place_in, place_of, place_within, stands_in, table_at, table_of};

use star_parser::Column;
use star_plan::{Place, Schema, Table, columns_of, find_column, is_table_named};
use std::marker::Model;

/// Some tables of a schema within its limits, in the order of FROM.
#[derive(Drop)]
pub(crate) struct Scope<'a> {
    pub schema: &'a Schema,
    pub tables: &'a [Table],
}

impl<'a> Model for Scope<'a> {
    ghost use Rattle.star_plan.specs.Limits.{IsWithinLimits};
    ghost use Rattle.star_binder.specs.Scope.{TablesInScope};

    ghost Value = { TablesInScope };

    ghost view = { λ scope. record { schema = scope.schema.now; tables = scope.tables.now } };

    ghost invariant = { λ scope. IsWithinLimits scope.schema.now };
}

impl Scope<'_> {
    /// Whether a column stands in a table.
    fn stands_in(&self, column: &Column, table: Table) -> bool
        ensures { result ≡ stands_in self.now.schema column.now table }
    {
        self.may_stand_in(column, table) && self.number_in(column, table).is_some()
    }

    /// Whether a column has the name of a table, or of none.
    fn may_stand_in(&self, column: &Column, table: Table) -> bool
        ensures { result
            ≡ option_map_or (is_name_of self.now.schema table) column.now.table true }
    {
        match &column.table {
            Some(name) => is_table_named(self.schema, table, name),
            None => true,
        }
    }

    /// The number of the column of a table that has a column's name.
    #[tactic(auto, using(crate::proofs::ScopeLemmas::few_columns))]
    fn number_in(&self, column: &Column, table: Table) -> Option<u8>
        ensures { result ≡ column_named (columns_of self.now.schema table) column.now.name }
    {
        find_column(columns_of(self.schema, table), &column.name)
    }

    pub(crate) fn is_unknown(&self, column: &Column) -> bool
        ensures { result ≡ is_unknown self.now column.now }
    {
        !self.stands_somewhere(column)
    }

    fn stands_somewhere(&self, column: &Column) -> bool
        ensures { result ≡ list_any (stands_in self.now.schema column.now) self.now.tables }
    {
        self.tables
            .iter()
            .any(|table| self.stands_in(column, *table))
    }

    pub(crate) fn is_ambiguous(&self, column: &Column) -> bool
        ensures { result ≡ is_ambiguous self.now column.now }
    {
        column.table.is_none() && self.count_of(column) > 1
    }

    /// In how many of the tables a column stands.
    fn count_of(&self, column: &Column) -> usize
        ensures { result ≡ count_by (stands_in self.now.schema column.now) self.now.tables }
    {
        self.tables
            .iter()
            .filter(|table| self.stands_in(column, **table))
            .count()
    }

    /// The place of a column in the first of the tables in which it stands.
    pub(crate) fn place_of(&self, column: &Column) -> Place
        ensures { result ≡ place_of self.now column.now }
    {
        match self.first_table(column) {
            Some(table) => self.place_within(column, table),
            // Only a statement that is refused has such a column.
            None => Place::Fact(0),
        }
    }

    fn first_table(&self, column: &Column) -> Option<Table>
        ensures { result ≡ find (stands_in self.now.schema column.now) self.now.tables }
    {
        'tables: for table in self.tables {
            if self.stands_in(column, *table) {
                return Some(*table);
            }
        }
        None
    }

    fn place_within(&self, column: &Column, table: Table) -> Place
        ensures { result ≡ place_within self.now.schema column.now table }
    {
        place_in(table, self.number_in(column, table).unwrap_or(0))
    }

    /// The table of a column's place.
    pub(crate) fn table_of(&self, column: &Column) -> Table
        ensures { result ≡ table_of self.now column.now }
    {
        table_at(self.place_of(column))
    }

    /// The number of a column's place among the columns of its table.
    pub(crate) fn number_of(&self, column: &Column) -> u8
        ensures { result ≡ number_of self.now column.now }
    {
        number_at(self.place_of(column))
    }
}

/// The place of a column of a table.
fn place_in(table: Table, column: u8) -> Place
    ensures { result ≡ place_in table column }
{
    match table {
        Table::Fact => Place::Fact(column),
        Table::Dimension(dimension) => Place::Dimension(dimension, column),
    }
}

pub(crate) fn table_at(place: Place) -> Table
    ensures { result ≡ table_at place }
{
    match place {
        Place::Fact(_) => Table::Fact,
        Place::Dimension(dimension, _) => Table::Dimension(dimension),
    }
}

pub(crate) fn number_at(place: Place) -> u8
    ensures { result ≡ number_at place }
{
    match place {
        Place::Fact(column) | Place::Dimension(_, column) => column,
    }
}
