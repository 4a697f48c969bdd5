//! How a statement is submitted.
ghost use Rattle.std.specs.Prelude.{◌≡◌, ◌+◌, ◌<◌, ◌≤◌, [], ◌∷◌, ◌++◌, All, length, map, slice_index_or, slice_set, None, Some, true, IfOk, IsErrOf, IsSome, IsTrue, OnOk, OnErr};
ghost use Rattle.std.specs.List.{range_with_len};
ghost use Rattle.script_reader.specs.declared.statement.Statement.{Statement};
ghost use Rattle.query_meaning.specs.History.{Change};
ghost use Rattle.query_meaning.specs.Keyed.{IsKeyed, plain};
ghost use Rattle.query_meaning.specs.Settled.{IsSettled};
ghost use Rattle.star_values.specs.Roomy.{Roomy};
ghost use Rattle.star_store.specs.Applied.{Follows};
ghost use Rattle.star_store.specs.Form.{form_of_text};
ghost use Rattle.star_store.specs.Kinds.{kind_of_change};
ghost use Rattle.star_plan.specs.Test.{query_of};
ghost use Rattle.star_store.specs.Outcome as outcome;
ghost use Rattle.star_store.specs.Outcome.{outcome_of};
ghost use Rattle.star_store.specs.Text.{may_change_tables, meaning_of};
ghost use Rattle.star_store.specs.declared.applied.ChangeKind.TheVariants.{DeclaresFact};
ghost use Rattle.pipeline_manager.specs.Changes.{after_submit};
ghost use Rattle.pipeline_manager.specs.declared.life.SlotState.TheVariants.{Free};
ghost use Rattle.core_state.specs.Submitting.{after_outcome, after_submitting};
ghost use Rattle.core_state.specs.Tables.{tables_of};
ghost use Rattle.core_parts.specs.declared.submitted.Submitted.{Submitted};
ghost use Rattle.core_parts.specs.declared.submitted.Standing.TheVariants.{IsAsked};
ghost use Rattle.event_core.specs.Changes.{statements_at, with_filters_for};
ghost use Rattle.event_core.specs.Core.{CanEnter, IsCore, LeavesPast};
ghost use Rattle.filter_order.specs.Spares.{first_spares};
ghost use Rattle.core_parts.specs.Filters.{first_filters};
ghost use Rattle.event_core.specs.CoreParts.{CoreParts, beside_of};
ghost use Rattle.core_parts.specs.Seats.{is_waited};
ghost use Rattle.event_core.specs.Seen.{state_of};

use crate::laws_of_statements::submissions_follow_the_core;
use crate::logged::Logged;
use crate::machine::Core;
use core_parts::{AcceptedQuery, Filters, Queries, Seat, Spares, Standing};
use core_state::RunSettings;
use pipeline_manager::Manager;
use query_meaning::accepted_histories_are_settled;
use script_reader::Statement;
use star_plan::{Schema, StarQuery};
use star_store::{
    Applied, ApplyFault, BlockForm, ChangeKind, ReadStatement, Tables, apply, block_form,
    outcomes_fit_the_tables,
};
use star_values::{ListOf, NoMemory, Trail};
use std::alloc::Global;

impl Core {
    /// By what form the block of a statement is to be read, where it is a load
    /// into a table that is there.
    pub fn block_form(&self, statement: &Statement) -> Result<Option<BlockForm>, NoMemory>
        ensures { IfOk result (λ form.
            form ≡ form_of_text (tables_of (state_of self.now)).schema (meaning_of statement.now)) }
    {
        block_form(self.alloc, self.tables.store(), statement)
    }

    /// A seat submits a statement. If memory runs out, if no number is left for one statement more,
    /// or if groups or tables are out and the statement may change the tables, nothing has changed.
    pub(crate) fn submit(
        &mut self,
        seat: u32,
        statement: &mut ReadStatement<'_>,
    ) -> Result<(), ApplyFault>
        requires { seat < length (state_of self.old).seats }
        ensures ok { OnOk result
            (state_of self.new ≡ after_submitting seat statement.old (state_of self.old)) }
        ensures err { OnErr result (self.new ≡ self.old) }
        ensures busy { IsErrOf result ApplyFault.Busy →
            (¬ (All (λ lending. lending ≡ None) (beside_of self.old).out))
            × IsTrue (may_change_tables (meaning_of statement.old)) }
        ensures beside { beside_of self.new ≡ beside_of self.old }
        ensures statement { statement.new ≡ statement.old }
    {
        submissions_follow_the_core();
        a_declared_fact_table_finds_free_slots();
        // All that a change of the tables needs is there before it is made: after it nothing fails.
        let number = next_number(self.last_statement)?;
        reserve_at(&mut self.seats, seat)?;
        let all = make_filters(self.alloc, &self.tables, self.settings, &mut self.spares)?;
        let are_lent = self.distributor.is_any_out();
        match apply_to(self.alloc, &mut self.tables, are_lent, statement)? {
            Applied::Replied(reply) => {
                stand(&mut self.seats, seat, number, Standing::Waits(reply));
                self.last_statement = number;
                Ok(())
            }
            Applied::Changed { kind, reply } => {
                log_change(
                    Logged {
                        seat,
                        statement: number,
                        kind,
                    },
                    all,
                    self.tables.store().schema(),
                    &mut self.log,
                    &mut self.filters,
                    &mut self.manager,
                    &mut self.last_version,
                );
                stand(&mut self.seats, seat, number, Standing::Waits(reply));
                self.last_statement = number;
                Ok(())
            }
            Applied::Accepted { query, snapshot } => {
                self.accept(seat, query, snapshot)?;
                Ok(())
            }
        }
    }

    /// Accepts the query that a statement of a seat asks. It waits, and sees the commits up to one.
    fn accept(&mut self, seat: u32, query: StarQuery, snapshot: u64) -> Result<(), NoMemory>
        requires seat { seat < length (state_of self.old).seats }
        requires asked { (statement : Statement) ×
            (outcome_of (tables_of (state_of self.old)) statement
            ≡ outcome.only_tells (outcome.Accepted (query_of query) snapshot)) }
        ensures ok { OnOk result (state_of self.new ≡ after_outcome seat
            (outcome.only_tells (outcome.Accepted (query_of query) snapshot))
            (state_of self.old)) }
        ensures err { OnErr result (self.new ≡ self.old) }
        ensures beside { beside_of self.new ≡ beside_of self.old }
    {
        submissions_follow_the_core();
        let number = next_number(self.last_statement)?;
        let (alloc, keys) = (self.alloc, self.hash_keys);
        let query = AcceptedQuery::new(alloc, keys, number, seat, query, snapshot)?;
        let extent = self.tables.store().facts().len();
        enter(
            query,
            extent,
            &mut self.seats,
            &mut self.asked,
            &mut self.manager,
        )?;
        self.last_statement = number;
        Ok(())
    }
}

/// Where the change of a statement declares the fact table, none was declared, and no slot is held.
fn a_declared_fact_table_finds_free_slots()
    ensures first { (parts : CoreParts) (statement : Statement) (change : Change) → IsCore parts →
        (outcome_of (tables_of (state_of parts)) statement).change ≡ Some change →
        kind_of_change change ≡ DeclaresFact →
        (tables_of (state_of parts)).schema.fact ≡ None }
    ensures free { (parts : CoreParts) (statement : Statement) (change : Change) → IsCore parts →
        (outcome_of (tables_of (state_of parts)) statement).change ≡ Some change →
        kind_of_change change ≡ DeclaresFact →
        All (λ slot. slot ≡ Free) parts.lives.slots }
{
    outcomes_fit_the_tables();
    accepted_histories_are_settled();
}

/// The number after the last one, if one is left.
fn next_number(last: u64) -> Result<u64, NoMemory>
    ensures { IfOk result (λ number. number ≡ last + 1) }
{
    last.checked_add(1).ok_or(NoMemory)
}

/// Makes room for a statement more of a seat.
fn reserve_at(seats: &mut ListOf<Seat>, seat: u32) -> Result<(), NoMemory>
    requires { seat < length seats.old }
    ensures statements { map (λ seat. seat.items) seats.new ≡ map (λ seat. seat.items) seats.old }
    ensures room { OnOk result
        ((d : Roomy Submitted) → 0 < (slice_index_or seats.new seat d).room) }
{
    seats.as_mut_slice()[seat as usize].reserve()
}

/// Makes the filters of all dimensions, and for each seat of the settings a reference to each,
/// where no fact table is declared yet. Where one is, no statement needs them: there are none,
/// and the references stay.
fn make_filters(
    alloc: Global,
    tables: &Tables,
    settings: RunSettings,
    spares: &mut Spares,
) -> Result<Filters, NoMemory>
    ensures all { tables.now.schema.fact ≡ None →
        IfOk result (λ all. all ≡ first_filters (range_with_len 0 8)) }
    ensures spares { tables.now.schema.fact ≡ None →
        OnOk result
        (spares.new ≡ first_spares settings.seats (first_filters (range_with_len 0 8)).versions) }
    ensures declared { IsSome tables.now.schema.fact → spares.new ≡ spares.old }
{
    if tables.store().schema().fact.is_some() {
        return Ok(Filters::new(alloc));
    }
    let all = Filters::of_all(alloc)?;
    *spares = Spares::of_all(alloc, &all, settings.seats)?;
    Ok(all)
}

/// Puts a statement after the others of a seat, into room that was made. It is waited for.
fn stand(seats: &mut ListOf<Seat>, seat: u32, number: u64, standing: Standing)
    requires there { seat < length seats.old }
    requires room { (d : Roomy Submitted) → 0 < (slice_index_or seats.old seat d).room }
    requires waited { is_waited standing ≡ true }
    ensures { map (λ seat. seat.items) seats.new
        ≡ slice_set (map (λ seat. seat.items) seats.old) seat
        (statements_at (map (λ seat. seat.items) seats.old) seat
        ++ record { number = number; standing = standing } ∷ []) }
{
    seats.as_mut_slice()[seat as usize].submit(number, standing);
}

/// Does what a statement says to the tables, whose key numbers stay right, as far as they are not
/// lent.
fn apply_to(
    alloc: Global,
    tables: &mut Tables,
    are_lent: bool,
    statement: &mut ReadStatement<'_>,
) -> Result<Applied, ApplyFault>
    ensures follows { Follows tables.old tables.new result
        (outcome_of (plain tables.old) statement.old) }
    ensures keyed { IsKeyed tables.new }
    ensures settled { IsSettled (plain tables.new) }
    ensures lent { IsTrue are_lent → tables.new ≡ tables.old }
    ensures busy { IsErrOf result ApplyFault.Busy →
        IsTrue are_lent × IsTrue (may_change_tables (meaning_of statement.old)) }
    ensures statement { statement.new ≡ statement.old }
{
    let applied = apply(alloc, tables, are_lent, statement);
    // It is called for what it ensures of the tables.
    tables.store().facts();
    applied
}

/// Logs a change of the tables, and makes the filters that it asks for, out of those for all
/// dimensions.
fn log_change(
    entry: Logged,
    all: Filters,
    schema: &Schema,
    log: &mut Trail<Logged>,
    filters: &mut Filters,
    manager: &mut Manager,
    last_version: &mut u64,
)
    requires all { entry.kind ≡ DeclaresFact → all ≡ first_filters (range_with_len 0 8) }
    requires few { length schema.now.dimensions ≤ 8 }
    requires quiet { entry.kind ≡ DeclaresFact → All (λ slot. slot ≡ Free) manager.old.slots }
    ensures log { log.new ≡ log.old ++ entry ∷ [] }
    ensures queries { manager.new.queries ≡ manager.old.queries }
    ensures parts { (parts : CoreParts) → parts.tables.schema ≡ schema.now →
        parts.lives ≡ manager.old →
        parts.filters ≡ filters.old → parts.numbers.version ≡ last_version.old →
        with_filters_for entry.kind parts ≡ record parts {
          lives = manager.new;
          filters = filters.new;
          numbers = record parts.numbers { version = last_version.new };
        } }
{
    log.push(entry);
    match entry.kind {
        ChangeKind::DeclaresFact => {
            *filters = all.referenced(schema);
            manager.set_filters(filters.dimensions());
            *last_version = filters.count() as u64;
        }
        ChangeKind::DeclaresDimension => {}
        ChangeKind::Loads(_) => {}
        ChangeKind::Ends => {}
    }
}

/// Puts a query after the others that were accepted, and its statement after the others of its
/// seat. It waits, and the scan gives it this many positions.
fn enter(
    query: AcceptedQuery,
    extent: u32,
    seats: &mut ListOf<Seat>,
    asked: &mut Queries,
    manager: &mut Manager,
) -> Result<(), NoMemory>
    requires { CanEnter query (length seats.old) manager.old }
    ensures statements { OnOk result (map (λ seat. seat.items) seats.new
        ≡ slice_set (map (λ seat. seat.items) seats.old) query.asked.seat
        (statements_at (map (λ seat. seat.items) seats.old) query.asked.seat
        ++ record { number = query.asked.number; standing = IsAsked } ∷ [])) }
    ensures queries { OnOk result (asked.new.items ≡ asked.old.items ++ query.asked ∷ []) }
    ensures lives { OnOk result (manager.new ≡ after_submit query.asked.number extent manager.old) }
    ensures past { LeavesPast asked.old asked.new }
    ensures err { OnErr result
        ((map (λ seat. seat.items) seats.new ≡ map (λ seat. seat.items) seats.old)
        × (asked.new.items ≡ asked.old.items) × (manager.new ≡ manager.old)) }
{
    let (seat, number) = (query.seat(), query.number());
    reserve_at(seats, seat)?;
    asked.reserve()?;
    manager.submit(number, extent)?;
    asked.push(query);
    stand(seats, seat, number, Standing::IsAsked);
    Ok(())
}
