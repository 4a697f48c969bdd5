//! What each statement does to the tables.
ghost use Rattle.std.specs.Prelude.{◌≡◌, false, true, IsErr, IsErrOf, IsTrue};
ghost use Rattle.script_reader.specs.declared.statement.Block.{Block};
ghost use Rattle.star_parser.specs.Printed.{IsShaped};
ghost use Rattle.star_parser.specs.Statement.{statement_of};
ghost use Rattle.star_plan.specs.Declaration.{declared_dimension, declared_fact};
ghost use Rattle.star_binder.specs.Fault.{is_delete, is_select};
ghost use Rattle.star_binder.specs.Table.{declared_table, is_declaration};
ghost use Rattle.query_meaning.specs.History.{DimensionDeclared, FactDeclared};
ghost use Rattle.query_meaning.specs.Keyed.{KeyedStore, plain};
ghost use Rattle.star_store.specs.Loads.{load_change};
ghost use Rattle.reply_text.specs.declared.reply.Reply.TheVariants as reply;
ghost use Rattle.star_store.specs.Applied.{Follows, TellsDone};
ghost use Rattle.star_store.specs.Outcome.{Outcome, block_bytes, committed, declared, meaning_outcome, outcome_of};
ghost use Rattle.star_store.specs.Text.{is_change, is_dimension, may_change_tables, meaning_of};
ghost use Rattle.star_store.specs.declared.applied.Applied.TheVariants.{Replied};

use crate::applied::{Applied, ApplyFault, ChangeKind};
use crate::done::Done;
use crate::read_ahead::{ReadStatement, block_bytes};
use crate::store::Store;
use crate::tables::Tables;
use crate::text::read_text;
use reply_text::Reply;
use star_binder::{bind, bind_delete, bind_table};
use star_parser::Ast;
use star_plan::find_table;
use star_values::{NoMemory, Refusal, SmallText, StatementFault};
use std::alloc::Global;

/// Does what a statement says to the tables, and tells its reply, or the query that it asks.
///
/// A declaration, load or delete that no check refuses makes its change. A refused statement, a
/// query and a `wait` change nothing, and are answered whether the tables are lent or not. A
/// declaration, load or delete is carried out or refused where they are not lent, and where they
/// are it is busy and gets no answer. Where memory is wanted, where there is no number for one
/// commit more, or where there is another share of the tables, nothing has changed.
#[tactic(auto, unfolding(crate::specs::Outcome::outcome_of))]
pub fn apply(
    alloc: Global,
    tables: &mut Tables,
    are_lent: bool,
    statement: &mut ReadStatement<'_>,
) -> Result<Applied, ApplyFault>
    ensures follows { Follows tables.old tables.new result
        (outcome_of (plain tables.old) statement.old) }
    ensures lent { IsTrue are_lent → tables.new ≡ tables.old }
    ensures busy { IsErrOf result ApplyFault.Busy →
        IsTrue are_lent × IsTrue (may_change_tables (meaning_of statement.old)) }
    ensures waits { IsTrue are_lent → IsTrue (may_change_tables (meaning_of statement.old)) →
        IsErr result }
    ensures statement { statement.new ≡ statement.old }
{
    match read_text(alloc, statement.statement()) {
        Ok(Ok(ast)) => follow_shared(alloc, tables, are_lent, &ast, statement),
        Ok(Err(reason)) => Ok(refused(reason)),
        Err(_) => Err(ApplyFault::Memory),
    }
}

/// Does what a statement says to tables that no one else reads, as `apply` does.
#[tactic(auto, unfolding(crate::specs::Outcome::outcome_of))]
pub fn apply_alone(
    alloc: Global,
    store: &mut Store,
    statement: &mut ReadStatement<'_>,
) -> Result<Applied, NoMemory>
    ensures { Follows store.old store.new result (outcome_of (plain store.old) statement.old) }
{
    match read_text(alloc, statement.statement())? {
        Ok(ast) => follow(alloc, store, &ast, statement),
        Err(reason) => Ok(refused(reason)),
    }
}

/// Does what a statement of this meaning says to tables of which there may be other shares.
fn follow_shared(
    alloc: Global,
    tables: &mut Tables,
    are_lent: bool,
    ast: &Ast,
    statement: &mut ReadStatement<'_>,
) -> Result<Applied, ApplyFault>
    requires shaped { IsShaped (statement_of ast.now) }
    ensures follows { Follows tables.old tables.new result
        (meaning_outcome (plain tables.old) statement.old.block (statement_of ast.now)) }
    ensures lent { IsTrue are_lent → tables.new ≡ tables.old }
    ensures busy { IsErrOf result ApplyFault.Busy →
        IsTrue are_lent × IsTrue (is_change (statement_of ast.now)) }
    ensures waits { IsTrue are_lent → IsTrue (is_change (statement_of ast.now)) → IsErr result }
    ensures statement { statement.new ≡ statement.old }
{
    if !is_change(ast) {
        return from_store(answer(alloc, tables.store(), ast));
    }
    if are_lent {
        return Err(ApplyFault::Busy);
    }
    match tables.alone() {
        Some(store) => from_store(follow(alloc, store, ast, statement)),
        None => Err(ApplyFault::Memory),
    }
}

/// Whether a statement of this meaning may change the tables.
fn is_change(ast: &Ast) -> bool
    ensures { result ≡ is_change (statement_of ast.now) }
{
    matches!(
        ast,
        Ast::Dimension { .. } | Ast::Fact { .. } | Ast::Load { .. } | Ast::Delete { .. }
    )
}

/// The answer of a call that wants nothing but memory.
fn from_store(applied: Result<Applied, NoMemory>) -> Result<Applied, ApplyFault>
    ensures follows { (old new : KeyedStore) (found : Outcome) →
        Follows old new applied found → Follows old new result found }
    ensures memory { ¬ (IsErrOf result ApplyFault.Busy) }
{
    match applied {
        Ok(applied) => Ok(applied),
        Err(_) => Err(ApplyFault::Memory),
    }
}

/// Does what a statement of this meaning says.
fn follow(
    alloc: Global,
    store: &mut Store,
    ast: &Ast,
    statement: &mut ReadStatement<'_>,
) -> Result<Applied, NoMemory>
    requires shaped { IsShaped (statement_of ast.now) }
    ensures follows { Follows store.old store.new result
        (meaning_outcome (plain store.old) statement.old.block (statement_of ast.now)) }
    ensures statement { statement.new ≡ statement.old }
{
    match ast {
        Ast::Dimension { name, .. } => declare_dimension(alloc, store, ast, name),
        Ast::Fact { name, .. } => declare_fact(alloc, store, ast, name),
        Ast::Load { name, header } => load(store, name, *header, statement),
        Ast::Delete { .. } => delete(alloc, store, ast),
        Ast::Select { .. } | Ast::Wait => answer(alloc, store, ast),
    }
}

/// What is told of a statement that leaves the tables as they are: a select or a `wait`.
fn answer(alloc: Global, store: &Store, ast: &Ast) -> Result<Applied, NoMemory>
    requires shaped { IsShaped (statement_of ast.now) }
    requires asks { is_change (statement_of ast.now) ≡ false }
    ensures { (block : Block) → Follows store.now store.now result
        (meaning_outcome (plain store.now) block (statement_of ast.now)) }
{
    match ast {
        Ast::Select { .. } => select(alloc, store, ast),
        _ => Ok(Applied::Replied(Reply::Waited)),
    }
}

/// Declares a dimension of this name.
fn declare_dimension(
    alloc: Global,
    store: &mut Store,
    ast: &Ast,
    name: &SmallText,
) -> Result<Applied, NoMemory>
    requires shaped { IsShaped (statement_of ast.now) }
    requires dimension { is_dimension (statement_of ast.now) ≡ true }
    ensures { Follows store.old store.new result (declared DimensionDeclared name.now
        (declared_dimension store.old.schema
        (declared_table store.old.schema (statement_of ast.now)))) }
{
    let table = bind_table(alloc, ast, store.schema())?;
    let name = name.copy()?;
    match store.declare_dimension(table) {
        Ok(()) => Ok(Applied::Changed {
            kind: ChangeKind::DeclaresDimension,
            reply: Reply::Table(name),
        }),
        Err(StatementFault::Refused(reason)) => Ok(refused(reason)),
        Err(StatementFault::Memory) => Err(NoMemory),
    }
}

/// Declares the fact table, which has this name.
fn declare_fact(
    alloc: Global,
    store: &mut Store,
    ast: &Ast,
    name: &SmallText,
) -> Result<Applied, NoMemory>
    requires shaped { IsShaped (statement_of ast.now) }
    requires declaration { is_declaration (statement_of ast.now) ≡ true }
    ensures { Follows store.old store.new result (declared FactDeclared name.now
        (declared_fact store.old.schema (declared_table store.old.schema (statement_of ast.now)))) }
{
    let table = bind_table(alloc, ast, store.schema())?;
    let name = name.copy()?;
    match store.declare_fact(table) {
        Ok(()) => Ok(Applied::Changed {
            kind: ChangeKind::DeclaresFact,
            reply: Reply::Table(name),
        }),
        Err(StatementFault::Refused(reason)) => Ok(refused(reason)),
        Err(StatementFault::Memory) => Err(NoMemory),
    }
}

/// Loads the block of a statement into the table of this name.
fn load(
    store: &mut Store,
    name: &SmallText,
    header: bool,
    statement: &mut ReadStatement<'_>,
) -> Result<Applied, NoMemory>
    ensures follows { Follows store.old store.new result (committed (plain store.old)
        (load_change (plain store.old) name.now header (block_bytes statement.old.block))) }
    ensures statement { statement.new ≡ statement.old }
{
    if store.schema().fact.is_none() {
        return Ok(refused(Refusal::OutOfOrder));
    }
    let Some(table) = find_table(store.schema(), name) else {
        return Ok(refused(Refusal::UnknownName));
    };
    let block = block_bytes(&statement.statement().block);
    let done = store.apply_load(name, block, header, statement.take_read());
    committed(ChangeKind::Loads(table), done)
}

/// Ends the versions that a delete selects.
fn delete(alloc: Global, store: &mut Store, ast: &Ast) -> Result<Applied, NoMemory>
    requires { is_delete (statement_of ast.now) ≡ true }
    ensures { (block : Block) → Follows store.old store.new result
        (meaning_outcome (plain store.old) block (statement_of ast.now)) }
{
    if store.schema().fact.is_none() {
        return Ok(refused(Refusal::OutOfOrder));
    }
    match bind_delete(alloc, ast, store.schema()) {
        Ok(condition) => committed(ChangeKind::Ends, store.apply_delete(condition.as_ref())),
        Err(StatementFault::Refused(reason)) => Ok(refused(reason)),
        Err(StatementFault::Memory) => Err(NoMemory),
    }
}

/// The query of a select, with the last commit as its snapshot.
fn select(alloc: Global, store: &Store, ast: &Ast) -> Result<Applied, NoMemory>
    requires { is_select (statement_of ast.now) ≡ true }
    ensures { (block : Block) → Follows store.now store.now result
        (meaning_outcome (plain store.now) block (statement_of ast.now)) }
{
    if store.schema().fact.is_none() {
        return Ok(refused(Refusal::OutOfOrder));
    }
    match bind(alloc, ast, store.schema()) {
        Ok(query) => Ok(Applied::Accepted {
            query,
            snapshot: store.commits(),
        }),
        Err(StatementFault::Refused(reason)) => Ok(refused(reason)),
        Err(StatementFault::Memory) => Err(NoMemory),
    }
}

/// The answer to a refused statement.
fn refused(reason: Refusal) -> Applied
    ensures { result ≡ Replied (reply.Refused reason) }
{
    Applied::Replied(Reply::Refused(reason))
}

/// The answer to a load or delete of this kind that was carried out or refused.
fn committed(kind: ChangeKind, done: Result<Done, StatementFault>) -> Result<Applied, NoMemory>
    ensures { TellsDone kind done result }
{
    match done {
        Ok(done) => Ok(Applied::Changed {
            kind,
            reply: Reply::Commit {
                number: done.commit,
                rows: done.rows,
            },
        }),
        Err(StatementFault::Refused(reason)) => Ok(refused(reason)),
        Err(StatementFault::Memory) => Err(NoMemory),
    }
}
