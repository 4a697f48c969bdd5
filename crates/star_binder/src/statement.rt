//! Statements over a schema.
ghost use Rattle.std.specs.Prelude.{◌≡◌, true, map, option_map, IfOk};
ghost use Rattle.star_parser.specs.Condition.{condition_of};
ghost use Rattle.star_parser.specs.Statement.{statement_of};
ghost use Rattle.star_plan.specs.Fits.{some_test_fits};
ghost use Rattle.star_plan.specs.Columns.{fact_columns, kinds_of};
ghost use Rattle.star_plan.specs.Over.{IsOver};
ghost use Rattle.star_plan.specs.Test.{query_of, test_of};
ghost use Rattle.star_plan.specs.Limits.{IsWithinLimits};
ghost use Rattle.star_binder.specs.Bound as bound;
ghost use Rattle.star_binder.specs.Fault.{Binds, BindsDelete, BindsSelect, is_delete, is_select};
ghost use Rattle.star_binder.specs.Parts.{parts_of};
ghost use Rattle.star_binder.specs.Places.{tables_named};
ghost use Rattle.star_binder.specs.Refused.{bound_delete, bound_over, bound_select};

use crate::bound::{choices, groups, items, test_on};
use crate::named::conjuncts_of;
use crate::refused::{refusal_of, refusal_of_delete};
use crate::scope::Scope;
use crate::select::Select;
use star_parser::{Ast, Tree};
use star_plan::{PlaceList, Predicate, Schema, StarQuery, Table, find_table};
use star_values::{NoMemory, SmallText, StatementFault};
use std::alloc::Global;

/// The query of a select of some item.
pub fn bind(alloc: Global, ast: &Ast, schema: &Schema) -> Result<StarQuery, StatementFault>
    requires limits { IsWithinLimits schema.now }
    requires select { is_select (statement_of ast.now) ≡ true }
    ensures binds { BindsSelect result schema.now (statement_of ast.now) }
    ensures over { IfOk result (λ query. IsOver schema.now (query_of query)) }
{
    match ast {
        Ast::Select {
            items,
            tables,
            condition,
            groups,
        } => {
            let select = Select {
                items: items.as_slice(),
                names: tables.as_slice(),
                conjuncts: conjuncts_of(condition),
                groups: groups.as_slice(),
            };
            bind_select(alloc, schema, &select)
        }
        Ast::Dimension { .. }
        | Ast::Fact { .. }
        | Ast::Load { .. }
        | Ast::Delete { .. }
        | Ast::Wait => unreachable!(),
    }
}

/// The test of a delete.
pub fn bind_delete(
    alloc: Global,
    ast: &Ast,
    schema: &Schema,
) -> Result<Option<Predicate>, StatementFault>
    requires limits { IsWithinLimits schema.now }
    requires delete { is_delete (statement_of ast.now) ≡ true }
    ensures binds { BindsDelete result schema.now (statement_of ast.now) }
    ensures fits { IfOk result (λ condition. some_test_fits (kinds_of (fact_columns schema.now))
        (option_map test_of condition) ≡ true) }
{
    match ast {
        Ast::Delete { name, condition } => {
            bind_conjuncts(alloc, schema, name, conjuncts_of(condition))
        }
        Ast::Dimension { .. }
        | Ast::Fact { .. }
        | Ast::Load { .. }
        | Ast::Select { .. }
        | Ast::Wait => unreachable!(),
    }
}

#[tactic(auto, unfolding(crate::specs::Refused::bound_select))]
fn bind_select(alloc: Global, schema: &Schema, select: &Select) -> Result<StarQuery, StatementFault>
    requires { IsWithinLimits schema.now }
    ensures { Binds query_of result (bound_select schema.now (parts_of select.now)) }
{
    let tables = tables_named(alloc, schema, select.names)?;
    let scope = Scope {
        schema,
        tables: tables.as_slice(),
    };
    bind_over(alloc, &scope, select)
}

/// The tables that FROM names, in its order. A name of no table is left out.
fn tables_named(alloc: Global, schema: &Schema, names: &[SmallText]) -> Result<Vec<Table>, NoMemory>
    requires { IsWithinLimits schema.now }
    ensures { IfOk result (λ tables. tables.items ≡ tables_named schema.now names.now) }
{
    let mut tables = Vec::with_capacity(alloc, names.len())?;
    'names: for name in names {
        if let Some(table) = find_table(schema, name) {
            tables.push(table)?;
        }
    }
    Ok(tables)
}

/// The query of a select over tables that are found.
fn bind_over(alloc: Global, scope: &Scope, select: &Select) -> Result<StarQuery, StatementFault>
    ensures { Binds query_of result (bound_over scope.now (parts_of select.now)) }
{
    match refusal_of(alloc, scope, select)? {
        Some(reason) => Err(StatementFault::Refused(reason)),
        None => Ok(query_in(alloc, scope, select)?),
    }
}

/// The query of a select that no check refuses.
fn query_in(alloc: Global, scope: &Scope, select: &Select) -> Result<StarQuery, NoMemory>
    ensures { IfOk result (λ query.
        query_of query ≡ bound.query_in scope.now (parts_of select.now)) }
{
    let choices = choices(alloc, scope, select.conjuncts)?;
    let groups = groups(alloc, scope, select.groups)?;
    let items = items(alloc, scope, select.items)?;
    let fact = test_on(alloc, scope, select.conjuncts, Table::Fact)?;
    Ok(StarQuery {
        fact,
        choices,
        groups: PlaceList::from(groups),
        items,
    })
}

#[tactic(auto, unfolding(crate::specs::Refused::bound_delete))]
fn bind_conjuncts(
    alloc: Global,
    schema: &Schema,
    name: &SmallText,
    conjuncts: &[Tree],
) -> Result<Option<Predicate>, StatementFault>
    requires { IsWithinLimits schema.now }
    ensures { Binds (option_map test_of) result
        (bound_delete schema.now name.now (map condition_of conjuncts.now)) }
{
    let tables = [Table::Fact];
    let scope = Scope {
        schema,
        tables: tables.as_slice(),
    };
    match refusal_of_delete(alloc, &scope, name, conjuncts)? {
        Some(reason) => Err(StatementFault::Refused(reason)),
        None => Ok(test_on(alloc, &scope, conjuncts, Table::Fact)?),
    }
}
