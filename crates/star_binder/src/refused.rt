//! The one order of checks: the first that fails gives the reason for which a statement is refused.
//! Each check alone is in `known`, `select`, `kinds`, `joined` or `grouped`.
ghost use Rattle.std.specs.Prelude.{◌≡◌, ◌||◌, flat_map, map, not, IfOk};
ghost use Rattle.std.specs.List.{list_any};
ghost use Rattle.star_parser.specs.Condition.{condition_of};
ghost use Rattle.star_plan.specs.declared.table.Table.TheVariants as table;
ghost use Rattle.star_binder.specs.Bound.{query_in, test_on};
ghost use Rattle.star_binder.specs.Checked.{unless_refused};
ghost use Rattle.star_binder.specs.Named.{columns_in};
ghost use Rattle.star_binder.specs.Parts.{parts_of};
ghost use Rattle.star_binder.specs.Places.{is_unknown};
ghost use Rattle.star_binder.specs.Refused.{bound_in, bound_named, bound_over, names_the_fact};

use crate::grouped::has_item_that_is_not_grouped;
use crate::joined::{has_mixed_conjunct, lacks_a_join};
use crate::kinds::{has_another_kind, has_type_mismatch};
use crate::known::{
    has_ambiguous_column, has_repeated_table, has_unknown_name, has_unknown_name_in_delete,
};
use crate::named::add_conjunct_columns;
use crate::scope::Scope;
use crate::select::{Select, columns_named, is_too_large};
use star_parser::Tree;
use star_values::{NoMemory, Refusal, SmallText};
use std::alloc::Global;

/// The first reason that refuses a select, where there is one.
pub(crate) fn refusal_of(
    alloc: Global,
    scope: &Scope,
    select: &Select,
) -> Result<Option<Refusal>, NoMemory>
    ensures { IfOk result (λ refusal. bound_over scope.now (parts_of select.now)
        ≡ unless_refused refusal (query_in scope.now (parts_of select.now))) }
{
    let columns = columns_named(alloc, select)?;
    if has_repeated_table(alloc, scope)? {
        return Ok(Some(Refusal::DuplicateName));
    }
    if has_unknown_name(scope, select.names, columns.as_slice()) {
        return Ok(Some(Refusal::UnknownName));
    }
    if is_too_large(select) {
        return Ok(Some(Refusal::Limit));
    }
    if has_ambiguous_column(scope, columns.as_slice()) {
        return Ok(Some(Refusal::AmbiguousName));
    }
    refusal_of_named(alloc, scope, select)
}

/// The first reason that refuses a select of known names, where there is one.
fn refusal_of_named(
    alloc: Global,
    scope: &Scope,
    select: &Select,
) -> Result<Option<Refusal>, NoMemory>
    ensures { IfOk result (λ refusal. bound_named scope.now (parts_of select.now)
        ≡ unless_refused refusal (query_in scope.now (parts_of select.now))) }
{
    if has_type_mismatch(alloc, scope, select)? {
        return Ok(Some(Refusal::TypeMismatch));
    }
    if lacks_a_join(scope, select.conjuncts) {
        return Ok(Some(Refusal::MissingJoin));
    }
    if has_mixed_conjunct(alloc, scope, select.conjuncts)? {
        return Ok(Some(Refusal::MixedConjunct));
    }
    if has_item_that_is_not_grouped(scope, select.items, select.groups) {
        return Ok(Some(Refusal::NotGrouped));
    }
    Ok(None)
}

/// The first reason that refuses a delete, where there is one.
pub(crate) fn refusal_of_delete(
    alloc: Global,
    scope: &Scope,
    name: &SmallText,
    conjuncts: &[Tree],
) -> Result<Option<Refusal>, NoMemory>
    ensures { IfOk result (λ refusal.
        bound_in scope.now name.now (map condition_of conjuncts.now)
        ≡ unless_refused refusal
        (test_on scope.now (map condition_of conjuncts.now) table.Fact)) }
{
    if names_unknown(alloc, scope, name, conjuncts)? {
        return Ok(Some(Refusal::UnknownName));
    }
    if has_another_kind(alloc, scope, conjuncts)? {
        return Ok(Some(Refusal::TypeMismatch));
    }
    if has_mixed_conjunct(alloc, scope, conjuncts)? {
        return Ok(Some(Refusal::MixedConjunct));
    }
    Ok(None)
}

/// Whether a delete names what is unknown.
fn names_unknown(
    alloc: Global,
    scope: &Scope,
    name: &SmallText,
    conjuncts: &[Tree],
) -> Result<bool, NoMemory>
    ensures { IfOk result (λ unknown. unknown ≡ (not (names_the_fact scope.now.schema name.now)
        || list_any (is_unknown scope.now)
        (flat_map columns_in (map condition_of conjuncts.now)))) }
{
    let mut columns = Vec::new(alloc);
    add_conjunct_columns(&mut columns, conjuncts)?;
    Ok(has_unknown_name_in_delete(scope, name, columns.as_slice()))
}
