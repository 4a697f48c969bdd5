//! Whether the plain items of a select are grouped.
ghost use Rattle.std.specs.Prelude.{◌≡◌, map};
ghost use Rattle.std.specs.List.{list_any};
ghost use Rattle.star_plan.specs.Answer.{same_place};
ghost use Rattle.star_binder.specs.Places.{place_of};
ghost use Rattle.star_binder.specs.Refused.{is_not_grouped};

use crate::scope::Scope;
use star_parser::{AstItem, Column};
use star_plan::Place;

/// Whether a plain item is none of the groups.
pub(crate) fn has_item_that_is_not_grouped(
    scope: &Scope,
    items: &[AstItem],
    groups: &[Column],
) -> bool
    ensures { result
        ≡ list_any (is_not_grouped scope.now groups.now) items.now }
{
    'items: for item in items {
        if is_not_grouped(scope, groups, item) {
            return true;
        }
    }
    false
}

fn is_not_grouped(scope: &Scope, groups: &[Column], item: &AstItem) -> bool
    ensures { result
        ≡ is_not_grouped scope.now groups.now item.now }
{
    match item {
        AstItem::Plain(column) => !is_place_of_one(scope, groups, scope.place_of(column)),
        AstItem::CountAll
        | AstItem::Count(_)
        | AstItem::Sum(_)
        | AstItem::Min(_)
        | AstItem::Max(_) => false,
    }
}

/// Whether a place is that of one of these columns.
fn is_place_of_one(scope: &Scope, columns: &[Column], place: Place) -> bool
    ensures { result ≡ list_any (same_place place)
        (map (place_of scope.now) columns.now) }
{
    'columns: for column in columns {
        if is_same_place(place, scope.place_of(column)) {
            return true;
        }
    }
    false
}

fn is_same_place(place: Place, other: Place) -> bool
    ensures { result ≡ same_place place other }
{
    place == other
}
