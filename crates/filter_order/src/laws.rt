//! What holds of all orders, whatever call made them.
ghost use Rattle.std.specs.Prelude.{◌≡◌, ℕ, List};
ghost use Rattle.dimension_filter.specs.declared.drop_tally.DropTally.{DropTally};
ghost use Rattle.filter_order.specs.Rates.{IsOrderedByDropRate};

/// Filters have one order by drop rate.
pub fn orders_by_drop_rate_are_equal()
    ensures { (tallies : List DropTally) (order other : List ℕ) →
        IsOrderedByDropRate tallies order → IsOrderedByDropRate tallies other → order ≡ other }
{}
