//! What holds of all rows.
ghost use Rattle.shared_distributor.specs.Apart.{MayFoldApart};

use aggregations::rows_may_be_folded_apart;

/// Rows may be folded apart, and taken in at any time.
pub(crate) fn rows_fold_apart()
    ensures { MayFoldApart }
{
    rows_may_be_folded_apart();
}
