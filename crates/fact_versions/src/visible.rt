//! Which versions a query sees.
ghost use Rattle.std.specs.Prelude.{◌≡◌};
ghost use Rattle.fact_versions.specs.Visible.{is_visible};

/// Whether a query that reads the state after the commit `snapshot` sees a version that the commit
/// `begin` loaded and the commit `end` deleted, or none where it is 0.
pub fn is_visible(begin: u64, end: u64, snapshot: u64) -> bool
    ensures { result ≡ is_visible begin end snapshot }
{
    begin <= snapshot && (end == 0 || snapshot < end)
}
