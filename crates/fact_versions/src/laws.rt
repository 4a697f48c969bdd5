//! What holds of all versions, whatever call made them.
ghost use Rattle.std.specs.Prelude.{◌≡◌, ◌≢◌, ℕ, ◌<◌, false, List, length, slice_get, option_map};
ghost use Rattle.fact_versions.specs.declared.version.Version.{Version};
ghost use Rattle.fact_versions.specs.Ends.{ended_by, with_end};
ghost use Rattle.fact_versions.specs.Visible.{is_visible};
ghost use Rattle.fact_versions.specs.declared.version.TheConstants.{MAX_VERSIONS};

/// A written end changes the version at its position alone, and there the end alone.
pub fn ends_change_one_version()
    ensures count { (versions : List Version) (position commit : ℕ) →
        length (with_end versions position commit) ≡ length versions }
    ensures there { (versions : List Version) (position commit : ℕ) →
        slice_get (with_end versions position commit) position
        ≡ option_map (ended_by commit) (slice_get versions position) }
    ensures others { (versions : List Version) (position commit other : ℕ) → other ≢ position →
        slice_get (with_end versions position commit) other ≡ slice_get versions other }
{}

/// A version that was not ended is seen at a snapshot as before when a later commit ends it.
pub fn a_later_end_hides_nothing()
    ensures { (begin commit snapshot : ℕ) → snapshot < commit →
        is_visible begin 0 snapshot ≡ is_visible begin commit snapshot }
{}

/// A version that a later commit loads is not seen, whether it was ended or not.
pub fn a_later_load_is_not_seen()
    ensures { (begin end snapshot : ℕ) → snapshot < begin → is_visible begin end snapshot ≡ false }
{}

/// The most versions of a fact table, ended ones included.
pub fn fact_tables_have_their_limit()
    ensures { MAX_VERSIONS ≡ 1048576 }
{}
