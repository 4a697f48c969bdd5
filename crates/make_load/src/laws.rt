//! How long the made workload is.
ghost use Rattle.std.specs.Prelude.{ℕ, ◌≤◌, length};
ghost use Rattle.make_load.specs.Script.{made_script};

/// With at most a million sales a made script is no longer than a script may be: 64 MiB.
pub fn made_scripts_are_within_the_limit()
    ensures { (seed rows : ℕ) → rows ≤ 1000000 → length (made_script seed rows) ≤ 67108864 }
{}
