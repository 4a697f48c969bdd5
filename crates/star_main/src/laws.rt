//! What follows from the table for words of one kind, and for all words.
ghost use Rattle.std.specs.Prelude.{◌≡◌, ◌↔◌, true, None, List, IfSome, IsNone, IsSome, codes};
ghost use Rattle.star_main.specs.Help.{asks_for_help};
ghost use Rattle.star_main.specs.Ranges.{AreInRange};
ghost use Rattle.star_main.specs.Table.{is_among, settings_of};
ghost use Rattle.star_main.specs.WordFault.{fault_of_words};
ghost use Rattle.star_main.specs.Words.{Text};
ghost use Rattle.star_main.specs.declared.limits.TheConstants.{WORKERS, SLOTS, BATCH, SEED, ROWS, PORT, ACCEPT};

/// Words with `--` among them name no settings, wherever it stands.
pub(crate) fn two_hyphens_name_no_settings()
    ensures { (words : List Text) → is_among words (codes "--") ≡ true → settings_of words ≡ None }
{}

/// Words name no settings exactly if they have a fault.
pub(crate) fn words_without_settings_have_a_fault()
    ensures { (words : List Text) → IsNone (settings_of words) ↔ IsSome (fault_of_words words) }
{}

/// Words that ask for help name no settings.
pub(crate) fn words_that_ask_for_help_name_no_settings()
    ensures { (words : List Text) → asks_for_help words ≡ true → IsNone (settings_of words) }
{}

/// Each number of the settings that words name is one that its option takes.
pub(crate) fn settings_are_in_range()
    ensures { (words : List Text) → IfSome (settings_of words) AreInRange }
{}

/// The numbers that each option of a core takes, and the one that stands where it is left out.
pub(crate) fn options_of_a_core_have_their_ranges()
    ensures workers { WORKERS ≡ record { least = 0; greatest = 16; default = 0 } }
    ensures slots { SLOTS ≡ record { least = 1; greatest = 64; default = 64 } }
    ensures batch { BATCH ≡ record { least = 1; greatest = 1024; default = 256 } }
{}

/// The same for the options of a made workload.
pub(crate) fn options_of_a_made_workload_have_their_ranges()
    ensures seed { SEED ≡ record { least = 0; greatest = 9999999; default = 7 } }
    ensures rows { ROWS ≡ record { least = 0; greatest = 1000000; default = 100000 } }
{}

/// The same for the options of a server.
pub(crate) fn options_of_a_server_have_their_ranges()
    ensures port { PORT ≡ record { least = 1; greatest = 65535; default = 5433 } }
    ensures accept { ACCEPT ≡ record { least = 0; greatest = 9999999; default = 0 } }
{}
