//! Small lists of words and the settings that they name, computed from the definitions.
ghost use Rattle.std.specs.Prelude.{◌≡◌, [], ◌∷◌, None, Some, codes};
ghost use Rattle.star_main.specs.Examples.{greatest_settings};
ghost use Rattle.star_main.specs.Table.{settings_of};

/// Each option at the greatest number that it takes, in two words or in one, in any order.
#[tactic(auto, unfolding(crate::specs::Table::settings_by, crate::specs::Words::entries_from))]
pub(crate) fn greatest_numbers_are_taken()
    ensures { settings_of (codes "--accept" ∷ codes "9999999" ∷ codes "--port=65535"
        ∷ codes "--rows" ∷ codes "1000000" ∷ codes "--seed=9999999"
        ∷ codes "--batch" ∷ codes "1024" ∷ codes "--slots=64"
        ∷ codes "--workers" ∷ codes "16" ∷ codes "--mode" ∷ codes "serve" ∷ [])
        ≡ Some greatest_settings }
{}

/// `--` names no settings, alone, behind an option or in the place of its value.
#[tactic(auto, unfolding(crate::specs::Table::settings_by, crate::specs::Words::entries_from))]
pub(crate) fn hyphens_name_no_settings()
    ensures hyphens_alone { settings_of (codes "--" ∷ []) ≡ None }
    ensures hyphens_behind { settings_of (codes "--workers" ∷ codes "5" ∷ codes "--" ∷ []) ≡ None }
    ensures hyphens_as_value { settings_of (codes "--mode" ∷ codes "--" ∷ []) ≡ None }
{}

/// Requests for help and for the version name no settings.
#[tactic(auto, unfolding(crate::specs::Table::settings_by, crate::specs::Words::entries_from))]
pub(crate) fn requests_name_no_settings()
    ensures help { settings_of (codes "--help" ∷ []) ≡ None }
    ensures short_help { settings_of (codes "-h" ∷ []) ≡ None }
    ensures version { settings_of (codes "--version" ∷ []) ≡ None }
{}

/// Words that stand for no option and no value name no settings.
#[tactic(auto, unfolding(crate::specs::Table::settings_by, crate::specs::Words::entries_from))]
pub(crate) fn other_words_name_no_settings()
    ensures hyphen { settings_of (codes "-" ∷ []) ≡ None }
    ensures value_alone { settings_of (codes "run" ∷ []) ≡ None }
    ensures second_value { settings_of (codes "--seed" ∷ codes "7" ∷ codes "8" ∷ []) ≡ None }
    ensures behind_empty_word { settings_of (codes "--mode" ∷ codes "" ∷ codes "run" ∷ []) ≡ None }
{}

/// An option has its value.
#[tactic(auto, unfolding(crate::specs::Table::settings_by, crate::specs::Words::entries_from))]
pub(crate) fn options_have_values()
    ensures no_value { settings_of (codes "--mode" ∷ []) ≡ None }
    ensures empty_value { settings_of (codes "--mode=" ∷ []) ≡ None }
{}

/// Names and modes are in small letters and written out.
#[tactic(auto, unfolding(crate::specs::Table::settings_by, crate::specs::Words::entries_from))]
pub(crate) fn names_and_modes_are_written_out()
    ensures capital_in_value { settings_of (codes "--mode" ∷ codes "Run" ∷ []) ≡ None }
    ensures capitals_in_name { settings_of (codes "--MODE" ∷ codes "run" ∷ []) ≡ None }
    ensures short_name { settings_of (codes "--mod" ∷ codes "run" ∷ []) ≡ None }
{}

/// An option stands once, however it is written.
#[tactic(auto, unfolding(crate::specs::Table::settings_by, crate::specs::Words::entries_from))]
pub(crate) fn options_stand_once()
    ensures repeated { settings_of (codes "--mode" ∷ codes "run"
        ∷ codes "--mode" ∷ codes "run" ∷ []) ≡ None }
    ensures repeated_otherwise { settings_of (codes "--workers=1"
        ∷ codes "--workers" ∷ codes "1" ∷ []) ≡ None }
{}

/// The word behind a name is its value, also where it looks like an option.
#[tactic(auto, unfolding(crate::specs::Table::settings_by, crate::specs::Words::entries_from))]
pub(crate) fn the_word_behind_a_name_is_its_value()
    ensures name_as_value { settings_of (codes "--workers" ∷ codes "--slots" ∷ []) ≡ None }
    ensures name_before_value { settings_of (codes "--workers"
        ∷ codes "--slots" ∷ codes "5" ∷ []) ≡ None }
{}

/// A number is one to seven digits and nothing else.
#[tactic(auto, unfolding(crate::specs::Table::settings_by, crate::specs::Words::entries_from))]
pub(crate) fn what_is_no_number_is_not_taken()
    ensures minus { settings_of (codes "--workers" ∷ codes "-1" ∷ []) ≡ None }
    ensures plus { settings_of (codes "--workers" ∷ codes "+1" ∷ []) ≡ None }
    ensures second_sign { settings_of (codes "--rows==5" ∷ []) ≡ None }
    ensures eight_digits { settings_of (codes "--seed" ∷ codes "00000007" ∷ []) ≡ None }
    ensures eight_digits_past { settings_of (codes "--accept" ∷ codes "10000000" ∷ []) ≡ None }
{}

/// A number above the range of its option is not taken.
#[tactic(auto, unfolding(crate::specs::Table::settings_by, crate::specs::Words::entries_from))]
pub(crate) fn numbers_above_their_range_are_not_taken()
    ensures workers_above { settings_of (codes "--workers" ∷ codes "17" ∷ []) ≡ None }
    ensures slots_above { settings_of (codes "--slots" ∷ codes "65" ∷ []) ≡ None }
    ensures batch_above { settings_of (codes "--batch" ∷ codes "1025" ∷ []) ≡ None }
    ensures rows_above { settings_of (codes "--rows" ∷ codes "1000001" ∷ []) ≡ None }
    ensures port_above { settings_of (codes "--port" ∷ codes "65536" ∷ []) ≡ None }
{}

/// A number below the range of its option is not taken.
#[tactic(auto, unfolding(crate::specs::Table::settings_by, crate::specs::Words::entries_from))]
pub(crate) fn numbers_below_their_range_are_not_taken()
    ensures slots_below { settings_of (codes "--slots" ∷ codes "0" ∷ []) ≡ None }
    ensures batch_below { settings_of (codes "--batch" ∷ codes "0" ∷ []) ≡ None }
    ensures port_below { settings_of (codes "--port" ∷ codes "0" ∷ []) ≡ None }
{}
