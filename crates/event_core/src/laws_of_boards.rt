//! What a seat that a core was lent to has to keep of it.
ghost use Rattle.std.specs.Prelude.{◌≡◌, ℕ, Some};
ghost use Rattle.board_lock.specs.Views.{Keeps};
ghost use Rattle.board_lock.specs.declared.view.View.{View};
ghost use Rattle.core_state.specs.Rows.{IsMindful};
ghost use Rattle.event_core.specs.Board.{core_entries, core_row, core_settings, first_row};
ghost use Rattle.event_core.specs.CoreParts.{CoreParts, LeavesLoans, beside_of, loan_of};
ghost use Rattle.event_core.specs.Seen.{state_of};

/// A core that a seat found may be put back by it where steps of that seat alone have changed it,
/// and each other seat has what it had.
pub fn own_steps_keep_a_board()
    ensures { (view : View CoreParts) (found core : CoreParts) → view.last ≡ Some found →
        IsMindful view.number (state_of found) (state_of core) →
        LeavesLoans view.number found core →
        Keeps core_row first_row core_entries core_settings view core }
{}

/// Where what is beside the state stays as it is, each seat has what it had of the core.
pub fn what_is_beside_stays_lent()
    ensures { (old new : CoreParts) → beside_of new ≡ beside_of old →
        (seat : ℕ) → loan_of new seat ≡ loan_of old seat }
{}
