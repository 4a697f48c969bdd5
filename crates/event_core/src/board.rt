//! That a core may be lent to one seat after another.
use crate::machine::Core;
use board_lock::Board;

impl Board for Core {
    ghost use Rattle.core_state.specs.State as state;
    ghost use Rattle.core_state.specs.declared.settings.RunSettings.{RunSettings};
    ghost use Rattle.event_core.specs.Board.{CoreRow, core_entries, core_row, core_settings, first_row};

    ghost Row = { CoreRow };

    ghost Entry = { state.Entry };

    ghost Fixed = { RunSettings };

    ghost row = { core_row };

    ghost empty = { first_row };

    ghost commits = { core_entries };

    ghost fixed = { core_settings };
}
