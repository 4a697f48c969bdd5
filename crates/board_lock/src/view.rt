//! What a seat knows, and what each step on the table tells it. Values of these
//! types exist in proofs alone.
use crate::board::Board;
use atomic_table::{Join, Play, Split, TableRule};
use std::collections::LinkedList;
use std::snapshot::Snapshot;

/// A seat that was joined: its number, the state that it left last, and the one
/// whose commits it had seen.
pub struct Parted<S> {
    pub number: u64,
    pub last: Option<S>,
    pub seen: Option<S>,
}

/// What a seat knows.
///
/// It notes whole states, of which only its own row, the list and the fixed
/// value are known to stay true.
pub struct View<S> {
    /// It is false once the seat was joined.
    pub live: bool,
    pub number: u64,
    /// How many seats were made. The first seat alone counts them.
    pub made: u64,
    /// The seat has the state.
    pub inside: bool,
    /// The state that the seat took or left last.
    pub last: Option<S>,
    /// The state whose commits the seat has seen.
    pub seen: Option<S>,
    /// The seats that the first seat joined, the last of them in front.
    pub joined: LinkedList<Parted<S>>,
}

/// The rule of the table. Its one word is the turn, and its one slot holds the state.
pub struct Turns;

impl<S: Board> TableRule<Option<S>, View<S>, Snapshot<S>> for Turns {
    ghost use Rattle.board_lock.specs.Rule.{IsBoard};
    ghost use Rattle.board_lock.specs.Views.{first_view};

    ghost holds = { λ _. IsBoard S.Board.row S.Board.empty S.Board.commits S.Board.fixed };

    ghost first = { λ key. first_view key.value };
}

// The turn is taken.
pub(crate) struct Take;

impl<S: Board> Play<Option<S>, View<S>> for Take {
    ghost use Rattle.board_lock.specs.Rule.{TakesTurn};

    ghost then = { λ _. TakesTurn S.Board.row S.Board.empty S.Board.commits S.Board.fixed };
}

// The turn is given.
pub(crate) struct Give;

impl<S> Play<Option<S>, View<S>> for Give {
    ghost use Rattle.board_lock.specs.Rule.{GivesBack};

    ghost then = { λ _ before _ after. GivesBack before after };
}

// The first seat looks before it splits.
pub(crate) struct FirstLook;

impl<S: Board> Play<Option<S>, View<S>> for FirstLook {
    ghost use Rattle.board_lock.specs.Rule.{Looks};

    ghost then = { λ _ before _ after. Looks S.Board.row S.Board.empty before after };
}

pub(crate) struct Parting;

impl<S> Split<View<S>> for Parting {
    ghost use Rattle.board_lock.specs.Views.{split_view, new_view};

    ghost left = { split_view };

    ghost right = { new_view };
}

pub(crate) struct Glue;

impl<S> Join<View<S>> for Glue {
    ghost use Rattle.board_lock.specs.Views.{with_parted, spent_view};

    ghost both = { with_parted };

    ghost spent = { spent_view };
}

// The first seat compares what it has seen with what the seat that it joined had seen.
pub(crate) struct Compare;

impl<S: Board> Play<Option<S>, View<S>> for Compare {
    ghost use Rattle.board_lock.specs.Rule.{Compares};

    ghost then = { λ _ before _ after. Compares S.Board.commits before after };
}
