//! The turns of a trap, found by the states of their positions.
ghost use Rattle.std.specs.Prelude.{◌≡◌, ◌↔◌, Any, Contains, IsTrue, length, true};
ghost use Rattle.cn_game.specs.Boards.{position_of};
ghost use Rattle.cn_game.specs.InOrder.{AreInOrder, pair_of};
ghost use Rattle.cn_game.specs.TrapLists.{IsCaught, IsPart};
ghost use Rattle.cn_game.specs.declared.trap.Turn.{Turn};

use crate::board::Board;
use crate::trap::Turn;
use std::marker::Model;

/// The turns of a trap. Where they stand in order of the states of their positions, those with two
/// states are found by halves.
///
/// Contracts see them as a list.
#[derive(Drop)]
pub(crate) struct Turns<'t> {
    list: &'t [Turn],
    /// Whether they are known to stand in order.
    are_in_order: bool,
}

impl<'t> Model for Turns<'t> {
    ghost use Rattle.std.specs.Prelude.{◌≡◌, List, true};
    ghost use Rattle.cn_game.specs.InOrder.{AreInOrder};
    ghost use Rattle.cn_game.specs.declared.trap.Turn.{Turn};

    ghost Value = { List Turn };

    ghost view = { λ s. s.list.now };

    ghost invariant = { λ s. s.are_in_order ≡ true → AreInOrder s.list.now };
}

/// Whether the turns stand in order of the states of their positions.
fn are_in_order(turns: &[Turn]) -> bool
    ensures { result ≡ true → AreInOrder turns.now }
{
    turns.is_sorted_by(|one, next| one.board.pair() <= next.board.pair())
}

/// Those of the turns in order whose positions have this pair of states.
fn with_pair(turns: &[Turn], pair: u16) -> &[Turn]
    requires { AreInOrder turns.now }
    ensures listed { (turn : Turn) → Contains result.now turn → Contains turns.now turn }
    ensures all { (turn : Turn) → Contains turns.now turn → pair_of turn.board ≡ pair
        → Contains result.now turn }
{
    let start = turns.partition_point(|turn| turn.board.pair() < pair);
    let rest = &turns[start..];
    let end = rest.partition_point(|turn| turn.board.pair() <= pair);
    &rest[..end]
}

/// Whether the position of some turn is a part of this one.
fn has_part_of(turns: &[Turn], board: &Board) -> bool
    ensures { IsTrue result ↔ Any (λ turn. IsPart turn.board
        (length board.now.standings.items) (position_of board.now)) turns.now }
{
    turns.iter().any(|turn| turn.board.is_part_of(board))
}

impl<'t> Turns<'t> {
    /// These turns.
    pub fn new(list: &'t [Turn]) -> Turns<'t>
        ensures { result ≡ list.now }
    {
        let are_in_order = are_in_order(list);
        Turns { list, are_in_order }
    }

    /// The turns as a slice.
    pub fn as_slice(&self) -> &'t [Turn]
        ensures { result.now ≡ self.now }
    {
        self.list
    }

    /// Those whose positions have this pair of states, and maybe others.
    fn near(&self, pair: u16) -> &'t [Turn]
        ensures listed { (turn : Turn) → Contains result.now turn → Contains self.now turn }
        ensures all { (turn : Turn) → Contains self.now turn → pair_of turn.board ≡ pair
            → Contains result.now turn }
    {
        if self.are_in_order {
            with_pair(self.list, pair)
        } else {
            self.list
        }
    }

    /// Whether the position of some turn is a part of this one.
    fn holds_part_of(&self, board: &Board) -> bool
        ensures { IsTrue result ↔ Any (λ turn. IsPart turn.board
            (length board.now.standings.items) (position_of board.now)) self.now }
    {
        has_part_of(self.near(board.pair()), board)
    }

    /// Whether the position is caught.
    pub fn catches(&self, board: &Board) -> bool
        ensures { IsTrue result ↔ IsCaught self.now (length board.now.standings.items)
            (position_of board.now) }
    {
        board.is_leaf() || self.holds_part_of(board)
    }
}
