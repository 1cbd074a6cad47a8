//! The turns that the moves found reach.

use crate::moves::{Move, answers};
use crate::positions::{Positions, Verdict};
use crate::trap::Turn;
use cn_table::Table;
use std::alloc::{AllocError, Global};

/// The turns so far, and the positions that they have led to.
#[derive(Drop)]
struct Reached {
    turns: Vec<Turn>,
    /// Places of positions to which moves lead.
    waiting: Vec<usize>,
    /// For each position whether it has been followed.
    is_done: Vec<bool>,
}

impl Reached {
    /// Whether the position has not been followed before.
    fn is_new(&mut self, place: usize) -> bool {
        match self.is_done.get_mut(place) {
            Some(is_done) => {
                let is_new = !*is_done;
                *is_done = true;
                is_new
            }
            None => false,
        }
    }

    /// Follows a lost position: to its part, or by its move.
    fn follow(
        &mut self,
        alloc: Global,
        table: &Table,
        positions: &Positions,
        place: usize,
    ) -> Result<(), AllocError> {
        match positions.verdict(place) {
            Verdict::LostByPart(part) => {
                self.waiting.push(part)?;
                Ok(())
            }
            Verdict::LostByMove(step) => self.add_turn(alloc, table, positions, place, step),
            _ => Ok(()),
        }
    }

    /// Adds the turn with this move at the position, and goes on to its answers.
    fn add_turn(
        &mut self,
        alloc: Global,
        table: &Table,
        positions: &Positions,
        place: usize,
        step: Move,
    ) -> Result<(), AllocError> {
        let Some(board) = positions.board(place) else {
            return Ok(());
        };
        let boards = answers(alloc, table, &board, step)?;
        for answer in &boards {
            if let Some(next) = positions.find(answer) {
                self.waiting.push(next)?;
            }
        }
        self.turns.push(Turn {
            board,
            process: step.process,
            run: step.run,
        })?;
        Ok(())
    }
}

/// As many times no.
fn none_done(alloc: Global, many: usize) -> Result<Vec<bool>, AllocError> {
    let mut list = Vec::new(alloc);
    for _place in 0..many {
        list.push(false)?;
    }
    Ok(list)
}

/// The turns that the moves found reach from these lost positions, in order of their states.
pub(crate) fn turns_from(
    alloc: Global,
    table: &Table,
    positions: &Positions,
    starts: Vec<usize>,
) -> Result<Vec<Turn>, AllocError> {
    let mut reached = Reached {
        turns: Vec::new(alloc),
        waiting: starts,
        is_done: none_done(alloc, positions.len())?,
    };
    for _step in 0..u64::MAX {
        let Some(place) = reached.waiting.pop() else {
            break;
        };
        if reached.is_new(place) {
            reached.follow(alloc, table, positions, place)?;
        }
    }
    let mut turns = reached.turns;
    turns.sort_unstable_by_key(|turn| turn.board.pair());
    Ok(turns)
}
