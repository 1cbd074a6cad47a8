//! The moves of a position, and the positions to which they lead.
ghost use Rattle.std.specs.Prelude.{◌<◌, length};
ghost use Rattle.cn_game.specs.Boards.{position_of, state_in, status_of};
ghost use Rattle.cn_game.specs.TrapLists.{IsBoardOf, IsKnownStatus};

use crate::board::{Board, Run, Standing};
use cn_table::{Operation, Response, Table};
use std::alloc::{AllocError, Global};

/// A move of the adversary: a process, and the run in which it moves.
#[derive(Clone, Copy)]
pub(crate) struct Move {
    pub process: u8,
    pub run: Run,
}

impl Move {
    /// The move with this number: those of a process that is ahead come first, since they leave fewer
    /// moves that wait for an answer.
    pub(crate) fn numbered(number: u8) -> Move {
        let run = if number % 2 == 0 {
            Run::First
        } else {
            Run::Second
        };
        Move {
            process: number / 2,
            run,
        }
    }

    /// Whether the position, in canonical form, has this move, and the process in front of it has
    /// another standing. Processes with one standing have the same moves.
    pub(crate) fn is_of(self, board: &Board) -> bool {
        let standings = board.standings.as_slice();
        let place = self.process as usize;
        if place >= standings.len() {
            return false;
        }
        let standing = standings[place];
        if place > 0 && standing.is(standings[place - 1]) {
            return false;
        }
        match (standing, self.run) {
            (Standing::Poised(_), _) => true,
            (Standing::AheadInFirst(_, _), Run::Second) => true,
            (Standing::AheadInSecond(_, _), Run::First) => true,
            _ => false,
        }
    }
}

/// Adds the positions to which a process that has got the response in the other run can come.
fn add_answered(
    table: &Table,
    boards: &mut Vec<Board>,
    board: &Board,
    step: Move,
    operation: Operation,
    response: Response,
) -> Result<(), AllocError>
    requires process { step.process < length board.now.standings.items }
    requires operation { operation.0 < length table.now.operations }
    requires state { state_in step.run (position_of board.now) < length table.now.states }
{
    let (here, _) = table.apply(operation, board.state(step.run));
    if here.0 != response.0 {
        let new = board.after(table, step.run, step.process, operation, Standing::Lost);
        boards.push(new.canonical())?;
        return Ok(());
    }
    for next in 0..table.operations() {
        let poised = Standing::Poised(Operation(next));
        let new = board.after(table, step.run, step.process, operation, poised);
        boards.push(new.canonical())?;
    }
    Ok(())
}

/// Adds the position to which a poised process comes.
fn add_ahead(
    table: &Table,
    boards: &mut Vec<Board>,
    board: &Board,
    step: Move,
    operation: Operation,
) -> Result<(), AllocError>
    requires process { step.process < length board.now.standings.items }
    requires operation { operation.0 < length table.now.operations }
    requires state { state_in step.run (position_of board.now) < length table.now.states }
{
    let (response, _) = table.apply(operation, board.state(step.run));
    let ahead = Standing::ahead(step.run, operation, response);
    let new = board.after(table, step.run, step.process, operation, ahead);
    boards.push(new.canonical())?;
    Ok(())
}

/// Adds the positions to which the process with this standing can come.
fn add_answers(
    table: &Table,
    boards: &mut Vec<Board>,
    board: &Board,
    step: Move,
    standing: Standing,
) -> Result<(), AllocError>
    requires process { step.process < length board.now.standings.items }
    requires board { IsBoardOf table.now board.now }
    requires standing { IsKnownStatus table.now (status_of standing) }
{
    let process = step.process;
    match standing {
        Standing::Poised(o) => add_ahead(table, boards, board, step, o),
        Standing::AheadInFirst(o, r) => {
            let run = Run::Second;
            add_answered(table, boards, board, Move { process, run }, o, r)
        }
        Standing::AheadInSecond(o, r) => {
            let run = Run::First;
            add_answered(table, boards, board, Move { process, run }, o, r)
        }
        Standing::Lost => Ok(()),
    }
}

/// The positions to which the move can lead, in canonical form; none if the position is not the
/// table's, or has no such process.
pub(crate) fn answers(
    alloc: Global,
    table: &Table,
    board: &Board,
    step: Move,
) -> Result<Vec<Board>, AllocError> {
    let mut boards = Vec::new(alloc);
    let standings = board.standings.as_slice();
    let place = step.process as usize;
    if place < standings.len() && board.is_of(table) {
        let standing = standings[place];
        if standing.is_of(table) {
            add_answers(table, &mut boards, board, step, standing)?;
        }
    }
    Ok(boards)
}
