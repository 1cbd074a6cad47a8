//! The moves of the adversary in a trap, from positions that have all processes.

use arrayvec::ArrayVec;
use cn_choice::MOST_PROCESSES;
use cn_game::{Board, Run, Standing, Trap, Turn};
use cn_reasons::Step;
use cn_table::{Operation, Response, State, Table};

/// A move of the adversary: a process, the run in which it moves, and its operation there.
#[derive(Clone, Copy)]
pub(crate) struct Move {
    pub process: u8,
    pub run: Run,
    pub operation: Operation,
    /// The response that it has got in the other run, if it has moved there.
    pub other: Option<Response>,
}

/// Whether the two are the same.
fn are_alike(one: Standing, other: Standing) -> bool {
    match (one, other) {
        (Standing::Poised(o), Standing::Poised(p)) => o == p,
        (Standing::AheadInFirst(o, r), Standing::AheadInFirst(p, s)) => o == p && r == s,
        (Standing::AheadInSecond(o, r), Standing::AheadInSecond(p, s)) => o == p && r == s,
        (Standing::Lost, Standing::Lost) => true,
        _ => false,
    }
}

/// How many of the standings are this one.
fn occurrences(standings: &[Standing], one: Standing) -> usize {
    standings
        .iter()
        .filter(|standing| are_alike(**standing, one))
        .count()
}

/// Whether the position is a part of the other one: the same states, and some of its processes in any
/// order.
fn is_part(part: &Board, board: &Board) -> bool {
    let (few, many) = (part.standings.as_slice(), board.standings.as_slice());
    part.first == board.first
        && part.second == board.second
        && few
            .iter()
            .all(|one| occurrences(few, *one) <= occurrences(many, *one))
}

/// Whether the two positions are the same.
pub(crate) fn is_same(one: &Board, other: &Board) -> bool {
    let (ones, others) = (one.standings.as_slice(), other.standings.as_slice());
    one.first == other.first
        && one.second == other.second
        && ones.len() == others.len()
        && ones.iter().zip(others).all(|(a, b)| are_alike(*a, *b))
}

/// The number of the pair of states by which turns are sorted.
fn pair_of(board: &Board) -> u16 {
    256 * board.first.0 as u16 + board.second.0 as u16
}

/// The first process that is poised.
fn poised_process(board: &Board) -> Option<u8> {
    let place = board
        .standings
        .as_slice()
        .iter()
        .position(|standing| matches!(standing, Standing::Poised(_)))?;
    Some(place as u8)
}

/// A process that gets the same in both runs, if both leave one state.
pub(crate) fn ended_process(board: &Board) -> Option<u8> {
    if board.first == board.second {
        poised_process(board)
    } else {
        None
    }
}

/// The turn of the trap for the position.
fn turn_at<'t>(trap: &'t Trap, board: &Board) -> Option<&'t Turn> {
    let turns = trap.turns.as_slice();
    let start = turns.partition_point(|turn| pair_of(&turn.board) < pair_of(board));
    turns
        .get(start..)?
        .iter()
        .take_while(|turn| pair_of(&turn.board) == pair_of(board))
        .find(|turn| is_part(&turn.board, board))
}

/// The move of a process with this standing, for a poised one in this run.
fn move_of(process: u8, standing: Standing, run: Run) -> Option<Move> {
    let (run, operation, other) = match standing {
        Standing::Poised(o) => (run, o, None),
        Standing::AheadInFirst(o, r) => (Run::Second, o, Some(r)),
        Standing::AheadInSecond(o, r) => (Run::First, o, Some(r)),
        Standing::Lost => return None,
    };
    Some(Move {
        process,
        run,
        operation,
        other,
    })
}

/// The move of the adversary in the position, if the trap has one.
pub(crate) fn move_in(trap: &Trap, board: &Board) -> Option<Move> {
    let turn = turn_at(trap, board)?;
    let moving = *turn.board.standings.as_slice().get(turn.process as usize)?;
    let place = board
        .standings
        .as_slice()
        .iter()
        .position(|standing| are_alike(*standing, moving))?;
    move_of(place as u8, moving, turn.run)
}

/// The step of the process with the operation in the state, if both are the table's.
pub(crate) fn step_in(
    table: &Table,
    process: u8,
    operation: Operation,
    state: State,
) -> Option<Step> {
    if operation.0 >= table.operations() || state.0 >= table.states() {
        return None;
    }
    let (response, state) = table.apply(operation, state);
    Some(Step {
        process,
        operation,
        response,
        state,
    })
}

/// The standings with another one in this place.
fn with_standing(
    standings: &ArrayVec<Standing, MOST_PROCESSES>,
    process: u8,
    new: Standing,
) -> ArrayVec<Standing, MOST_PROCESSES> {
    let mut list = ArrayVec::new();
    let _fits = list.try_extend_from_slice(standings.as_slice());
    if let Some(standing) = list.as_mut_slice().get_mut(process as usize) {
        *standing = new;
    }
    list
}

/// The position after the step in the run, which gives the process another standing.
pub(crate) fn board_after(board: &Board, run: Run, step: Step, new: Standing) -> Board {
    let (first, second) = match run {
        Run::First => (step.state, board.second),
        Run::Second => (board.first, step.state),
    };
    Board {
        first,
        second,
        standings: with_standing(&board.standings, step.process, new),
    }
}

/// The state in the run.
pub(crate) fn state_in(board: &Board, run: Run) -> State {
    match run {
        Run::First => board.first,
        Run::Second => board.second,
    }
}

/// That of a process that has done the step in this run alone.
pub(crate) fn ahead(run: Run, step: Step) -> Standing {
    match run {
        Run::First => Standing::AheadInFirst(step.operation, step.response),
        Run::Second => Standing::AheadInSecond(step.operation, step.response),
    }
}
