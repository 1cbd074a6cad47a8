//! The search for a play: the adversary follows the moves of a trap, and the protocol chooses among
//! its answers one that is on a shortest way to the end.
ghost use Rattle.std.specs.Prelude.{◌≤◌, length};
ghost use Rattle.cn_choice.specs.declared.limits.TheConstants.{MOST_PROCESSES};

use crate::moves::{Move, ahead, board_after, ended_process, is_same, move_in, state_in, step_in};
use crate::play::PlayEnd;
use arrayvec::ArrayVec;
use cn_choice::{MOST_PROCESSES, RawChoice, Team};
use cn_game::{Board, Run, Standing, Trap};
use cn_reasons::Step;
use cn_table::{Operation, Table};
use std::alloc::{AllocError, Global};

/// The search gives up behind so many positions.
const MOST_BOARDS: usize = 2_000;

/// A step of a run, and the place of the step of the play before it.
#[derive(Clone, Copy)]
struct Link {
    run: Run,
    step: Step,
    before: Option<usize>,
}

/// A position, and the place of the last step that led to it.
#[derive(Drop)]
struct Reached {
    board: Board,
    last: usize,
}

/// The positions to which the adversary can come, in the order of the numbers of steps, and the steps
/// that led there.
#[derive(Drop)]
struct Search {
    links: Vec<Link>,
    reached: Vec<Reached>,
}

/// Two runs that a process cannot tell apart.
#[derive(Drop)]
pub(crate) struct FoundRuns {
    pub a_first: Vec<Step>,
    pub b_first: Vec<Step>,
    pub end: PlayEnd,
}

/// The standings of processes that are about to apply these operations.
fn poised(operations: &[u8]) -> ArrayVec<Standing, MOST_PROCESSES> {
    let mut standings = ArrayVec::new();
    for operation in operations {
        let _fits = standings.try_push(Standing::Poised(Operation(*operation)));
    }
    standings
}

/// The step of the process from the start state, if it is in the team.
fn first_step(table: &Table, choice: &RawChoice, process: u8, team: Team) -> Option<Step> {
    let place = process as usize;
    if *choice.marks.get(place)? != team {
        return None;
    }
    let operation = Operation(*choice.operations.get(place)?);
    step_in(table, process, operation, choice.state)
}

/// The position after the step in the first run, and the other one in the second.
fn start_of(choice: &RawChoice, a: Step, b: Step) -> Board {
    let start = Board {
        first: choice.state,
        second: choice.state,
        standings: poised(choice.operations.as_slice()),
    };
    let next = board_after(&start, Run::First, a, ahead(Run::First, a));
    board_after(&next, Run::Second, b, ahead(Run::Second, b))
}

impl Search {
    /// Whether the position has been reached.
    fn has(&self, board: &Board) -> bool {
        self.reached.iter().any(|one| is_same(&one.board, board))
    }

    /// Adds the step.
    fn link(&mut self, run: Run, step: Step, before: Option<usize>) -> Result<usize, AllocError> {
        let place = self.links.len();
        self.links.push(Link { run, step, before })?;
        Ok(place)
    }

    /// Adds the position behind the last step, if it is new and there is room.
    fn reach(&mut self, board: Board, last: usize) -> Result<(), AllocError> {
        if self.reached.len() < MOST_BOARDS && !self.has(&board) {
            self.reached.push(Reached { board, last })?;
        }
        Ok(())
    }

    /// Adds the start with these steps, if the trap catches it.
    fn begin(
        &mut self,
        trap: &Trap,
        choice: &RawChoice,
        a: Step,
        b: Step,
    ) -> Result<(), AllocError> {
        let start = start_of(choice, a, b);
        if ended_process(&start).is_none() && move_in(trap, &start).is_none() {
            return Ok(());
        }
        let first = self.link(Run::First, a, None)?;
        let last = self.link(Run::Second, b, Some(first))?;
        self.reach(start, last)
    }

    /// Adds the starts in which this step is first in the first run.
    fn begin_with(
        &mut self,
        table: &Table,
        trap: &Trap,
        choice: &RawChoice,
        a: Step,
    ) -> Result<(), AllocError>
        requires { length choice.now.operations ≤ MOST_PROCESSES }
    {
        for process in 0..choice.operations.len() as u8 {
            if let Some(b) = first_step(table, choice, process, Team::B) {
                self.begin(trap, choice, a, b)?;
            }
        }
        Ok(())
    }

    /// Adds all starts that the trap catches.
    fn begin_all(
        &mut self,
        table: &Table,
        trap: &Trap,
        choice: &RawChoice,
    ) -> Result<(), AllocError>
        requires { length choice.now.operations ≤ MOST_PROCESSES }
    {
        for process in 0..choice.operations.len() as u8 {
            if let Some(a) = first_step(table, choice, process, Team::A) {
                self.begin_with(table, trap, choice, a)?;
            }
        }
        Ok(())
    }

    /// Adds the positions to which the step of the move leads.
    fn follow(
        &mut self,
        table: &Table,
        board: &Board,
        moved: Move,
        step: Step,
        last: usize,
    ) -> Result<(), AllocError> {
        let run = moved.run;
        let Some(response) = moved.other else {
            return self.reach(board_after(board, run, step, ahead(run, step)), last);
        };
        if response != step.response {
            return self.reach(board_after(board, run, step, Standing::Lost), last);
        }
        for next in 0..table.operations() {
            let poised = Standing::Poised(Operation(next));
            self.reach(board_after(board, run, step, poised), last)?;
        }
        Ok(())
    }

    /// Adds the positions that come after this one by the move of the trap.
    fn go_on(
        &mut self,
        table: &Table,
        trap: &Trap,
        board: &Board,
        last: usize,
    ) -> Result<(), AllocError> {
        let Some(moved) = move_in(trap, board) else {
            return Ok(());
        };
        let state = state_in(board, moved.run);
        let Some(step) = step_in(table, moved.process, moved.operation, state) else {
            return Ok(());
        };
        let last = self.link(moved.run, step, Some(last))?;
        self.follow(table, board, moved, step, last)
    }
}

/// An equal position.
fn copy_of(board: &Board) -> Board {
    let mut standings = ArrayVec::new();
    let _fits = standings.try_extend_from_slice(board.standings.as_slice());
    Board {
        first: board.first,
        second: board.second,
        standings,
    }
}

impl Search {
    /// The runs of the steps that led to this one.
    fn runs_to(&self, alloc: Global, last: usize, end: PlayEnd) -> Result<FoundRuns, AllocError> {
        let (mut a_first, mut b_first) = (Vec::new(alloc), Vec::new(alloc));
        let mut place = Some(last);
        for _step in 0..self.links.len() {
            let Some(link) = place.and_then(|place| self.links.get(place)) else {
                break;
            };
            match link.run {
                Run::First => a_first.push(link.step)?,
                Run::Second => b_first.push(link.step)?,
            }
            place = link.before;
        }
        a_first.as_mut_slice().reverse();
        b_first.as_mut_slice().reverse();
        Ok(FoundRuns {
            a_first,
            b_first,
            end,
        })
    }

    /// The place of the first end, with its last step, if one is found.
    fn find_end(
        &mut self,
        table: &Table,
        trap: &Trap,
    ) -> Result<Option<(usize, PlayEnd)>, AllocError> {
        for place in 0..MOST_BOARDS {
            let Some(reached) = self.reached.get(place) else {
                break;
            };
            let (board, last) = (copy_of(&reached.board), reached.last);
            if let Some(process) = ended_process(&board) {
                let state = board.first;
                return Ok(Some((last, PlayEnd { process, state })));
            }
            self.go_on(table, trap, &board, last)?;
        }
        Ok(None)
    }
}

/// Two runs of the choice that a process cannot tell apart, if the moves of the trap lead to some.
pub(crate) fn find_runs(
    alloc: Global,
    table: &Table,
    trap: &Trap,
    choice: &RawChoice,
) -> Result<Option<FoundRuns>, AllocError>
    requires { length choice.now.operations ≤ MOST_PROCESSES }
{
    let mut search = Search {
        links: Vec::new(alloc),
        reached: Vec::new(alloc),
    };
    search.begin_all(table, trap, choice)?;
    match search.find_end(table, trap)? {
        Some((last, end)) => Ok(Some(search.runs_to(alloc, last, end)?)),
        None => Ok(None),
    }
}
