//! Traps, and the check of one.
ghost use Rattle.std.specs.Prelude.{◌≡◌, ◌≢◌, ◌<◌, ◌≤◌, ◌↔◌, ℕ, All, Any, Contains, IsTrue, Some, length, slice_get};
ghost use Rattle.cn_choice.specs.Canonical.{raw_choice_of};
ghost use Rattle.cn_choice.specs.Live.{live_choices};
ghost use Rattle.cn_choice.specs.RawChoices.{IsRawChoice};
ghost use Rattle.cn_choice.specs.declared.limits.TheConstants.{MOST_PROCESSES};
ghost use Rattle.cn_choice.specs.declared.team.Team.TheVariants.{A, B};
ghost use Rattle.cn_unread.specs.Defended.{IsDefendedFor, start};
ghost use Rattle.cn_unread.specs.Defended.Status.{Poised};
ghost use Rattle.cn_game.specs.Boards.{moved, position_of, state_in, status_of};
ghost use Rattle.cn_game.specs.TrapLists.{Answered, IsBoardOf, IsCaught, IsCaughtStart, IsKnownStatus, IsPart, IsTrapList, LeadsBack, ThisMove};

use crate::board::{Board, Run, Standing};
use crate::laws::listed_traps_refute;
use crate::turns::Turns;
use cn_choice::laws::live_list;
use cn_choice::{Choices, MOST_PROCESSES, RawChoice, Team};
use cn_table::{Operation, Response, Table};

/// A position of a trap, and the move of the adversary there.
#[derive(Drop)]
pub struct Turn {
    /// The position.
    pub board: Board,
    /// The process that moves.
    pub process: u8,
    /// The run in which it moves if it is poised. A process that is ahead moves in the other run.
    pub run: Run,
}

/// A list of positions, each with the move of the adversary.
#[derive(Drop)]
pub struct Trap {
    /// The positions, with the moves.
    pub turns: Vec<Turn>,
}

/// Whether the process, poised with each operation of the table after its move, is caught.
fn catches_each(
    table: &Table,
    turns: &Turns,
    board: &Board,
    process: u8,
    run: Run,
    operation: Operation,
) -> bool
    requires process { process < length board.now.standings.items }
    requires operation { operation.0 < length table.now.operations }
    requires state { state_in run (position_of board.now) < length table.now.states }
    ensures { IsTrue result ↔ ((m : ℕ) → m < length table.now.operations
        → IsCaught turns.now (length board.now.standings.items)
        (moved table.now run (position_of board.now) process operation.0 (Poised m))) }
{
    for next in 0..table.operations() {
        let new = Standing::Poised(Operation(next));
        if !turns.catches(&board.after(table, run, process, operation, new)) {
            return false;
        }
    }
    true
}

/// Whether the move of a process that has got the response in the other run leads into the trap,
/// whatever the protocol chooses.
fn is_answered(
    table: &Table,
    turns: &Turns,
    board: &Board,
    process: u8,
    run: Run,
    operation: Operation,
    response: Response,
) -> bool
    requires process { process < length board.now.standings.items }
    requires operation { operation.0 < length table.now.operations }
    requires state { state_in run (position_of board.now) < length table.now.states }
    ensures { IsTrue result ↔ Answered table.now
        (IsCaught turns.now (length board.now.standings.items)) (position_of board.now) process run
        operation.0 response.0 }
{
    let (here, _) = table.apply(operation, board.state(run));
    if here.0 == response.0 {
        catches_each(table, turns, board, process, run, operation)
    } else {
        turns.catches(&board.after(table, run, process, operation, Standing::Lost))
    }
}

/// Whether the move of a poised process in the run leads into the trap.
fn is_caught_ahead(
    table: &Table,
    turns: &Turns,
    board: &Board,
    process: u8,
    run: Run,
    operation: Operation,
) -> bool
    requires process { process < length board.now.standings.items }
    requires operation { operation.0 < length table.now.operations }
    requires state { state_in run (position_of board.now) < length table.now.states }
    ensures { IsTrue result ↔ ThisMove table.now
        (IsCaught turns.now (length board.now.standings.items)) (position_of board.now) process run
        (Poised operation.0) }
{
    let (response, _) = table.apply(operation, board.state(run));
    let new = Standing::ahead(run, operation, response);
    turns.catches(&board.after(table, run, process, operation, new))
}

/// Whether the move of a process with this standing leads into the trap.
fn is_caught_after(
    table: &Table,
    turns: &Turns,
    board: &Board,
    process: u8,
    run: Run,
    standing: Standing,
) -> bool
    requires process { process < length board.now.standings.items }
    requires board { IsBoardOf table.now board.now }
    requires standing { IsKnownStatus table.now (status_of standing) }
    ensures { IsTrue result ↔ ThisMove table.now
        (IsCaught turns.now (length board.now.standings.items)) (position_of board.now) process run
        (status_of standing) }
{
    match standing {
        Standing::Poised(o) => match run {
            Run::First => is_caught_ahead(table, turns, board, process, Run::First, o),
            Run::Second => is_caught_ahead(table, turns, board, process, Run::Second, o),
        },
        Standing::AheadInFirst(o, r) => {
            is_answered(table, turns, board, process, Run::Second, o, r)
        }
        Standing::AheadInSecond(o, r) => {
            is_answered(table, turns, board, process, Run::First, o, r)
        }
        Standing::Lost => false,
    }
}

/// Whether the move of the turn leads into the trap.
fn leads_back(table: &Table, turns: &Turns, turn: &Turn) -> bool
    requires { IsBoardOf table.now turn.now.board }
    ensures { IsTrue result ↔ LeadsBack table.now turns.now turn.now }
{
    let standings = turn.board.standings.as_slice();
    let place = turn.process as usize;
    place < standings.len()
        && is_caught_after(
            table,
            turns,
            &turn.board,
            turn.process,
            turn.run,
            standings[place],
        )
}

/// Whether the position is the table's, and its move leads into the trap.
fn is_sound(table: &Table, turns: &Turns, turn: &Turn) -> bool
    ensures { IsTrue result
        ↔ (IsBoardOf table.now turn.now.board × LeadsBack table.now turns.now turn.now) }
{
    turn.board.is_of(table) && leads_back(table, turns, turn)
}

/// Whether all positions are the table's, and the move of each leads into the trap.
fn are_sound(table: &Table, turns: &Turns) -> bool
    ensures { IsTrue result ↔ All
        (λ turn. IsBoardOf table.now turn.board × LeadsBack table.now turns.now turn) turns.now }
{
    turns
        .as_slice()
        .iter()
        .all(|turn| is_sound(table, turns, turn))
}

/// Whether the process is in the team.
pub(crate) fn plays_for(choice: &RawChoice, process: u8, team: Team) -> bool
    requires { process < length choice.now.marks }
    ensures { IsTrue result ↔ (slice_get choice.now.marks process ≡ Some team) }
{
    choice.marks[process as usize] == team
}

/// Whether b is in team B, and a and b begin in the trap.
fn is_caught_pair(table: &Table, turns: &Turns, choice: &RawChoice, a: u8, b: u8) -> bool
    requires known { IsRawChoice table.now (length choice.now.operations) choice.now }
    requires a { a < length choice.now.operations }
    requires b { b < length choice.now.operations }
    requires few { length choice.now.operations ≤ MOST_PROCESSES }
    ensures { IsTrue result ↔ ((slice_get choice.now.marks b ≡ Some B)
        × IsCaught turns.now (length choice.now.operations) (start table.now choice.now a b)) }
{
    plays_for(choice, b, Team::B) && turns.catches(&Board::start(table, choice, a, b))
}

/// Whether a and some process of team B begin in the trap.
fn is_caught_with(table: &Table, turns: &Turns, choice: &RawChoice, a: u8) -> bool
    requires known { IsRawChoice table.now (length choice.now.operations) choice.now }
    requires a { a < length choice.now.operations }
    requires few { length choice.now.operations ≤ MOST_PROCESSES }
    ensures { IsTrue result ↔ ((b : ℕ) × (b < length choice.now.operations)
        × (slice_get choice.now.marks b ≡ Some B)
        × IsCaught turns.now (length choice.now.operations) (start table.now choice.now a b)) }
{
    for b in 0..choice.operations.len() as u8 {
        if is_caught_pair(table, turns, choice, a, b) {
            return true;
        }
    }
    false
}

/// Whether a is in team A, and begins in the trap with some process of team B.
fn is_caught_first(table: &Table, turns: &Turns, choice: &RawChoice, a: u8) -> bool
    requires known { IsRawChoice table.now (length choice.now.operations) choice.now }
    requires a { a < length choice.now.operations }
    requires few { length choice.now.operations ≤ MOST_PROCESSES }
    ensures { IsTrue result ↔ ((slice_get choice.now.marks a ≡ Some A)
        × ((b : ℕ) × (b < length choice.now.operations) × (slice_get choice.now.marks b ≡ Some B)
        × IsCaught turns.now (length choice.now.operations) (start table.now choice.now a b))) }
{
    plays_for(choice, a, Team::A) && is_caught_with(table, turns, choice, a)
}

/// Whether some process of team A and some of team B begin in the trap.
fn is_caught(table: &Table, turns: &Turns, choice: &RawChoice) -> bool
    requires known { IsRawChoice table.now (length choice.now.operations) choice.now }
    requires few { length choice.now.operations ≤ MOST_PROCESSES }
    ensures { IsTrue result ↔ IsCaughtStart table.now turns.now choice.now }
{
    for a in 0..choice.operations.len() as u8 {
        if is_caught_first(table, turns, choice, a) {
            return true;
        }
    }
    false
}

/// Whether each live canonical choice for n processes begins in the trap.
fn catches_all(table: &Table, turns: &Turns, n: u8) -> bool
    requires some { 2 ≤ n }
    requires few { n ≤ MOST_PROCESSES }
    ensures { IsTrue result
        ↔ All (λ c. IsCaughtStart table.now turns.now (raw_choice_of c)) (live_choices table.now n) }
{
    live_list();
    for choice in Choices::new(table, n) {
        if !is_caught(table, turns, &RawChoice::of(&choice)) {
            return false;
        }
    }
    true
}

impl Trap {
    /// Whether this is a trap for all choices for n processes: it shows that the table is not
    /// defended for n. n is from 2 to [`MOST_PROCESSES`](cn_choice::MOST_PROCESSES).
    ///
    /// It takes no memory. It is fast where the turns stand in order of the states of their
    /// positions, as [`find_trap`](crate::find_trap) leaves them.
    pub fn refutes(&self, table: &Table, n: u8) -> bool
        requires some { 2 ≤ n }
        requires few { n ≤ MOST_PROCESSES }
        // promise: checked-traps (IsTrapList)
        ensures exact { IsTrue result ↔ IsTrapList table.now n self.now.turns.items }
        // promise: checked-traps
        ensures undefended { IsTrue result → ¬ IsDefendedFor table.now n }
    {
        listed_traps_refute();
        let turns = Turns::new(self.turns.as_slice());
        are_sound(table, &turns) && catches_all(table, &turns, n)
    }
}
