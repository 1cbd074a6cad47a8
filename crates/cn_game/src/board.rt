//! Positions of the game on two runs.
ghost use Rattle.std.specs.Prelude.{◌≡◌, ◌<◌, ◌≤◌, ◌↔◌, ℕ, All, Any, IsTrue, length, map, slice_index, slice_set};
ghost use Rattle.cn_choice.specs.RawChoices.{IsRawChoice};
ghost use Rattle.cn_choice.specs.declared.limits.TheConstants.{MOST_PROCESSES};
ghost use Rattle.cn_unread.specs.Defended.{Status, start};
ghost use Rattle.cn_unread.specs.Defended.Status.{AheadInFirst as IsAheadInFirst, AheadInSecond as IsAheadInSecond, Poised as IsPoised};
ghost use Rattle.cn_unread.specs.Functions.{put};
ghost use Rattle.cn_game.specs.Boards.{ahead, moved, position_of, same, state_in, status_of, statuses, times};
ghost use Rattle.cn_game.specs.InOrder.{pair_of};
ghost use Rattle.cn_game.specs.TrapLists.{IsBoardOf, IsKnownStatus, IsLeaf, IsPart};

use arrayvec::ArrayVec;
use cn_choice::{MOST_PROCESSES, RawChoice};
use cn_table::{Operation, Response, State, Table};

/// What has come of a process.
#[derive(Clone, Copy, Default)]
pub enum Standing {
    /// It has seen the same in both runs, and is about to apply this operation in both.
    Poised(Operation),
    /// It has applied the operation in the first run alone, and got this response.
    AheadInFirst(Operation, Response),
    /// It has applied the operation in the second run alone, and got this response.
    AheadInSecond(Operation, Response),
    /// It has got different responses, and moves no more.
    #[default]
    Lost,
}

/// One of the two runs.
#[derive(Clone, Copy)]
pub enum Run {
    /// The run in which a process of team A has moved first.
    First,
    /// The run in which a process of team B has moved first.
    Second,
}

/// A position of the game: the states of the object in the two runs, and what has come of each
/// process.
#[derive(Drop)]
pub struct Board {
    /// The state in the first run.
    pub first: State,
    /// The state in the second run.
    pub second: State,
    /// What has come of each process.
    pub standings: ArrayVec<Standing, MOST_PROCESSES>,
}

impl Standing {
    /// Whether the two are the same.
    pub(crate) fn is(self, other: Standing) -> bool
        ensures { result ≡ same (status_of self) (status_of other) }
    {
        match (self, other) {
            (Standing::Poised(o), Standing::Poised(p)) => o.0 == p.0,
            (Standing::AheadInFirst(o, r), Standing::AheadInFirst(p, s)) => {
                o.0 == p.0 && r.0 == s.0
            }
            (Standing::AheadInSecond(o, r), Standing::AheadInSecond(p, s)) => {
                o.0 == p.0 && r.0 == s.0
            }
            (Standing::Lost, Standing::Lost) => true,
            _ => false,
        }
    }

    /// Whether the process is poised.
    fn is_poised(self) -> bool
        ensures { IsTrue result ↔ ((o : ℕ) × (status_of self ≡ IsPoised o)) }
    {
        matches!(self, Standing::Poised(_))
    }

    /// Whether its operation, if it has one, is the table's.
    pub(crate) fn is_of(self, table: &Table) -> bool
        ensures { IsTrue result ↔ IsKnownStatus table.now (status_of self) }
    {
        match self {
            Standing::Poised(o) => o.0 < table.operations(),
            Standing::AheadInFirst(o, _) => o.0 < table.operations(),
            Standing::AheadInSecond(o, _) => o.0 < table.operations(),
            Standing::Lost => true,
        }
    }

    /// That of a process that has applied the operation in this run alone.
    pub(crate) fn ahead(run: Run, operation: Operation, response: Response) -> Standing
        ensures { status_of result ≡ ahead run operation.0 response.0 }
    {
        match run {
            Run::First => Standing::AheadInFirst(operation, response),
            Run::Second => Standing::AheadInSecond(operation, response),
        }
    }
}

/// How many of the standings are this one.
fn occurrences(standings: &[Standing], one: Standing) -> usize
    ensures { result ≡ times (status_of one) (statuses standings.now) (length standings.now) }
{
    let mut count = 0;
    for standing in standings {
        if one.is(*standing) {
            count += 1;
        }
    }
    count
}

/// Whether the first standings are among the second, in any order.
fn are_among(few: &[Standing], many: &[Standing]) -> bool
    ensures { IsTrue result ↔ ((s : Status) → times s (statuses few.now) (length few.now)
        ≤ times s (statuses many.now) (length many.now)) }
{
    for standing in few {
        if occurrences(many, *standing) < occurrences(few, *standing) {
            return false;
        }
    }
    true
}

/// Whether somebody is poised.
fn somebody_is_poised(standings: &[Standing]) -> bool
    ensures { IsTrue result ↔ Any (λ s. (o : ℕ) × (status_of s ≡ IsPoised o)) standings.now }
{
    standings.iter().any(|standing| standing.is_poised())
}

/// Whether the operations of all are the table's.
fn are_of(standings: &[Standing], table: &Table) -> bool
    ensures { IsTrue result ↔ All (λ s. IsKnownStatus table.now (status_of s)) standings.now }
{
    standings.iter().all(|standing| standing.is_of(table))
}

/// The standings of processes that are about to apply these operations.
fn poised(operations: &[u8]) -> ArrayVec<Standing, MOST_PROCESSES>
    requires { length operations.now ≤ MOST_PROCESSES }
    ensures { result.items ≡ map (λ o. Standing.Poised (record { 0 = o })) operations.now }
{
    let mut standings = ArrayVec::new();
    for operation in operations {
        standings.push(Standing::Poised(Operation(*operation)));
    }
    standings
}

/// The standings with another one in this place.
fn with(
    standings: &ArrayVec<Standing, MOST_PROCESSES>,
    process: usize,
    new: Standing,
) -> ArrayVec<Standing, MOST_PROCESSES>
    requires { process < length standings.now.items }
    ensures { result.items ≡ slice_set standings.now.items process new }
{
    let mut list = ArrayVec::new();
    let _fits = list.try_extend_from_slice(standings.as_slice());
    list.as_mut_slice()[process] = new;
    list
}

/// The standings after process a has moved in the first run, and b in the second.
fn first_standings(
    operations: &[u8],
    a: u8,
    b: u8,
    to_a: Response,
    to_b: Response,
) -> ArrayVec<Standing, MOST_PROCESSES>
    requires few { length operations.now ≤ MOST_PROCESSES }
    requires a { a < length operations.now }
    requires b { b < length operations.now }
    ensures processes { length result.items ≡ length operations.now }
    ensures statuses { (j : ℕ) → j < length operations.now → statuses result.items j
        ≡ put (put (λ i. IsPoised (slice_index operations.now i)) a
        (IsAheadInFirst (slice_index operations.now a) to_a.0)) b
        (IsAheadInSecond (slice_index operations.now b) to_b.0) j }
{
    let with_a = Standing::AheadInFirst(Operation(operations[a as usize]), to_a);
    let with_b = Standing::AheadInSecond(Operation(operations[b as usize]), to_b);
    with(
        &with(&poised(operations), a as usize, with_a),
        b as usize,
        with_b,
    )
}

impl Board {
    /// An equal position.
    pub(crate) fn copy(&self) -> Board {
        let mut standings = ArrayVec::new();
        let _fits = standings.try_extend_from_slice(self.standings.as_slice());
        Board {
            first: self.first,
            second: self.second,
            standings,
        }
    }

    /// Whether its states and operations are the table's.
    pub(crate) fn is_of(&self, table: &Table) -> bool
        ensures { IsTrue result ↔ IsBoardOf table.now self.now }
    {
        self.first.0 < table.states()
            && self.second.0 < table.states()
            && are_of(self.standings.as_slice(), table)
    }

    /// Whether it is a part of the other position: the same states, and some of its processes in
    /// any order.
    pub(crate) fn is_part_of(&self, other: &Board) -> bool
        ensures { IsTrue result
            ↔ IsPart self.now (length other.now.standings.items) (position_of other.now) }
    {
        self.first.0 == other.first.0
            && self.second.0 == other.second.0
            && are_among(self.standings.as_slice(), other.standings.as_slice())
    }

    /// Whether both runs have one state, and somebody is poised.
    pub(crate) fn is_leaf(&self) -> bool
        ensures { IsTrue result
            ↔ IsLeaf (length self.now.standings.items) (position_of self.now) }
    {
        self.first.0 == self.second.0 && somebody_is_poised(self.standings.as_slice())
    }

    /// The number of the pair of its states.
    pub(crate) fn pair(&self) -> u16
        ensures { result ≡ pair_of self.now }
    {
        256 * self.first.0 as u16 + self.second.0 as u16
    }

    /// The state in the run.
    pub(crate) fn state(&self, run: Run) -> State
        ensures { result.0 ≡ state_in run (position_of self.now) }
    {
        match run {
            Run::First => self.first,
            Run::Second => self.second,
        }
    }

    /// The position after the process has applied the operation in the run.
    pub(crate) fn after(
        &self,
        table: &Table,
        run: Run,
        process: u8,
        operation: Operation,
        new: Standing,
    ) -> Board
        requires process { process < length self.now.standings.items }
        requires operation { operation.0 < length table.now.operations }
        requires state { state_in run (position_of self.now) < length table.now.states }
        ensures position { position_of result
            ≡ moved table.now run (position_of self.now) process operation.0 (status_of new) }
        ensures processes { length result.standings.items ≡ length self.now.standings.items }
    {
        let (_, next) = table.apply(operation, self.state(run));
        let standings = with(&self.standings, process as usize, new);
        match run {
            Run::First => Board {
                first: next,
                second: self.second,
                standings,
            },
            Run::Second => Board {
                first: self.first,
                second: next,
                standings,
            },
        }
    }

    /// The position after process a has moved in the first run, and b in the second.
    pub(crate) fn start(table: &Table, choice: &RawChoice, a: u8, b: u8) -> Board
        requires known { IsRawChoice table.now (length choice.now.operations) choice.now }
        requires a { a < length choice.now.operations }
        requires b { b < length choice.now.operations }
        requires few { length choice.now.operations ≤ MOST_PROCESSES }
        ensures first { result.first.0 ≡ (start table.now choice.now a b).first }
        ensures second { result.second.0 ≡ (start table.now choice.now a b).second }
        ensures processes { length result.standings.items ≡ length choice.now.operations }
        ensures statuses { (j : ℕ) → j < length choice.now.operations
            → statuses result.standings.items j ≡ (start table.now choice.now a b).status j }
    {
        let operations = choice.operations.as_slice();
        let with_a = Operation(operations[a as usize]);
        let with_b = Operation(operations[b as usize]);
        let (to_a, first) = table.apply(with_a, choice.state);
        let (to_b, second) = table.apply(with_b, choice.state);
        Board {
            first,
            second,
            standings: first_standings(operations, a, b, to_a, to_b),
        }
    }
}
