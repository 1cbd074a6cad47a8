//! Whether two runs are a play.
ghost use Rattle.std.specs.Prelude.{◌≡◌, ◌<◌, ◌≤◌, ◌↔◌, ℕ, All, IfOk, IsTrue, length};
ghost use Rattle.cn_table.specs.TypeTable.{TypeTable};
ghost use Rattle.cn_choice.specs.RawChoices.{IsRawChoice};
ghost use Rattle.cn_choice.specs.declared.limits.TheConstants.{MOST_PROCESSES};
ghost use Rattle.cn_choice.specs.declared.team.Team.TheVariants.{A, B};
ghost use Rattle.cn_reasons.specs.Known.{IsKnownState, IsKnownStep};
ghost use Rattle.cn_unread_reasons.specs.Known.{IsKnownEnd};
ghost use Rattle.cn_unread_reasons.specs.Plays.{AreRunsTo, AreSame, BeginWith, DoesAlong, GoAlong, IsBegunBy, IsRunFrom, IsStepIn, state_left, steps_by};

use crate::play::PlayEnd;
use cn_choice::{RawChoice, Team};
use cn_reasons::Step;
use cn_table::{Operation, State, Table};
use std::alloc::{AllocError, Global};

/// Whether this is a step of one of so many processes in the state.
fn is_step(table: &Table, processes: usize, state: State, step: Step) -> bool
    requires { state.0 < length table.now.states }
    ensures exact { IsTrue result ↔ IsStepIn table.now processes state.0 step }
    ensures known { IsTrue result → processes ≤ MOST_PROCESSES → IsKnownStep table.now step }
    ensures state { IsTrue result → step.state.0 < length table.now.states }
{
    if step.process as usize >= processes || step.operation.0 >= table.operations() {
        return false;
    }
    let (response, next) = table.apply(step.operation, state);
    response.0 == step.response.0 && next.0 == step.state.0
}

/// Whether the steps are a run of so many processes from the state.
fn is_run(table: &Table, processes: usize, state: State, steps: &[Step]) -> bool
    requires { state.0 < length table.now.states }
    ensures exact { IsTrue result ↔ IsRunFrom table.now processes state.0 steps.now }
    ensures known { IsTrue result → processes ≤ MOST_PROCESSES
        → All (IsKnownStep table.now) steps.now }
{
    match steps.split_first() {
        None => true,
        Some((step, rest)) => {
            is_step(table, processes, state, *step) && is_run(table, processes, step.state, rest)
        }
    }
}

/// The state that the steps leave.
fn state_left(state: State, steps: &[Step]) -> State
    ensures exact { result.0 ≡ state_left state.0 steps.now }
    ensures known { (t : TypeTable) → state.0 < length t.states → All (IsKnownStep t) steps.now
        → IsKnownState t result }
{
    match steps.split_first() {
        None => state,
        Some((step, rest)) => state_left(step.state, rest),
    }
}

/// Whether a process of the team does the first step.
fn is_begun_by(choice: &RawChoice, team: Team, steps: &[Step]) -> bool
    ensures { IsTrue result ↔ IsBegunBy choice.now team steps.now }
{
    match steps.first() {
        None => false,
        Some(step) => match choice.marks.get(step.process as usize) {
            None => false,
            Some(mark) => *mark == team,
        },
    }
}

/// The steps of the process.
fn steps_by(alloc: Global, process: u8, run: &[Step]) -> Result<Vec<Step>, AllocError>
    ensures { IfOk result (λ steps. steps.items ≡ steps_by process run.now) }
{
    let mut steps = Vec::new(alloc);
    for step in run {
        if step.process == process {
            steps.push(*step)?;
        }
    }
    Ok(steps)
}

/// Whether the first of the steps, if there is one, is with this operation.
fn begin_with(operation: Operation, steps: &[Step]) -> bool
    ensures { IsTrue result ↔ BeginWith operation.0 steps.now }
{
    match steps.first() {
        None => true,
        Some(step) => step.operation.0 == operation.0,
    }
}

/// Whether a process with these steps in two runs does the same as long as it has got the same.
fn go_along(ones: &[Step], others: &[Step]) -> bool
    ensures { IsTrue result ↔ GoAlong ones.now others.now }
{
    match (ones.split_first(), others.split_first()) {
        (None, None) => true,
        (None, Some((_, rest))) => rest.is_empty(),
        (Some((_, rest)), None) => rest.is_empty(),
        (Some((one, ones)), Some((other, others))) => {
            if one.operation.0 != other.operation.0 {
                false
            } else if one.response.0 == other.response.0 {
                go_along(ones, others)
            } else {
                ones.is_empty() && others.is_empty()
            }
        }
    }
}

/// Whether a process with these steps in two runs does and gets the same.
fn are_same(ones: &[Step], others: &[Step]) -> bool
    ensures { IsTrue result ↔ AreSame ones.now others.now }
{
    match (ones.split_first(), others.split_first()) {
        (None, None) => true,
        (Some((one, ones)), Some((other, others))) => {
            one.operation.0 == other.operation.0
                && one.response.0 == other.response.0
                && are_same(ones, others)
        }
        _ => false,
    }
}

/// Whether the process does in both runs what one protocol could do.
fn does_along(
    alloc: Global,
    choice: &RawChoice,
    a_first: &[Step],
    b_first: &[Step],
    process: u8,
) -> Result<bool, AllocError>
    requires { process < length choice.now.operations }
    ensures { IfOk result (λ yes. IsTrue yes ↔ DoesAlong choice.now a_first.now b_first.now process) }
{
    let own = Operation(choice.operations[process as usize]);
    let ones = steps_by(alloc, process, a_first)?;
    let others = steps_by(alloc, process, b_first)?;
    let (ones, others) = (ones.as_slice(), others.as_slice());
    Ok(begin_with(own, ones) && begin_with(own, others) && go_along(ones, others))
}

/// Whether each process does so.
fn all_do_along(
    alloc: Global,
    choice: &RawChoice,
    a_first: &[Step],
    b_first: &[Step],
) -> Result<bool, AllocError>
    requires { length choice.now.operations ≤ MOST_PROCESSES }
    ensures { IfOk result (λ yes. IsTrue yes ↔ ((j : ℕ) → j < length choice.now.operations
        → DoesAlong choice.now a_first.now b_first.now j)) }
{
    for process in 0..choice.operations.len() as u8 {
        if !does_along(alloc, choice, a_first, b_first, process)? {
            return Ok(false);
        }
    }
    Ok(true)
}

/// Whether the process gets the same in both runs.
fn gets_same(
    alloc: Global,
    a_first: &[Step],
    b_first: &[Step],
    process: u8,
) -> Result<bool, AllocError>
    ensures { IfOk result (λ yes. IsTrue yes
        ↔ AreSame (steps_by process a_first.now) (steps_by process b_first.now)) }
{
    let ones = steps_by(alloc, process, a_first)?;
    let others = steps_by(alloc, process, b_first)?;
    Ok(are_same(ones.as_slice(), others.as_slice()))
}

/// Whether the first of the runs of the choice is begun by team A, and the second by team B.
fn are_begun(table: &Table, choice: &RawChoice, a_first: &[Step], b_first: &[Step]) -> bool
    requires fits { IsRawChoice table.now (length choice.now.operations) choice.now }
    requires few { length choice.now.operations ≤ MOST_PROCESSES }
    ensures exact { IsTrue result
        ↔ (IsRunFrom table.now (length choice.now.operations) choice.now.state a_first.now
        × IsRunFrom table.now (length choice.now.operations) choice.now.state b_first.now
        × IsBegunBy choice.now A a_first.now × IsBegunBy choice.now B b_first.now) }
    ensures a_known { IsTrue result → All (IsKnownStep table.now) a_first.now }
    ensures b_known { IsTrue result → All (IsKnownStep table.now) b_first.now }
{
    let (processes, state) = (choice.operations.len(), choice.state);
    is_run(table, processes, state, a_first)
        && is_run(table, processes, state, b_first)
        && is_begun_by(choice, Team::A, a_first)
        && is_begun_by(choice, Team::B, b_first)
}

/// Whether both runs leave the state of the end.
fn are_left_so(choice: &RawChoice, a_first: &[Step], b_first: &[Step], end: PlayEnd) -> bool
    ensures exact { IsTrue result ↔ ((state_left choice.now.state a_first.now ≡ end.state.0)
        × (state_left choice.now.state b_first.now ≡ end.state.0)) }
    ensures known { IsTrue result → (t : TypeTable) → choice.now.state < length t.states
        → All (IsKnownStep t) a_first.now → IsKnownState t end.state }
{
    state_left(choice.state, a_first).0 == end.state.0
        && state_left(choice.state, b_first).0 == end.state.0
}

/// Whether these are two runs of the choice, the first begun by team A and the second by team B, in
/// which each process does the same as long as it gets the same, and that end so.
pub(crate) fn are_runs_to(
    alloc: Global,
    table: &Table,
    choice: &RawChoice,
    a_first: &[Step],
    b_first: &[Step],
    end: PlayEnd,
) -> Result<bool, AllocError>
    requires fits { IsRawChoice table.now (length choice.now.operations) choice.now }
    requires few { length choice.now.operations ≤ MOST_PROCESSES }
    ensures exact { IfOk result (λ yes. IsTrue yes
        ↔ AreRunsTo table.now choice.now a_first.now b_first.now end) }
    ensures a_known { IfOk result (λ yes. IsTrue yes → All (IsKnownStep table.now) a_first.now) }
    ensures b_known { IfOk result (λ yes. IsTrue yes → All (IsKnownStep table.now) b_first.now) }
    ensures end_known { IfOk result (λ yes. IsTrue yes → IsKnownEnd table.now end) }
{
    if end.process as usize >= choice.operations.len()
        || !are_begun(table, choice, a_first, b_first)
        || !are_left_so(choice, a_first, b_first, end)
    {
        return Ok(false);
    }
    let along = all_do_along(alloc, choice, a_first, b_first)?;
    let same = gets_same(alloc, a_first, b_first, end.process)?;
    Ok(along && same)
}
