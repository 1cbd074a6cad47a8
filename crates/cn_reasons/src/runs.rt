//! Two runs of a choice, step by step.
ghost use Rattle.std.specs.Prelude.{◌≡◌, ◌≤◌, ◌<◌, length, All};
ghost use Rattle.cn_choice.specs.RawChoices.{IsRawChoice};
ghost use Rattle.cn_choice.specs.declared.limits.TheConstants.{MOST_PROCESSES};
ghost use Rattle.cn_reasons.specs.Known.{AreKnownRuns, IsKnownStep};
ghost use Rattle.cn_reasons.specs.Runs.{runs_of, step_of, steps_of, IsShort};

use arrayvec::ArrayVec;
use cn_choice::{MOST_PROCESSES, RawChoice};
use cn_table::{Operation, Response, State, Table};

/// A step of a run: the operation of a process, the response, and the state after it.
#[derive(Clone, Copy, Debug, PartialEq, Eq)]
pub struct Step {
    /// The process.
    pub process: u8,
    /// Its operation.
    pub operation: Operation,
    /// The response that it gets.
    pub response: Response,
    /// The state after the step.
    pub state: State,
}

// What stands in the free places of a list of steps.
impl Default for Step {
    fn default() -> Step {
        Step {
            process: 0,
            operation: Operation(0),
            response: Response(0),
            state: State(0),
        }
    }
}

/// Two runs from the start state of a choice. A run of no step is empty.
#[derive(Drop)]
pub struct Runs {
    /// The steps of the run in which a process of team A is first.
    pub a_first: ArrayVec<Step, MOST_PROCESSES>,
    /// The steps of the run in which a process of team B is first.
    pub b_first: ArrayVec<Step, MOST_PROCESSES>,
}

/// The step of a process in a state.
fn step_of(table: &Table, choice: &RawChoice, process: u8, state: State) -> Step
    requires fits { IsRawChoice table.now (length choice.now.operations) choice.now }
    requires process { process < length choice.now.operations }
    requires state { state.0 < length table.now.states }
    requires few { length choice.now.operations ≤ MOST_PROCESSES }
    ensures step { result ≡ step_of table.now choice.now process state.0 }
    ensures known { IsKnownStep table.now result }
{
    let operation = Operation(choice.operations[process as usize]);
    let (response, state) = table.apply(operation, state);
    Step {
        process,
        operation,
        response,
        state,
    }
}

/// The steps of the processes of an order, one after the other, from the start state.
fn steps_of(table: &Table, choice: &RawChoice, order: &[u8]) -> ArrayVec<Step, MOST_PROCESSES>
    requires fits { IsRawChoice table.now (length choice.now.operations) choice.now }
    requires few { length choice.now.operations ≤ MOST_PROCESSES }
    requires short { IsShort (length choice.now.operations) order.now }
    ensures steps { result.items ≡ steps_of table.now choice.now choice.now.state order.now }
    ensures known { All (IsKnownStep table.now) result.items }
{
    let (mut steps, mut state) = (ArrayVec::new(), choice.state);
    for process in order {
        let step = step_of(table, choice, *process, state);
        steps.push(step);
        state = step.state;
    }
    steps
}

/// The runs of two orders from the start state.
pub(crate) fn runs_of(table: &Table, choice: &RawChoice, alpha: &[u8], beta: &[u8]) -> Runs
    requires fits { IsRawChoice table.now (length choice.now.operations) choice.now }
    requires few { length choice.now.operations ≤ MOST_PROCESSES }
    requires alpha { IsShort (length choice.now.operations) alpha.now }
    requires beta { IsShort (length choice.now.operations) beta.now }
    ensures runs { result ≡ runs_of table.now choice.now alpha.now beta.now }
    ensures known { AreKnownRuns table.now result }
{
    Runs {
        a_first: steps_of(table, choice, alpha),
        b_first: steps_of(table, choice, beta),
    }
}
