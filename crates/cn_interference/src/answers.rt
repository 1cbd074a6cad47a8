//! Operations whose responses tell nothing of the state.
ghost use Rattle.std.specs.Prelude.{◌≡◌, ◌<◌, ◌↔◌, ℕ, IsTrue, length};
ghost use Rattle.cn_interference.specs.Interference.{AnswersNothing, NoneAnswers, answer};

use cn_table::{Operation, State, Table};

/// Whether the operation gives the same response in all states.
pub fn answers_nothing(table: &Table, operation: Operation) -> bool
    requires { operation.0 < length table.now.operations }
    // promise: interference (AnswersNothing)
    ensures { IsTrue result ↔ AnswersNothing table.now operation.0 }
{
    let states = table.states();
    let (first, _) = table.apply(operation, State(0));
    for state in 0..states {
        let (response, _) = table.apply(operation, State(state));
        if response != first {
            return false;
        }
    }
    true
}

/// Whether no operation answers anything: each gives the same response in all states.
pub fn none_answers(table: &Table) -> bool
    // promise: interference (NoneAnswers)
    ensures { IsTrue result ↔ NoneAnswers table.now }
{
    for operation in 0..table.operations() {
        if !answers_nothing(table, Operation(operation)) {
            return false;
        }
    }
    true
}
