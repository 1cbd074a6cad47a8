//! Operations that lead away from a state.
ghost use Rattle.std.specs.Prelude.{◌≡◌, ◌<◌, false, get_or, length, All};
ghost use Rattle.std.specs.List.{list_all};
ghost use Rattle.cn_table.specs.declared.limits.TheConstants.{MOST_OPERATIONS};
ghost use Rattle.cn_choice.specs.Live.{all_move};
ghost use Rattle.cn_choice.specs.LiveLeft.{AreMoving};

use cn_table::{MOST_OPERATIONS, Operation, State, Table};

/// Whether each of the operations, applied in the state, leads to another state.
pub(crate) fn all_move(table: &Table, state: State, operations: &[u8]) -> bool
    requires state { state.0 < length table.now.states }
    requires operations { All (λ operation. operation < length table.now.operations)
        operations.now }
    ensures { result ≡ all_move table.now state.0 operations.now }
{
    for operation in operations {
        let (_, next) = table.apply(Operation(*operation), state);
        if next == state {
            return false;
        }
    }
    true
}

/// For each operation, by its number, whether it leads from the state to another one.
pub(crate) fn moving_operations(table: &Table, state: State) -> [bool; MOST_OPERATIONS]
    requires { state.0 < length table.now.states }
    ensures { AreMoving table.now state.0 result }
{
    let mut moving = [false; MOST_OPERATIONS];
    for operation in 0..table.operations() {
        let (_, next) = table.apply(Operation(operation), state);
        moving[operation as usize] = next != state;
    }
    moving
}

/// Whether each of the operations is marked.
#[inline]
pub(crate) fn are_marked(marks: &[bool; MOST_OPERATIONS], operations: &[u8]) -> bool
    requires { All (λ operation. operation < MOST_OPERATIONS) operations.now }
    ensures { result ≡ list_all (λ operation. get_or marks.now operation false) operations.now }
{
    for operation in operations {
        if !marks[*operation as usize] {
            return false;
        }
    }
    true
}
