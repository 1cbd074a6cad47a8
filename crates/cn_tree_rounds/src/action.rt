//! The actions of steps.

use cn_table::{Operation, Response, State};

/// The action of a step. Teams have numbers at each node.
#[derive(Clone, Copy, Debug)]
pub enum Action {
    /// The process writes its value to the register of its team at a node.
    Write {
        node: u8,
        team: u8,
        value: u64,
    },
    /// It applies its operation to the object of a node, and gets this response. The object is in
    /// these states before the operation and after it. Where the process does not look at the
    /// object, it judges by the response that this team came first there.
    Apply {
        node: u8,
        operation: Operation,
        response: Response,
        before: State,
        after: State,
        team: Option<u8>,
    },
    /// It reads this state of the object of a node, and judges that this team came first there.
    Read {
        node: u8,
        state: State,
        team: u8,
    },
    /// It looks at the object of a node by this operation, which changes nothing, gets this response,
    /// and judges that this team came first there.
    Look {
        node: u8,
        operation: Operation,
        response: Response,
        team: u8,
    },
    /// It reads this value in the register of a team at a node, and takes it to its next place.
    Take {
        node: u8,
        team: u8,
        value: u64,
    },
    /// It reads this value at the last node of its path, and decides it.
    Decide {
        value: u64,
    },
}

/// A step of a schedule: the process that it names, and its action.
#[derive(Clone, Copy, Debug)]
pub struct StepRecord {
    /// The process.
    pub process: u8,
    /// Its action, or none if it has decided before.
    pub action: Option<Action>,
}
