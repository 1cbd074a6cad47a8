//! How large a type may be.

/// The most states of a type.
pub const MOST_STATES: usize = 16;

/// The most responses of a type.
pub const MOST_RESPONSES: usize = 16;

/// The most operations of a type.
pub const MOST_OPERATIONS: usize = 8;

/// The most bytes of a name: of a type, a state, a response or an operation.
pub const LONGEST_NAME: usize = 32;
