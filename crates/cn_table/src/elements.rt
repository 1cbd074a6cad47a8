//! The elements of a type, each by its number: its place in the list of the table, from 0.

/// A state of the object.
#[derive(Clone, Copy, Debug, PartialEq, Eq)]
pub struct State(pub u8);

/// An operation that a process can apply to the object.
#[derive(Clone, Copy, Debug, PartialEq, Eq)]
pub struct Operation(pub u8);

/// A response that an operation can give.
#[derive(Clone, Copy, Debug, PartialEq, Eq)]
pub struct Response(pub u8);
