//! A process of a choice, before any process has moved.
use crate::view::{Prefix, View};
use cn_choice::Choice;

/// A process of a choice, and the beginning of its orders.
#[derive(Clone, Copy)]
pub(crate) struct Asked<'s> {
    pub view: View<'s>,
    pub choice: &'s Choice,
    pub start: Prefix,
}
