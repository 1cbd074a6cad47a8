//! The setting of rows.
use crate::bits::Bits;
use cn_choice::{RawChoice, Team};
use cn_table::Table;

/// The setting of rows: a choice, the team in which its orders begin, and the links. A linked
/// process moves after the one before it.
#[derive(Clone, Copy)]
pub(crate) struct RowSetting<'s> {
    pub table: &'s Table,
    pub choice: &'s RawChoice,
    pub team: Team,
    pub links: Bits,
}
