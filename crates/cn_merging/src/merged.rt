//! The merged table.
ghost use Rattle.std.specs.Prelude.{◌≡◌, IfOk};
ghost use Rattle.cn_merging.specs.Merged.{AllAreToldApart, IsWhollyMerged};

use crate::firsts::first_states;
use crate::numbering::{Numbering, numbered};
use arrayvec::ArrayVec;
use cn_table::{MOST_STATES, Table};
use std::alloc::{AllocError, Global};

/// A table whose states are classes of states of another, and for each state of the other its class.
#[derive(Drop)]
pub struct Merged {
    pub table: Table,
    pub class_of: ArrayVec<u8, MOST_STATES>,
}

/// The table with its states merged: in one class are all states that no operations tell apart.
/// The first state of a class stands for it. A table in which all states are told apart stays as
/// it is.
///
/// # Errors
///
/// `AllocError` if memory runs out.
pub fn merge(alloc: Global, table: &Table) -> Result<Merged, AllocError>
    // promise: merging (IsWhollyMerged)
    ensures merged { IfOk result (λ m. IsWhollyMerged table.now m.table m.class_of.items) }
    // promise: merging (AllAreToldApart)
    ensures whole { IfOk result (λ m. AllAreToldApart table.now → m.table ≡ table.now) }
{
    let firsts = first_states(table);
    let Numbering { kept, class_of } = numbered(firsts.as_slice());
    let own = table.with_states(alloc, kept.as_slice(), class_of.as_slice())?;
    Ok(Merged {
        table: own,
        class_of,
    })
}
