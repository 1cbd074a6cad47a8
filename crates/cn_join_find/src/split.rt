//! Witnesses from stocks that split.
ghost use Rattle.std.specs.Prelude.{◌<◌, IfOk, length};
ghost use Rattle.cn_stocks.specs.Words.{IsKnown};
ghost use Rattle.cn_join_find.specs.Crossing.{IsPart};
ghost use Rattle.cn_join_find.specs.Marks.{IsWitnessFor};

use cn_outcomes::bits::contains;
use cn_table::Table;
use std::alloc::{AllocError, Global};
use std::marker::Model;

/// A start state, and the operations of the processes in each of two teams.
#[derive(Drop)]
pub struct Split {
    /// The start state.
    pub start: u8,
    /// The operations in team A.
    pub a: Vec<u8>,
    /// The operations in team B.
    pub b: Vec<u8>,
}

impl Model for Split {
    ghost use Rattle.cn_choice.specs.Canonical.{Choice};

    ghost Value = { Choice };

    ghost view = { λ s. record { state = s.start; a = s.a.items; b = s.b.items } };
}

/// The witness whose team A has the operations of the part.
pub(crate) fn split_by(
    alloc: Global,
    table: &Table,
    start: u8,
    stock: &[u8],
    set: u16,
) -> Result<Split, AllocError>
    requires start { start < length table.now.states }
    requires part { IsPart table.now start stock.now set }
    requires known { IsKnown (length table.now.operations) stock.now }
    ensures { IfOk result (IsWitnessFor table.now (length stock.now)) }
{
    let _operations = table.operations();
    let mut a = Vec::new(alloc);
    let mut b = Vec::new(alloc);
    for operation in stock {
        if contains(set, *operation) {
            a.push(*operation)?;
        } else {
            b.push(*operation)?;
        }
    }
    Ok(Split { start, a, b })
}
