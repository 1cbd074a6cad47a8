//! The sets of so many operations of a table.
ghost use Rattle.std.specs.Prelude.{◌≡◌, ◌≤◌, ◌++◌, ◌-◌, IfOk, OnOk, map};
ghost use Rattle.std.specs.List.{range_with_len};
ghost use Rattle.cn_pairs.specs.SetNumbers.{numbers, set_lists, sets_of_size};
ghost use Rattle.cn_pairs.specs.Sublists.{sublists};

use cn_table::{Operation, Table};
use std::alloc::{AllocError, Global};

/// Pushes the sets with these operations and so many more, from one operation on to the end.
fn push_sets(
    alloc: Global,
    sets: &mut Vec<Vec<Operation>>,
    chosen: &[Operation],
    from: u8,
    end: u8,
    more: u8,
) -> Result<(), AllocError>
    requires { from ≤ end }
    ensures { OnOk result (set_lists sets.new
        ≡ set_lists sets.old ++ map (λ rest. numbers chosen.now ++ rest)
        (sublists more (range_with_len from (end - from)))) }
{
    if more == 0 {
        sets.push(Vec::from_slice(alloc, chosen)?)?;
        return Ok(());
    }
    if from >= end {
        return Ok(());
    }
    let mut longer = Vec::from_slice(alloc, chosen)?;
    longer.push(Operation(from))?;
    push_sets(alloc, sets, longer.as_slice(), from + 1, end, more - 1)?;
    push_sets(alloc, sets, chosen, from + 1, end, more)
}

/// The sets of so many operations, each as its ascending list, in lexicographic order.
pub(crate) fn sets_of_size(
    alloc: Global,
    table: &Table,
    size: u8,
) -> Result<Vec<Vec<Operation>>, AllocError>
    ensures { IfOk result (λ sets. set_lists sets ≡ sets_of_size table.now size) }
{
    let mut sets = Vec::new(alloc);
    let none = Vec::new(alloc);
    push_sets(
        alloc,
        &mut sets,
        none.as_slice(),
        0,
        table.operations(),
        size,
    )?;
    Ok(sets)
}
