//! The argument that lists the calls of each process.
ghost use Rattle.std.specs.Prelude.{◌≡◌, ◌⊎◌, ◌≤◌, length, map, nat_lt, true, IfOk, IfErr, Some, None};
ghost use Rattle.std.specs.List.{list_all};
ghost use Rattle.cn_table.specs.Draft.{all_some};
ghost use Rattle.cn_choice.specs.declared.limits.TheConstants.{MOST_PROCESSES};
ghost use Rattle.cn_io.specs.Arguments.Calls.{calls_fit, calls_in, GivesCalls, GivesEach};

use crate::arguments::list_text::ListText;
use crate::arguments::lists::{pieces_of, read_up_to};
use crate::arguments::operations::{OperationWord, operations_in};
use crate::fault::{AppFault, Argument};
use crate::limits::MOST_CALLS;
use cn_log::Opening;
use cn_table::Table;
use std::alloc::{AllocError, Global};

fn read_each<'a>(alloc: Global, pieces: &[&'a str]) -> Result<Vec<Vec<OperationWord<'a>>>, AppFault>
    ensures { GivesEach (map (λ piece. piece.now) pieces.now) result }
{
    let mut calls = Vec::new(alloc);
    for piece in pieces {
        let list = read_up_to::<OperationWord<'a>>(alloc, *piece, MOST_CALLS, Argument::Calls)?;
        calls.push(list)?;
    }
    Ok(calls)
}

/// Reads the calls of each process: for one process after the other a list of the operations that
/// it calls, with `/` between two lists. An operation is a number from 0 to 255, or the name of an
/// operation that is not decimal digits alone.
///
/// Each list is written as for [`read_inputs`](crate::read_inputs), and has at most
/// [`MOST_CALLS`](crate::MOST_CALLS) items. The text `none` is the empty list, and never a name.
///
/// # Errors
///
/// `Argument(Calls)` where the text is no such lists, or `OutOfMemory`.
pub fn read_calls<'a>(
    alloc: Global,
    list: &'a ListText<'_>,
) -> Result<Vec<Vec<OperationWord<'a>>>, AppFault>
    // promise: list-of-an-argument
    ensures { GivesCalls list.now result }
{
    let pieces = pieces_of(alloc, list.text(), '/')?;
    read_each(alloc, &pieces)
}

/// The calls of each process, by the numbers that operations have in this object, as for
/// [`OperationWord::operation_in`].
///
/// # Errors
///
/// Fails only for want of memory.
pub fn calls_in(
    alloc: Global,
    lists: &[Vec<OperationWord<'_>>],
    object: &Table,
) -> Result<Vec<Vec<u8>>, AllocError>
    // promise: operations-of-lists
    ensures { IfOk result (λ calls. map (λ list. list.items) calls.items
        ≡ calls_in object.now (map (λ list. list.items) lists.now)) }
{
    let mut calls = Vec::new(alloc);
    for list in lists {
        calls.push(operations_in(alloc, list, object)?)?;
    }
    Ok(calls)
}

/// Whether each number is below that of the operations.
fn all_known(calls: &[u8], operations: u8) -> bool
    ensures { result ≡ list_all (λ operation. nat_lt operation operations) calls.now }
{
    calls.iter().all(|operation| *operation < operations)
}

/// Whether each number in each list is below that of the operations.
fn each_known(calls: &[Vec<u8>], operations: u8) -> bool
    ensures { result ≡ list_all
        (λ list. list_all (λ operation. nat_lt operation operations) list.items) calls.now }
{
    calls.iter().all(|list| all_known(list, operations))
}

/// Whether there is a list for each process of the plan, and each call is of an operation of the
/// object.
pub fn calls_fit(opening: &Opening, calls: &[Vec<u8>]) -> bool
    ensures fit { result ≡ calls_fit opening.now (map (λ list. list.items) calls.now) }
    ensures few { result ≡ true → length calls.now ≤ MOST_PROCESSES }
{
    let (plan, object) = (opening.plan(), opening.object());
    calls.len() == usize::from(plan.processes()) && each_known(calls, object.operations())
}
