//! The numbers of single operations and of pairs of operations, as rows of texts.
ghost use Rattle.std.specs.Prelude.{◌≡◌, ◌<◌, IfOk, length, string_bytes};
ghost use Rattle.std.specs.Str.{bytes_eq};
ghost use Rattle.cn_table.specs.DraftView.{texts_view};
ghost use Rattle.cn_pairs.specs.SetNumbers.{numbers, set_of};
ghost use Rattle.cn_sentences.specs.Triangle.{cell, head, row, rows_of, set_number, set_number_text, triangle};

use cn_pairs::{Pairs, SetNumber};
use cn_search::ConsensusNumber;
use cn_table::{Operation, Table};
use std::alloc::{AllocError, Global};

/// Whether the set is that of these operations.
fn is_set(set: &SetNumber, operations: &[Operation]) -> bool
    ensures { result ≡ bytes_eq (set_of set.now) (numbers operations.now) }
{
    set.operations.as_slice() == operations
}

/// The number that is told of these operations, if one is.
fn set_number(sets: &[SetNumber], operations: &[Operation]) -> Option<ConsensusNumber>
    ensures { result ≡ set_number sets.now (numbers operations.now) }
{
    for set in sets {
        if is_set(set, operations) {
            return Some(set.number);
        }
    }
    None
}

/// The text of the number that is told of these operations. It is empty if none is.
fn set_number_text(
    alloc: Global,
    sets: &[SetNumber],
    operations: &[Operation],
) -> Result<String, AllocError>
    ensures { IfOk result (λ text. string_bytes text
        ≡ set_number_text sets.now (numbers operations.now)) }
{
    match set_number(sets, operations) {
        Some(number) => format!(in alloc; "{number}"),
        None => Ok(String::new(alloc)),
    }
}

/// The cell of two operations. It is empty if the second has the lesser number.
fn cell(
    alloc: Global,
    pairs: &Pairs,
    first: Operation,
    second: Operation,
) -> Result<String, AllocError>
    ensures { IfOk result (λ text. string_bytes text ≡ cell pairs.now first.0 second.0) }
{
    if second.0 < first.0 {
        return Ok(String::new(alloc));
    }
    if first == second {
        return set_number_text(alloc, pairs.alone.as_slice(), &[first]);
    }
    set_number_text(alloc, pairs.pairs.as_slice(), &[first, second])
}

/// The first row: a text for the corner, and the names of the operations.
fn head(alloc: Global, table: &Table, corner: &str) -> Result<Vec<String>, AllocError>
    ensures { IfOk result (λ texts. texts_view texts ≡ head table.now corner.now) }
{
    let mut texts = Vec::new(alloc);
    texts.push(String::from_str(alloc, corner)?)?;
    for operation in 0..table.operations() {
        let name = table.operation_name(Operation(operation));
        texts.push(String::from_str(alloc, name)?)?;
    }
    Ok(texts)
}

/// The row of an operation: its name, and its cell with each operation.
fn row(
    alloc: Global,
    table: &Table,
    pairs: &Pairs,
    operation: Operation,
) -> Result<Vec<String>, AllocError>
    requires { operation.0 < length table.now.operations }
    ensures { IfOk result (λ texts. texts_view texts ≡ row table.now pairs.now operation.0) }
{
    let mut texts = Vec::new(alloc);
    texts.push(String::from_str(alloc, table.operation_name(operation))?)?;
    for other in 0..table.operations() {
        texts.push(cell(alloc, pairs, operation, Operation(other))?)?;
    }
    Ok(texts)
}

/// The numbers of single operations and of pairs of operations of a type as rows of texts. The first
/// row is a text for the corner and the names of the operations, and behind it stands a row for each
/// operation: its name, and its cells. The cell of two operations has the number of the type with
/// both alone, that of an operation with itself the number with this one alone. The cells left of that
/// are empty.
///
/// # Errors
///
/// `AllocError` if memory runs out.
pub fn triangle_of(
    alloc: Global,
    table: &Table,
    pairs: &Pairs,
    corner: &str,
) -> Result<Vec<Vec<String>>, AllocError>
    ensures { IfOk result (λ rows. rows_of rows.items
        ≡ triangle table.now pairs.now corner.now) }
{
    let mut rows = Vec::new(alloc);
    rows.push(head(alloc, table, corner)?)?;
    for operation in 0..table.operations() {
        rows.push(row(alloc, table, pairs, Operation(operation))?)?;
    }
    Ok(rows)
}
