//! The sentences on the smallest sets of operations with the number of a type.
ghost use Rattle.std.specs.Prelude.{◌≡◌, ◌<◌, ◌++◌, OnOk, flat_map, length, map, string_bytes};
ghost use Rattle.std.specs.List.{range_with_len};
ghost use Rattle.cn_table.specs.Names.{name_at};
ghost use Rattle.cn_table.specs.TypeTable.{operation_names};
ghost use Rattle.cn_pairs.specs.SetNumbers.{numbers};
ghost use Rattle.cn_sentences.specs.Smallest.{listed_name, needed, sentence, sentences, separator};

use cn_pairs::Pairs;
use cn_pieces::push_pieces;
use cn_table::{Operation, Table};
use std::alloc::{AllocError, Global};

/// What stands before the item with this place among so many.
fn separator<'a>(count: usize, place: usize) -> &'a str
    requires { place < count }
    ensures { result.now ≡ separator count place }
{
    if place == 0 {
        ""
    } else if place + 1 == count {
        " and "
    } else {
        ", "
    }
}

/// The name of an operation. It is empty if the type does not have the operation.
fn name_of(table: &Table, operation: Operation) -> &str
    ensures { result.now ≡ name_at (operation_names table.now) operation.0 }
{
    if operation.0 < table.operations() {
        table.operation_name(operation)
    } else {
        ""
    }
}

fn push_name(
    text: &mut String,
    table: &Table,
    set: &[Operation],
    place: usize,
) -> Result<(), AllocError>
    requires { place < length set.now }
    ensures { OnOk result (string_bytes text.new
        ≡ string_bytes text.old ++ listed_name table.now (numbers set.now) place) }
{
    push_pieces(
        text,
        &[separator(set.len(), place), name_of(table, set[place])],
    )
}

#[tactic(auto, using(cn_pieces::proofs::Ranges::pieces_behind))]
fn push_names(text: &mut String, table: &Table, set: &[Operation]) -> Result<(), AllocError>
    ensures { OnOk result (string_bytes text.new ≡ string_bytes text.old
        ++ flat_map (listed_name table.now (numbers set.now)) (range_with_len 0 (length set.now))) }
{
    for place in 0..set.len() {
        push_name(text, table, set, place)?;
    }
    Ok(())
}

/// Which operations are needed: all of the type, or only those of the set.
#[tactic(auto, unfolding(crate::specs::Smallest::needed))]
fn push_needed(text: &mut String, table: &Table, set: &[Operation]) -> Result<(), AllocError>
    ensures { OnOk result (string_bytes text.new
        ≡ string_bytes text.old ++ needed table.now (numbers set.now)) }
{
    if set.len() == table.operations() as usize {
        return text.push_str("all operations");
    }
    text.push_str("only ")?;
    push_names(text, table, set)
}

/// The line of a set, behind a mark, with the number of the type in words.
fn push_sentence<'a>(
    text: &mut String,
    mark: &'a str,
    table: &Table,
    number: &'a str,
    set: &[Operation],
) -> Result<(), AllocError>
    ensures { OnOk result (string_bytes text.new ≡ string_bytes text.old
        ++ sentence mark.now table.now number.now (numbers set.now)) }
{
    push_pieces(text, &[mark, "The number ", number, " of the type needs "])?;
    push_needed(text, table, set)?;
    push_pieces(text, &[".\n"])
}

/// Writes a line for each of these sets of operations behind a mark.
fn push_sentences(
    text: &mut String,
    mark: &str,
    table: &Table,
    number: &str,
    sets: &[Vec<Operation>],
) -> Result<(), AllocError>
    ensures { OnOk result (string_bytes text.new ≡ string_bytes text.old
        ++ flat_map (sentence mark.now table.now number.now) (map (λ set. numbers set.items) sets.now)) }
{
    for set in sets {
        push_sentence(text, mark, table, number, set.as_slice())?;
    }
    Ok(())
}

/// Writes a line for each of the smallest sets of operations with the number of the type, behind a
/// mark: the number needs only these operations, or all of the type.
///
/// # Errors
///
/// `AllocError` if memory runs out. The text may then have some of the lines.
pub fn push_smallest(
    alloc: Global,
    text: &mut String,
    mark: &str,
    table: &Table,
    pairs: &Pairs,
) -> Result<(), AllocError>
    ensures { OnOk result (string_bytes text.new
        ≡ string_bytes text.old ++ sentences mark.now table.now pairs.now) }
{
    let number = format!(in alloc; "{}", pairs.number)?;
    push_sentences(
        text,
        mark,
        table,
        number.as_str(),
        pairs.smallest.as_slice(),
    )
}
