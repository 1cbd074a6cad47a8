//! Changes of a type that raise its number, in words.
ghost use Rattle.std.specs.Prelude.{◌≡◌, ◌++◌, OnOk, Some, flat_map, string_bytes};
ghost use Rattle.cn_table.specs.Names.{name_at};
ghost use Rattle.cn_table.specs.TypeTable.{operation_names};
ghost use Rattle.cn_sentences.specs.Changes.{answer_words, change_lines, change_words, changes_head, cut_line, kind_words, pair_line, pair_lines, raise_line, raise_lines, response_words, target_words};

use cn_changes::{
    Change, Changes, MOST_PAIRS, NumberKind, PairNumber, PairNumbers, Raise, Target, raises_of,
};
use cn_pieces::push_pieces;
use cn_table::{Operation, Response, State, Table};
use std::alloc::{AllocError, Global};

/// The name of an operation. It is empty if the type does not have the operation.
fn operation_name(table: &Table, operation: Operation) -> &str
    ensures { result.now ≡ name_at (operation_names table.now) operation.0 }
{
    if operation.0 < table.operations() {
        table.operation_name(operation)
    } else {
        ""
    }
}

/// The name of a state. It is empty if the type does not have the state.
fn state_name(table: &Table, state: State) -> &str
    ensures { result.now ≡ name_at table.now.states state.0 }
{
    if state.0 < table.states() {
        table.state_name(state)
    } else {
        ""
    }
}

/// The name of a response. It is empty if the type does not have the response.
fn response_name(table: &Table, response: Response) -> &str
    ensures { result.now ≡ name_at table.now.responses response.0 }
{
    if response.0 < table.responses() {
        table.response_name(response)
    } else {
        ""
    }
}

/// The words for the number that is told.
fn kind_words<'a>(kind: NumberKind) -> &'a str
    ensures { result.now ≡ kind_words kind }
{
    match kind {
        NumberKind::Consensus => "",
        NumberKind::Recoverable => "recoverable ",
        NumberKind::WithoutReads => "without read ",
    }
}

/// Writes the line of the type: its name, and the number.
///
/// # Errors
///
/// `AllocError` if memory runs out. The text may then have a part of the line.
#[tactic(auto, unfolding(crate::specs::Changes::changes_head))]
pub fn push_changes_head(
    alloc: Global,
    text: &mut String,
    table: &Table,
    changes: &Changes,
) -> Result<(), AllocError>
    ensures { OnOk result (string_bytes text.new
        ≡ string_bytes text.old ++ changes_head table.now changes.now) }
{
    let number = format!(in alloc; "{}", changes.number)?;
    push_pieces(text, &[table.name(), ": ", kind_words(changes.kind)])?;
    push_pieces(text, &[number.as_str(), "\n"])
}

#[tactic(auto, unfolding(crate::specs::Changes::target_words))]
fn push_target(text: &mut String, table: &Table, target: Target) -> Result<(), AllocError>
    ensures { OnOk result (string_bytes text.new
        ≡ string_bytes text.old ++ target_words table.now target) }
{
    push_pieces(
        text,
        &[
            operation_name(table, target.operation),
            " in ",
            state_name(table, target.state),
            " leads to ",
            state_name(table, target.next),
        ],
    )
}

#[tactic(auto, unfolding(crate::specs::Changes::response_words))]
fn push_response(text: &mut String, table: &Table, response: Response) -> Result<(), AllocError>
    ensures { OnOk result (string_bytes text.new
        ≡ string_bytes text.old ++ response_words table.now response) }
{
    push_pieces(text, &[" and answers ", response_name(table, response)])
}

/// The response, if it matters.
fn push_answer(
    text: &mut String,
    table: &Table,
    response: Option<Response>,
) -> Result<(), AllocError>
    ensures { OnOk result (string_bytes text.new
        ≡ string_bytes text.old ++ answer_words table.now response) }
{
    match response {
        Some(response) => push_response(text, table, response),
        None => Ok(()),
    }
}

#[tactic(auto, unfolding(crate::specs::Changes::change_words))]
fn push_change(text: &mut String, table: &Table, change: Change) -> Result<(), AllocError>
    ensures { OnOk result (string_bytes text.new
        ≡ string_bytes text.old ++ change_words table.now change) }
{
    push_target(text, table, change.target)?;
    push_response(text, table, change.response)
}

#[tactic(auto, unfolding(crate::specs::Changes::raise_line))]
fn push_raise(
    alloc: Global,
    text: &mut String,
    mark: &str,
    table: &Table,
    raise: Raise,
) -> Result<(), AllocError>
    ensures { OnOk result (string_bytes text.new
        ≡ string_bytes text.old ++ raise_line mark.now table.now raise) }
{
    let number = format!(in alloc; "{}", raise.number)?;
    push_pieces(text, &[mark, number.as_str(), " if "])?;
    push_target(text, table, raise.target)?;
    push_answer(text, table, raise.response)?;
    push_pieces(text, &[".\n"])
}

fn push_each_raise(
    alloc: Global,
    text: &mut String,
    mark: &str,
    table: &Table,
    raises: &[Raise],
) -> Result<(), AllocError>
    ensures { OnOk result (string_bytes text.new
        ≡ string_bytes text.old ++ flat_map (raise_line mark.now table.now) raises.now) }
{
    for raise in raises {
        push_raise(alloc, text, mark, table, *raise)?;
    }
    Ok(())
}

/// The lines for the changes that raise the number, or one line that there are none.
#[tactic(auto, unfolding(crate::specs::Changes::raise_lines))]
fn push_raises(
    alloc: Global,
    text: &mut String,
    mark: &str,
    table: &Table,
    raises: &[Raise],
) -> Result<(), AllocError>
    ensures { OnOk result (string_bytes text.new
        ≡ string_bytes text.old ++ raise_lines mark.now table.now raises.now) }
{
    if raises.is_empty() {
        return push_pieces(text, &[mark, "No change of one entry raises the number.\n"]);
    }
    push_each_raise(alloc, text, mark, table, raises)
}

#[tactic(auto, unfolding(crate::specs::Changes::pair_line))]
fn push_pair(
    alloc: Global,
    text: &mut String,
    mark: &str,
    table: &Table,
    told: PairNumber,
) -> Result<(), AllocError>
    ensures { OnOk result (string_bytes text.new
        ≡ string_bytes text.old ++ pair_line mark.now table.now told) }
{
    let number = format!(in alloc; "{}", told.number)?;
    push_pieces(text, &[mark, number.as_str(), " if "])?;
    push_change(text, table, told.pair.first)?;
    push_pieces(text, &[", and "])?;
    push_change(text, table, told.pair.second)?;
    push_pieces(text, &[".\n"])
}

fn push_each_pair(
    alloc: Global,
    text: &mut String,
    mark: &str,
    table: &Table,
    pairs: &[PairNumber],
) -> Result<(), AllocError>
    ensures { OnOk result (string_bytes text.new
        ≡ string_bytes text.old ++ flat_map (pair_line mark.now table.now) pairs.now) }
{
    for told in pairs {
        push_pair(alloc, text, mark, table, *told)?;
    }
    Ok(())
}

/// The line that says how far changes of two entries were tried.
fn push_cut(alloc: Global, text: &mut String, mark: &str, is_cut: bool) -> Result<(), AllocError>
    ensures { OnOk result (string_bytes text.new
        ≡ string_bytes text.old ++ cut_line mark.now is_cut) }
{
    if !is_cut {
        return Ok(());
    }
    let most = format!(in alloc; "{MOST_PAIRS}")?;
    push_pieces(
        text,
        &[
            mark,
            "Of the changes of two entries the first ",
            most.as_str(),
            " were tried.\n",
        ],
    )
}

/// The lines for the changes of two entries that raise the number, or one line that there are none.
fn push_pairs(
    alloc: Global,
    text: &mut String,
    mark: &str,
    table: &Table,
    pairs: &PairNumbers,
) -> Result<(), AllocError>
    ensures { OnOk result (string_bytes text.new
        ≡ string_bytes text.old ++ pair_lines mark.now table.now (Some pairs.now)) }
{
    if pairs.raising.is_empty() {
        push_pieces(
            text,
            &[mark, "No change of two entries raises the number.\n"],
        )?;
    } else {
        push_each_pair(alloc, text, mark, table, pairs.raising.as_slice())?;
    }
    push_cut(alloc, text, mark, pairs.is_cut)
}

/// Writes what raises the number of the type, behind a mark: a line for each change of one entry that
/// does, the greatest number first, or that there is none; and the same of changes of two entries, if
/// they were tried.
///
/// # Errors
///
/// `AllocError` if memory runs out. The text may then have some of the lines.
pub fn push_change_lines(
    alloc: Global,
    text: &mut String,
    mark: &str,
    table: &Table,
    changes: &Changes,
    pairs: &Option<PairNumbers>,
) -> Result<(), AllocError>
    ensures { OnOk result (string_bytes text.new
        ≡ string_bytes text.old ++ change_lines mark.now table.now changes.now pairs.now) }
{
    let raises = raises_of(alloc, changes.number, changes.nexts.as_slice())?;
    push_raises(alloc, text, mark, table, raises.as_slice())?;
    match pairs {
        Some(pairs) => push_pairs(alloc, text, mark, table, pairs),
        None => Ok(()),
    }
}
