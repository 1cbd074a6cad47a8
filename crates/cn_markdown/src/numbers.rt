//! A Markdown table of types and their numbers.
ghost use Rattle.std.specs.Prelude.{◌≡◌, ◌++◌, IfOk, OnOk, flat_map, option_map, option_to_list, string_bytes};
ghost use Rattle.cn_markdown.specs.Numbers.{numbers_head, numbers_row, recoverable_head, unread_head};
ghost use Rattle.cn_markdown.specs.Rows.{cell};

use crate::rows::push_cell;
use cn_table::Table;
use std::alloc::{AllocError, Global};

/// The head of a table of types and their numbers, and the line below it.
pub(crate) fn head_of(recoverable: bool, without_read: bool) -> &'static str
    ensures { result.now ≡ numbers_head recoverable without_read }
{
    match (recoverable, without_read) {
        (false, false) => "| Type | Consensus number |\n| --- | ---: |\n",
        (true, false) => "| Type | Consensus number | Recoverable |\n| --- | ---: | ---: |\n",
        (false, true) => "| Type | Consensus number | Without read |\n| --- | ---: | ---: |\n",
        (true, true) => {
            "| Type | Consensus number | Recoverable | Without read |\n| --- | ---: | ---: | ---: |\n"
        }
    }
}

/// The head where the recoverable number stands alone.
pub(crate) fn recoverable_head() -> &'static str
    ensures { result.now ≡ recoverable_head }
{
    "| Type | Recoverable consensus number |\n| --- | ---: |\n"
}

/// The head where the number without reads stands alone.
pub(crate) fn unread_head() -> &'static str
    ensures { result.now ≡ unread_head }
{
    "| Type | Consensus number without reads |\n| --- | ---: |\n"
}

/// The head of a Markdown table of types and their numbers, with the line below it: a column for
/// the type, one for its consensus number, one for its recoverable number if that is told, and one
/// for its number without reads if that is told.
///
/// # Errors
///
/// `AllocError` if memory runs out.
pub fn number_head(
    alloc: Global,
    recoverable: bool,
    without_read: bool,
) -> Result<String, AllocError>
    // promise: texts-of-numbers (numbers_head)
    // promise: head-by-classify
    ensures { IfOk result (λ text. string_bytes text ≡ numbers_head recoverable without_read) }
{
    String::from_str(alloc, head_of(recoverable, without_read))
}

/// A cell with a number that is told, or none.
fn push_told(text: &mut String, told: Option<&str>) -> Result<(), AllocError>
    ensures { OnOk result (string_bytes text.new ≡ string_bytes text.old
        ++ flat_map cell (option_to_list (option_map (λ r. r.now) told.entry))) }
{
    match told {
        Some(number) => push_cell(text, number),
        None => Ok(()),
    }
}

/// The cells behind the number, of those that are told.
fn push_others(
    text: &mut String,
    recoverable: Option<&str>,
    without_read: Option<&str>,
) -> Result<(), AllocError>
    ensures { OnOk result (string_bytes text.new ≡ string_bytes text.old ++ flat_map cell
        (option_to_list (option_map (λ r. r.now) recoverable.entry)
        ++ option_to_list (option_map (λ r. r.now) without_read.entry))) }
{
    push_told(text, recoverable)?;
    push_told(text, without_read)
}

/// The row of a type in the table of [`number_head`]: its name, its number, its recoverable number
/// if that is told, and its number without reads if that is told. The numbers are given as words, as
/// `2`, `infinite` or `at least 8`.
///
/// # Errors
///
/// `AllocError` if memory runs out.
pub fn number_row(
    alloc: Global,
    table: &Table,
    number: &str,
    recoverable: Option<&str>,
    without_read: Option<&str>,
) -> Result<String, AllocError>
    // promise: texts-of-numbers (numbers_row)
    // promise: forms-by-classify
    ensures { IfOk result (λ text. string_bytes text ≡ numbers_row table.now.name number.now
        (option_map (λ r. r.now) recoverable.entry)
        (option_map (λ r. r.now) without_read.entry)) }
{
    let mut text = String::from_str(alloc, "|")?;
    push_cell(&mut text, table.name())?;
    push_cell(&mut text, number)?;
    push_others(&mut text, recoverable, without_read)?;
    text.push_str("\n")?;
    Ok(text)
}
