//! The numbers of pairs of operations in Markdown.
ghost use Rattle.std.specs.Prelude.{◌≡◌, ◌++◌, IfOk, OnOk, string_bytes};
ghost use Rattle.cn_markdown.specs.Pairs.{pairs_markdown, sentence_list};

use crate::rows::push_table;
use cn_pairs::Pairs;
use cn_sentences::{push_smallest, triangle_of};
use cn_table::Table;
use std::alloc::{AllocError, Global};

/// The sentences as a list, behind an empty line. There is no line if there are none.
fn push_sentence_list(
    alloc: Global,
    text: &mut String,
    table: &Table,
    pairs: &Pairs,
) -> Result<(), AllocError>
    ensures { OnOk result (string_bytes text.new ≡ string_bytes text.old
        ++ sentence_list table.now pairs.now) }
{
    if pairs.smallest.is_empty() {
        return Ok(());
    }
    text.push_str("\n")?;
    push_smallest(alloc, text, "- ", table, pairs)
}

/// The numbers of the pairs of operations of a type in Markdown, from the answer of
/// [`pairs_of`](cn_pairs::pairs_of) for this type: a table with the name of the type in its corner, a
/// row and a column for each operation; and behind an empty line, as a list, which operations the
/// number of the type needs. The cell of two operations has the number of the type with both alone,
/// that of an operation with itself the number with this one alone. The cells left of that are empty.
///
/// # Errors
///
/// `AllocError` if memory runs out.
pub fn pairs_table(alloc: Global, table: &Table, pairs: &Pairs) -> Result<String, AllocError>
    // promise: texts-of-numbers (pairs_markdown)
    ensures { IfOk result (λ text. string_bytes text ≡ pairs_markdown table.now pairs.now) }
{
    let rows = triangle_of(alloc, table, pairs, table.name())?;
    let mut text = String::new(alloc);
    push_table(&mut text, rows.as_slice())?;
    push_sentence_list(alloc, &mut text, table, pairs)?;
    Ok(text)
}
