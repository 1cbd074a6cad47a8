//! Drafts: documents in which each value is of its kind.
//!
//! A draft has the states, responses and operations of a document, with names where a table has
//! numbers. Nothing else of it is checked: a text may be no name or stand twice, and a row may have
//! any length and any entries.
ghost use Rattle.std.specs.Prelude.{map, string_bytes};
ghost use Rattle.toml.specs.View.{table_view, view};
ghost use Rattle.cn_table.specs.Draft.{text_at, texts_of, texts_at, row_of, row_at, rows_of, rows_at, draft_of};
ghost use Rattle.cn_table.specs.Reads.{Reads};
ghost use Rattle.cn_table.specs.DraftView.{texts_view, row_view, rows_view, draft_view};

use crate::fault::TableFault;
use crate::keys::{array_at, text_at};
use crate::names::HasName;
use std::alloc::Global;
use toml::{Table, Value};

/// An operation of a draft.
#[derive(Drop)]
pub struct DraftRow {
    /// The name.
    pub name: String,
    /// For each state a response, by its name.
    pub response: Vec<String>,
    /// For each state the next state, by its name.
    pub next: Vec<String>,
}

impl HasName for DraftRow {
    ghost name_of = { λ r. string_bytes r.name };

    fn name(&self) -> &str {
        &self.name
    }
}

/// A document in which each value is of its kind. Its names and counts are not checked.
#[derive(Drop)]
pub struct Draft {
    /// The name of the type.
    pub name: String,
    /// The names of the states.
    pub states: Vec<String>,
    /// The names of the responses.
    pub responses: Vec<String>,
    /// The operations.
    pub operations: Vec<DraftRow>,
}

fn owned_text_at(alloc: Global, table: &Table, key: &str) -> Result<String, TableFault>
    ensures { Reads TableFault.WrongKind (λ s. string_bytes s) result
        (text_at key.now (table_view table.now)) }
{
    let text = text_at(table, key).ok_or(TableFault::WrongKind)?;
    Ok(String::from_str(alloc, text)?)
}

fn texts(alloc: Global, values: &[Value]) -> Result<Vec<String>, TableFault>
    ensures { Reads TableFault.WrongKind texts_view result (texts_of (map view values.now)) }
{
    let mut out = Vec::new(alloc);
    for value in values {
        let text = value.as_str().ok_or(TableFault::WrongKind)?;
        out.push(String::from_str(alloc, text)?)?;
    }
    Ok(out)
}

fn texts_at(alloc: Global, table: &Table, key: &str) -> Result<Vec<String>, TableFault>
    ensures { Reads TableFault.WrongKind texts_view result
        (texts_at key.now (table_view table.now)) }
{
    let values = array_at(table, key).ok_or(TableFault::WrongKind)?;
    texts(alloc, values)
}

#[tactic(auto, unfolding(crate::specs::Draft::row_of))]
fn row(alloc: Global, table: &Table) -> Result<DraftRow, TableFault>
    ensures { Reads TableFault.WrongKind row_view result (row_of (table_view table.now)) }
{
    let name = owned_text_at(alloc, table, "name")?;
    let response = texts_at(alloc, table, "response")?;
    let next = texts_at(alloc, table, "next")?;
    Ok(DraftRow {
        name,
        response,
        next,
    })
}

fn row_from(alloc: Global, value: &Value) -> Result<DraftRow, TableFault>
    ensures { Reads TableFault.WrongKind row_view result (row_at (view value.now)) }
{
    let table = value.as_table().ok_or(TableFault::WrongKind)?;
    row(alloc, table)
}

fn rows(alloc: Global, values: &[Value]) -> Result<Vec<DraftRow>, TableFault>
    ensures { Reads TableFault.WrongKind rows_view result (rows_of (map view values.now)) }
{
    let mut out = Vec::new(alloc);
    for value in values {
        out.push(row_from(alloc, value)?)?;
    }
    Ok(out)
}

fn rows_at(alloc: Global, table: &Table, key: &str) -> Result<Vec<DraftRow>, TableFault>
    ensures { Reads TableFault.WrongKind rows_view result (rows_at key.now (table_view table.now)) }
{
    let values = array_at(table, key).ok_or(TableFault::WrongKind)?;
    rows(alloc, values)
}

/// The draft of a document, without the keys that a table does not have.
///
/// # Errors
///
/// `WrongKind` if a value is missing or not of its kind, or `OutOfMemory`.
#[tactic(auto, unfolding(crate::specs::Draft::draft_of))]
pub fn draft_from(alloc: Global, document: &Table) -> Result<Draft, TableFault>
    // promise: draft-of-a-document (Reads, draft_of)
    ensures { Reads TableFault.WrongKind draft_view result (draft_of (table_view document.now)) }
{
    let name = owned_text_at(alloc, document, "name")?;
    let states = texts_at(alloc, document, "states")?;
    let responses = texts_at(alloc, document, "responses")?;
    let operations = rows_at(alloc, document, "operation")?;
    Ok(Draft {
        name,
        states,
        responses,
        operations,
    })
}
