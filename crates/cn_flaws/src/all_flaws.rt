//! From bytes to their flaws.
ghost use Rattle.std.specs.Prelude.{◌≡◌, ◌≤◌, ◌<◌, ◌^◌, ◌++◌, ℕ, [], IfOk, IsUtf8, OnOk, length, string_bytes, take};
ghost use Rattle.std.specs.Option.{option_map_or};
ghost use Rattle.toml.specs.View.{table_view};
ghost use Rattle.cn_table.specs.Draft.{draft_of};
ghost use Rattle.cn_table.specs.Faults.{fault_of};
ghost use Rattle.cn_flaws.specs.Flaws.{ArePlain, flaws_view, not_toml, draft_flaws, document_flaws, text_flaws, flaws_at, first_fault};
ghost use Rattle.cn_flaws.specs.FlawText.{not_toml_text, place_after};

use crate::document_flaws::{FlawClass, push_flaws_by};
use crate::draft_flaws::push_draft_flaws;
use crate::flaw::{Flaw, Position};
use crate::flaw_text::place_after;
use cn_table::TableFault;
use cn_table::draft::draft_from;
use std::alloc::{AllocError, Global};
use toml::Table;

fn not_toml_text(alloc: Global, position: Position) -> Result<String, AllocError>
    ensures { IfOk result (λ s. string_bytes s ≡ not_toml_text position) }
{
    let Position { line, column } = position;
    format!(in alloc; "line {line}, column {column}: not TOML")
}

/// The flaws of the draft, if each value is of its kind.
fn push_flaws_of_draft(
    alloc: Global,
    flaws: &mut Vec<Flaw>,
    document: &Table,
) -> Result<(), AllocError>
    ensures { OnOk result (flaws_view flaws.new
        ≡ flaws_view flaws.old
        ++ option_map_or draft_flaws (draft_of (table_view document.now)) []) }
{
    match draft_from(alloc, document) {
        Ok(draft) => push_draft_flaws(alloc, flaws, &draft),
        Err(TableFault::OutOfMemory) => Err(AllocError),
        Err(_) => Ok(()),
    }
}

#[tactic(auto, unfolding(crate::specs::Flaws::document_flaws))]
fn push_document_flaws(
    alloc: Global,
    flaws: &mut Vec<Flaw>,
    document: &Table,
) -> Result<(), AllocError>
    ensures { OnOk result (flaws_view flaws.new
        ≡ flaws_view flaws.old ++ document_flaws (table_view document.now)) }
{
    push_flaws_by(alloc, flaws, FlawClass::OtherKeys, document)?;
    push_flaws_by(alloc, flaws, FlawClass::MissingKeys, document)?;
    push_flaws_by(alloc, flaws, FlawClass::Kinds, document)?;
    push_flaws_of_draft(alloc, flaws, document)
}

fn document_flaws(alloc: Global, document: &Table) -> Result<Vec<Flaw>, AllocError>
    ensures { IfOk result (λ v. flaws_view v ≡ document_flaws (table_view document.now)) }
{
    let mut flaws = Vec::new(alloc);
    push_document_flaws(alloc, &mut flaws, document)?;
    Ok(flaws)
}

/// The one flaw of a text that is no TOML: the parser stops at this byte.
fn refusal(alloc: Global, text: &str, place: usize) -> Result<Vec<Flaw>, AllocError>
    requires small { length text.now < 2 ^ 63 }
    requires within { place ≤ length text.now }
    ensures { IfOk result (λ v. flaws_view v ≡ not_toml (place_after 1 1 (take place text.now))) }
{
    let bytes = text.as_bytes();
    let position = place_after(&bytes[..place]);
    let mut flaws = Vec::new(alloc);
    flaws.push(Flaw {
        fault: TableFault::NotToml,
        path: Vec::new(alloc),
        position: Some(position),
        text: not_toml_text(alloc, position)?,
    })?;
    Ok(flaws)
}

fn text_flaws(alloc: Global, text: &str) -> Result<Vec<Flaw>, AllocError>
    requires { length text.now < 2 ^ 63 }
    ensures { IfOk result (λ v. (place : ℕ) × (place ≤ length text.now)
        × (flaws_view v ≡ text_flaws place text.now)) }
{
    match toml::table_from_str(alloc, text) {
        Ok(document) => document_flaws(alloc, &document),
        Err(e) => match e.span() {
            Some(span) => refusal(alloc, text, span.start),
            None => Err(AllocError),
        },
    }
}

/// All flaws of the bytes of a table, in the order of the faults.
///
/// Bytes that are no TOML have one flaw, with the place where the parser stops. A document always
/// has its flaws of keys and kinds. It has its flaws of names, counts and rows if each value is
/// there and of its kind. Bytes that are not UTF-8 have no flaw.
///
/// No text of a flaw has a control character, so each is one line.
///
/// UTF-8 has no flaw exactly if [`read_table`](cn_table::read_table) answers a table. Else the
/// first flaw is of the fault that `read_table` answers.
///
/// # Errors
///
/// Fails only for want of memory.
pub fn flaws(alloc: Global, bytes: &[u8]) -> Result<Vec<Flaw>, AllocError>
    requires { length bytes.now < 2 ^ 63 }
    // promise: flaws-of-bytes (flaws_at)
    // promise: paths-of-flaws
    ensures flaws { IfOk result (λ v. (place : ℕ) × (place ≤ length bytes.now)
        × (flaws_view v ≡ flaws_at place bytes.now)) }
    // promise: first-flaw
    ensures first { IfOk result (λ v. IsUtf8 bytes.now
        → first_fault (flaws_view v) ≡ fault_of bytes.now) }
    // promise: plain-flaws (ArePlain: IsPlain)
    ensures plain { IfOk result (λ v. ArePlain (flaws_view v)) }
{
    match str::from_utf8(bytes) {
        Ok(text) => text_flaws(alloc, text),
        Err(_) => Ok(Vec::new(alloc)),
    }
}
