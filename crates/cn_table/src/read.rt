//! From bytes to a table, or to the first fault that the bytes have.
ghost use Rattle.std.specs.Prelude.{◌≡◌, ◌≢◌, ◌⊎◌, Ok, Err, IfOk, IfErr, IsUtf8};
ghost use Rattle.toml.specs.View.{table_view};
ghost use Rattle.cn_table.specs.DraftView.{draft_view};
ghost use Rattle.cn_table.specs.Faults.{reading};
ghost use Rattle.cn_table.specs.Reads.{document_reading, draft_reading};
ghost use Rattle.cn_table.specs.declared.fault.TableFault.{TableFault as FaultOf};
ghost use Rattle.cn_table.specs.declared.fault.TableFault.TheVariants.{NotToml, UnknownName, OutOfMemory};

use crate::document::read_document;
use crate::draft::{Draft, draft_from};
use crate::draft_faults::{has_bad_count, has_bad_length, has_bad_name, has_repeated_name};
use crate::fault::TableFault;
use crate::keys::{has_missing_key, has_unknown_key};
use crate::resolve::table_from;
use crate::table::Table;
use std::alloc::Global;

/// The table of a draft, or the first fault of the draft. It answers every fault but an unknown
/// name before it takes memory.
#[tactic(auto, unfolding(crate::specs::Reads::draft_reading))]
fn table_of_draft(alloc: Global, draft: Draft) -> Result<Table, TableFault>
    ensures table { IfOk result (λ t. draft_reading (draft_view draft) ≡ Ok t) }
    ensures fault { IfErr result (λ e. (e ≡ OutOfMemory)
        ⊎ (draft_reading (draft_view draft) ≡ Err e)) }
    ensures told { (e : FaultOf) → draft_reading (draft_view draft) ≡ Err e → e ≢ UnknownName
        → result ≡ Err e }
{
    if has_bad_name(&draft) {
        return Err(TableFault::BadName);
    }
    if has_bad_count(&draft) {
        return Err(TableFault::Count);
    }
    if has_repeated_name(&draft) {
        return Err(TableFault::Repeated);
    }
    if has_bad_length(&draft) {
        return Err(TableFault::RowLength);
    }
    table_from(alloc, draft)
}

/// The table of a document, or the first fault of the document.
#[tactic(auto, unfolding(crate::specs::Reads::document_reading))]
fn table_of_document(alloc: Global, document: &toml::Table) -> Result<Table, TableFault>
    ensures table { IfOk result (λ t. document_reading (table_view document.now) ≡ Ok t) }
    ensures fault { IfErr result (λ e. (e ≡ OutOfMemory)
        ⊎ (document_reading (table_view document.now) ≡ Err e)) }
{
    if has_unknown_key(document) {
        return Err(TableFault::UnknownKey);
    }
    if has_missing_key(document) {
        return Err(TableFault::MissingKey);
    }
    let draft = draft_from(alloc, document)?;
    table_of_draft(alloc, draft)
}

/// Reads a table from the bytes of a TOML document.
///
/// The root has a `name`, the arrays `states` and `responses` of names, and an array `operation` of
/// tables. Each of these tables has a `name` and the arrays `response` and `next`, with one entry
/// for each state, in the order of `states`. Keys stand in any order.
///
/// # Errors
///
/// The first of the faults 1 to 9 of [`TableFault`] that the bytes have, or `OutOfMemory`. The call
/// refuses bytes that are not UTF-8 before it takes memory.
#[tactic(auto, using(crate::proofs::KindLemmas::reading_by_document))]
pub fn read_table(alloc: Global, bytes: &[u8]) -> Result<Table, TableFault>
    // promise: table-of-bytes
    // promise: first-flaw
    ensures table { IfOk result (λ t. reading bytes.now ≡ Ok t) }
    // promise: table-of-bytes
    // promise: first-flaw
    ensures fault { IfErr result (λ e. (e ≡ OutOfMemory) ⊎ (reading bytes.now ≡ Err e)) }
    // promise: table-of-bytes
    ensures told { ¬ IsUtf8 bytes.now → result ≡ Err NotToml }
{
    let document = read_document(alloc, bytes)?;
    table_of_document(alloc, &document)
}
