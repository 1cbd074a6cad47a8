//! The flaws of a document: unknown keys, missing keys, and values that are not of their kind.
ghost use Rattle.std.specs.Prelude.{◌≡◌, ◌++◌, OnOk, IfOk, codes, map, string_bytes};
ghost use Rattle.std.specs.List.{list_all};
ghost use Rattle.toml.specs.View.{table_view, view};
ghost use Rattle.cn_table.specs.Document.{keys_in};
ghost use Rattle.cn_table.specs.Faults.{is_text, is_array_of};
ghost use Rattle.cn_flaws.specs.Flaws.{flaw, flaws_view, each, other_keys, missing_keys, wrong_kind, table_text};
ghost use Rattle.cn_flaws.specs.Flaws.{table_flaws, no_table_flaws, item_flaws, root_flaws, flaws_by};
ghost use Rattle.cn_flaws.specs.FlawPath.{key_path};
ghost use Rattle.cn_flaws.specs.FlawText.{other_key_text, missing_key_text, kind_text, no_operation_text};

use crate::flaw::{Flaw, push_flaw};
use crate::flaw_text::{in_quotes, operation_text};
use crate::path::{Holder, path_to_key, path_to_table};
use cn_table::TableFault;
use cn_table::keys::{OPERATION_KEYS, ROOT_KEYS, array_at, is_one_of, items_of, text_at, value_at};
use std::alloc::{AllocError, Global};
use toml::{Table, Value};

/// What a pass over a document looks for.
#[derive(Clone, Copy)]
pub(crate) enum FlawClass {
    OtherKeys,
    MissingKeys,
    Kinds,
}

/// What a value should be.
#[derive(Clone, Copy)]
enum Kind {
    Text,
    Texts,
    Tables,
}

impl Kind {
    ghost use Rattle.cn_flaws.specs.Flaws.{is_of, kind_name};

    fn is_of(self, value: &Value) -> bool
        ensures { result ≡ is_of self (view value.now) }
    {
        match self {
            Kind::Text => is_text(value),
            Kind::Texts => is_texts(value),
            Kind::Tables => value.as_array().is_some(),
        }
    }

    fn name(self) -> &'static str
        ensures { result.now ≡ kind_name self }
    {
        match self {
            Kind::Text => "a text",
            Kind::Texts => "an array of texts",
            Kind::Tables => "an array of tables",
        }
    }
}

fn other_key_text(alloc: Global, before: &str, after: &str, key: &str) -> Result<String, AllocError>
    ensures { IfOk result (λ s. string_bytes s ≡ other_key_text before.now after.now key.now) }
{
    let key = in_quotes(alloc, key)?;
    format!(in alloc; "{before}{key}{after}")
}

fn push_other_key(
    alloc: Global,
    flaws: &mut Vec<Flaw>,
    holder: Holder,
    before: &str,
    after: &str,
    key: &str,
) -> Result<(), AllocError>
    ensures { OnOk result (flaws_view flaws.new
        ≡ flaws_view flaws.old
        ++ flaw TableFault.UnknownKey (key_path holder key.now)
        (other_key_text before.now after.now key.now)) }
{
    let path = path_to_key(alloc, holder, key)?;
    let text = other_key_text(alloc, before, after, key)?;
    push_flaw(flaws, TableFault::UnknownKey, path, text)
}

/// Appends the keys of the table that are none of these.
fn push_other_keys(
    alloc: Global,
    flaws: &mut Vec<Flaw>,
    holder: Holder,
    before: &str,
    after: &str,
    known: &[&str],
    table: &Table,
) -> Result<(), AllocError>
    ensures { OnOk result (flaws_view flaws.new
        ≡ flaws_view flaws.old
        ++ other_keys holder before.now after.now (map (λ k. k.now) known.now)
        (keys_in (table_view table.now))) }
{
    for key in table.keys() {
        if !is_one_of(known, key.as_str()) {
            push_other_key(alloc, flaws, holder, before, after, key.as_str())?;
        }
    }
    Ok(())
}

fn missing_key_text(alloc: Global, place: &str, key: &str) -> Result<String, AllocError>
    ensures { IfOk result (λ s. string_bytes s ≡ missing_key_text place.now key.now) }
{
    format!(in alloc; "{place} has no \"{key}\"")
}

/// Appends those of these keys that the table lacks.
fn push_missing_keys(
    alloc: Global,
    flaws: &mut Vec<Flaw>,
    holder: Holder,
    place: &str,
    known: &[&str],
    table: &Table,
) -> Result<(), AllocError>
    ensures { OnOk result (flaws_view flaws.new
        ≡ flaws_view flaws.old
        ++ missing_keys holder place.now (map (λ k. k.now) known.now) (table_view table.now)) }
{
    for key in known {
        if value_at(table, *key).is_none() {
            let path = path_to_table(alloc, holder)?;
            let text = missing_key_text(alloc, place, *key)?;
            push_flaw(flaws, TableFault::MissingKey, path, text)?;
        }
    }
    Ok(())
}

fn kind_text(alloc: Global, before: &str, key: &str, kind: &str) -> Result<String, AllocError>
    ensures { IfOk result (λ s. string_bytes s ≡ kind_text before.now key.now kind.now) }
{
    format!(in alloc; "{before}\"{key}\": not {kind}")
}

fn is_text(value: &Value) -> bool
    ensures { result ≡ is_text (view value.now) }
{
    value.as_str().is_some()
}

fn all_are_texts(values: &[Value]) -> bool
    ensures { result ≡ list_all (λ v. is_text (view v)) values.now }
{
    values.iter().all(|value| is_text(value))
}

fn is_texts(value: &Value) -> bool
    ensures { result ≡ is_array_of is_text (view value.now) }
{
    match items_of(value) {
        Some(items) => all_are_texts(items),
        None => false,
    }
}

/// Appends the value at a key if it is not of this kind.
fn push_wrong_kind(
    alloc: Global,
    flaws: &mut Vec<Flaw>,
    kind: Kind,
    holder: Holder,
    before: &str,
    key: &str,
    table: &Table,
) -> Result<(), AllocError>
    ensures { OnOk result (flaws_view flaws.new
        ≡ flaws_view flaws.old ++ wrong_kind kind holder before.now key.now (table_view table.now)) }
{
    if let Some(value) = value_at(table, key) {
        if !kind.is_of(value) {
            let path = path_to_key(alloc, holder, key)?;
            let text = kind_text(alloc, before, key, kind.name())?;
            push_flaw(flaws, TableFault::WrongKind, path, text)?;
        }
    }
    Ok(())
}

fn table_text(alloc: Global, i: usize, table: &Table) -> Result<String, AllocError>
    ensures { IfOk result (λ s. string_bytes s ≡ table_text i (table_view table.now)) }
{
    operation_text(alloc, i, text_at(table, "name").unwrap_or(""))
}

fn push_table_kinds(
    alloc: Global,
    flaws: &mut Vec<Flaw>,
    holder: Holder,
    before: &str,
    table: &Table,
) -> Result<(), AllocError>
    ensures { OnOk result (flaws_view flaws.new
        ≡ flaws_view flaws.old
        ++ (wrong_kind Kind.Text holder before.now (codes "name") (table_view table.now)
        ++ (wrong_kind Kind.Texts holder before.now (codes "response") (table_view table.now)
        ++ wrong_kind Kind.Texts holder before.now (codes "next") (table_view table.now)))) }
{
    push_wrong_kind(alloc, flaws, Kind::Text, holder, before, "name", table)?;
    push_wrong_kind(alloc, flaws, Kind::Texts, holder, before, "response", table)?;
    push_wrong_kind(alloc, flaws, Kind::Texts, holder, before, "next", table)
}

fn push_table_flaws(
    alloc: Global,
    flaws: &mut Vec<Flaw>,
    flaw_class: FlawClass,
    i: usize,
    table: &Table,
) -> Result<(), AllocError>
    ensures { OnOk result (flaws_view flaws.new
        ≡ flaws_view flaws.old ++ table_flaws flaw_class i (table_view table.now)) }
{
    let place = table_text(alloc, i, table)?;
    let before = format!(in alloc; "{place}, ")?;
    let holder = Holder::Operation(i);
    match flaw_class {
        FlawClass::OtherKeys => {
            let after = ": an operation has name, response, next";
            push_other_keys(
                alloc,
                flaws,
                holder,
                before.as_str(),
                after,
                &OPERATION_KEYS,
                table,
            )
        }
        FlawClass::MissingKeys => {
            push_missing_keys(alloc, flaws, holder, place.as_str(), &OPERATION_KEYS, table)
        }
        FlawClass::Kinds => push_table_kinds(alloc, flaws, holder, before.as_str(), table),
    }
}

fn no_operation_text(alloc: Global, i: usize) -> Result<String, AllocError>
    ensures { IfOk result (λ s. string_bytes s ≡ no_operation_text i) }
{
    format!(in alloc; "operation[{i}]: not a table")
}

fn push_no_table(alloc: Global, flaws: &mut Vec<Flaw>, i: usize) -> Result<(), AllocError>
    ensures { OnOk result (flaws_view flaws.new
        ≡ flaws_view flaws.old ++ no_table_flaws FlawClass.Kinds i) }
{
    let path = path_to_table(alloc, Holder::Operation(i))?;
    let text = no_operation_text(alloc, i)?;
    push_flaw(flaws, TableFault::WrongKind, path, text)
}

fn push_item_flaws(
    alloc: Global,
    flaws: &mut Vec<Flaw>,
    flaw_class: FlawClass,
    i: usize,
    value: &Value,
) -> Result<(), AllocError>
    ensures { OnOk result (flaws_view flaws.new
        ≡ flaws_view flaws.old ++ item_flaws flaw_class i (view value.now)) }
{
    match (value.as_table(), flaw_class) {
        (Some(table), _) => push_table_flaws(alloc, flaws, flaw_class, i, table),
        (None, FlawClass::Kinds) => push_no_table(alloc, flaws, i),
        (None, _) => Ok(()),
    }
}

fn push_items_flaws(
    alloc: Global,
    flaws: &mut Vec<Flaw>,
    flaw_class: FlawClass,
    values: &[Value],
) -> Result<(), AllocError>
    ensures { OnOk result (flaws_view flaws.new
        ≡ flaws_view flaws.old ++ each (item_flaws flaw_class) 0 (map view values.now)) }
{
    for (i, value) in values.iter().enumerate() {
        push_item_flaws(alloc, flaws, flaw_class, i, value)?;
    }
    Ok(())
}

fn push_root_kinds(alloc: Global, flaws: &mut Vec<Flaw>, document: &Table) -> Result<(), AllocError>
    ensures { OnOk result (flaws_view flaws.new
        ≡ flaws_view flaws.old ++ root_flaws FlawClass.Kinds (table_view document.now)) }
{
    let root = Holder::Root;
    push_wrong_kind(alloc, flaws, Kind::Text, root, "", "name", document)?;
    push_wrong_kind(alloc, flaws, Kind::Texts, root, "", "states", document)?;
    push_wrong_kind(alloc, flaws, Kind::Texts, root, "", "responses", document)?;
    push_wrong_kind(alloc, flaws, Kind::Tables, root, "", "operation", document)
}

fn push_root_flaws(
    alloc: Global,
    flaws: &mut Vec<Flaw>,
    flaw_class: FlawClass,
    document: &Table,
) -> Result<(), AllocError>
    ensures { OnOk result (flaws_view flaws.new
        ≡ flaws_view flaws.old ++ root_flaws flaw_class (table_view document.now)) }
{
    let root = Holder::Root;
    match flaw_class {
        FlawClass::OtherKeys => {
            let after = ": the root has name, states, responses, operation";
            push_other_keys(alloc, flaws, root, "", after, &ROOT_KEYS, document)
        }
        FlawClass::MissingKeys => {
            push_missing_keys(alloc, flaws, root, "the root", &ROOT_KEYS, document)
        }
        FlawClass::Kinds => push_root_kinds(alloc, flaws, document),
    }
}

/// Appends the flaws of a class in a document: those of the root, then those of each operation.
pub(crate) fn push_flaws_by(
    alloc: Global,
    flaws: &mut Vec<Flaw>,
    flaw_class: FlawClass,
    document: &Table,
) -> Result<(), AllocError>
    ensures { OnOk result (flaws_view flaws.new
        ≡ flaws_view flaws.old ++ flaws_by flaw_class (table_view document.now)) }
{
    push_root_flaws(alloc, flaws, flaw_class, document)?;
    if let Some(values) = array_at(document, "operation") {
        push_items_flaws(alloc, flaws, flaw_class, values)?;
    }
    Ok(())
}
