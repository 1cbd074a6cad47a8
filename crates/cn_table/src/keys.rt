//! The keys of a document, and the values at them.
ghost use Rattle.std.specs.Prelude.{◌≡◌, map, not, is_some, option_map, string_bytes, false};
ghost use Rattle.std.specs.Ordering.{nat_cmp};
ghost use Rattle.std.specs.List.{list_any};
ghost use Rattle.std.specs.Map.{keys_of, lookup};
ghost use Rattle.std.specs.BTreeMap.{is_at};
ghost use Rattle.std.specs.Cmp.Lexicographic.{slice_cmp};
ghost use Rattle.std.specs.Option.{option_map_or};
ghost use Rattle.std.specs.Str.{bytes_eq};
ghost use Rattle.toml.specs.Data.{as_array, as_table, get_member};
ghost use Rattle.toml.specs.View.{table_view, view};
ghost use Rattle.cn_table.specs.Document.{array_at, list_of};
ghost use Rattle.cn_table.specs.Draft.{text_at};
ghost use Rattle.cn_table.specs.Faults.{has_other_key, lacks_a_key, some_table, operation_keys, has_unknown_key, has_missing_key};

use toml::{Table, Value};

/// The keys of the root.
pub const ROOT_KEYS: [&str; 4] = ["name", "states", "responses", "operation"];

/// The keys of an operation.
pub const OPERATION_KEYS: [&str; 3] = ["name", "response", "next"];

/// The value at a key, if there is one.
pub fn value_at<'a>(table: &'a Table, key: &str) -> Option<&'a Value>
    // promise: keys-of-a-document
    ensures { option_map (λ v. view v.now) result ≡ get_member key.now (table_view table.now) }
{
    table.get(key)
}

/// The text at a key, if the value there is a text.
pub fn text_at<'a>(table: &'a Table, key: &str) -> Option<&'a str>
    // promise: keys-of-a-document
    ensures { option_map (λ s. s.now) result ≡ text_at key.now (table_view table.now) }
{
    value_at(table, key)?.as_str()
}

/// The items of a value, if it is an array.
pub fn items_of(value: &Value) -> Option<&[Value]>
    // promise: keys-of-a-document
    ensures { option_map (λ s. map view s.now) result
        ≡ option_map list_of (as_array (view value.now)) }
{
    let items = value.as_array()?;
    Some(items.as_slice())
}

/// The items of the array at a key, if the value there is an array.
pub fn array_at<'a>(table: &'a Table, key: &str) -> Option<&'a [Value]>
    // promise: keys-of-a-document
    ensures { option_map (λ s. map view s.now) result ≡ array_at key.now (table_view table.now) }
{
    items_of(value_at(table, key)?)
}

/// Whether a key is one of these.
pub fn is_one_of(keys: &[&str], key: &str) -> bool
    // promise: keys-of-a-document
    ensures { result ≡ list_any (λ k. bytes_eq k.now key.now) keys.now }
{
    keys.iter().any(|k| *k == key)
}

fn some_entry_is_other(table: &Table, known: &[&str]) -> bool
    ensures { result
        ≡ list_any (λ k. not (list_any (λ l. bytes_eq l.now (string_bytes k)) known.now))
        (keys_of table.now.entries) }
{
    table.keys().any(|key| !is_one_of(known, key.as_str()))
}

/// Whether some key of the table is none of these.
fn has_other_key(table: &Table, known: &[&str]) -> bool
    ensures { result ≡ has_other_key (map (λ k. k.now) known.now) (table_view table.now) }
{
    some_entry_is_other(table, known)
}

fn some_entry_is_missing(table: &Table, known: &[&str]) -> bool
    ensures { result
        ≡ list_any (λ k. not (is_some
        (lookup (is_at (λ x. slice_cmp nat_cmp k.now (string_bytes x))) table.now.entries)))
        known.now }
{
    known.iter().any(|key| !table.contains_key(*key))
}

/// Whether the table lacks one of these keys.
fn lacks_a_key(table: &Table, known: &[&str]) -> bool
    ensures { result ≡ lacks_a_key (map (λ k. k.now) known.now) (table_view table.now) }
{
    some_entry_is_missing(table, known)
}

fn some_value_has_other_key(values: &[Value]) -> bool
    ensures { result
        ≡ list_any (λ v. option_map_or (has_other_key operation_keys) (as_table (view v)) false)
        values.now }
{
    values.iter().any(|value| match value.as_table() {
        Some(table) => has_other_key(table, &OPERATION_KEYS),
        None => false,
    })
}

fn some_table_has_other_key(values: &[Value]) -> bool
    ensures { result ≡ some_table (has_other_key operation_keys) (map view values.now) }
{
    some_value_has_other_key(values)
}

/// Whether the root or an operation has an unknown key.
pub(crate) fn has_unknown_key(document: &Table) -> bool
    ensures { result ≡ has_unknown_key (table_view document.now) }
{
    let in_operation = match array_at(document, "operation") {
        Some(values) => some_table_has_other_key(values),
        None => false,
    };
    has_other_key(document, &ROOT_KEYS) || in_operation
}

fn some_value_lacks_a_key(values: &[Value]) -> bool
    ensures { result
        ≡ list_any (λ v. option_map_or (lacks_a_key operation_keys) (as_table (view v)) false)
        values.now }
{
    values.iter().any(|value| match value.as_table() {
        Some(table) => lacks_a_key(table, &OPERATION_KEYS),
        None => false,
    })
}

fn some_table_lacks_a_key(values: &[Value]) -> bool
    ensures { result ≡ some_table (lacks_a_key operation_keys) (map view values.now) }
{
    some_value_lacks_a_key(values)
}

/// Whether the root or an operation lacks a key.
pub(crate) fn has_missing_key(document: &Table) -> bool
    ensures { result ≡ has_missing_key (table_view document.now) }
{
    let in_operation = match array_at(document, "operation") {
        Some(values) => some_table_lacks_a_key(values),
        None => false,
    };
    lacks_a_key(document, &ROOT_KEYS) || in_operation
}
