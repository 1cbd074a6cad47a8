//! Whether a JSON value has the shape of a certificate.
ghost use Rattle.std.specs.Prelude.{◌≡◌, codes, option_map};
ghost use Rattle.serde_json.specs.Find.{get};
ghost use Rattle.serde_json.specs.View.{view};
ghost use Rattle.cn_stock_cert.specs.Kinds.{any_number, are_lasting_parts, are_team_parts, has_at, has_keys, has_shape, has_version, is_evidence, is_least, is_most, is_null_or, is_number, is_row};

use crate::kinds::{Kind, are_lasting, is_array, is_choice};
use cn_joins::Join;
use serde_json::Value;

/// Whether it is an object with so many keys.
pub(crate) fn has_keys(value: &Value, count: usize) -> bool
    ensures { result ≡ has_keys count (view value.now) }
{
    match value.as_object() {
        Some(members) => members.len() == count,
        None => false,
    }
}

/// The value at the key of an object.
pub(crate) fn at<'v>(value: &'v Value, key: &str) -> Option<&'v Value>
    ensures { option_map (λ it. view it.now) result ≡ get key.now (view value.now) }
{
    value.get(key)
}

fn is_unsigned(value: &Value) -> bool
    ensures { result ≡ is_number any_number (view value.now) }
{
    u8::is(value, u64::MAX)
}

fn is_null_or_number(value: &Value) -> bool
    ensures { result ≡ is_null_or (is_number any_number) (view value.now) }
{
    value.is_null() || is_unsigned(value)
}

fn is_witness(value: &Value) -> bool
    ensures { result ≡ is_row (are_team_parts any_number) (view value.now) }
{
    is_choice(value, u64::MAX)
}

fn is_lasting(value: &Value) -> bool
    ensures { result ≡ is_row (are_lasting_parts any_number) (view value.now) }
{
    are_lasting(value, u64::MAX)
}

/// Whether it has a witness at its key.
fn has_witness(value: &Value) -> bool
    ensures { result
        ≡ has_at (codes "witness") (is_row (are_team_parts any_number)) (view value.now) }
{
    at(value, "witness").is_some_and(is_witness)
}

/// Whether it has sets of states at their key.
fn has_lasting(value: &Value) -> bool
    ensures { result
        ≡ has_at (codes "lasting") (is_row (are_lasting_parts any_number)) (view value.now) }
{
    at(value, "lasting").is_some_and(is_lasting)
}

/// Whether it is an object with one key, for evidence.
fn is_evidence(value: &Value) -> bool
    ensures { result ≡ is_evidence any_number (view value.now) }
{
    has_keys(value, 1) && (has_witness(value) || has_lasting(value))
}

fn is_least(value: &Value) -> bool
    ensures { result ≡ is_least any_number (view value.now) }
{
    value.is_null() || is_evidence(value)
}

fn is_most(value: &Value) -> bool
    ensures { result ≡ is_most any_number (view value.now) }
{
    value.is_null() || is_array::<Join>(value, u64::MAX)
}

/// Whether it has the shape of a certificate.
pub(crate) fn has_shape(value: &Value) -> bool
    ensures { result ≡ has_shape (view value.now) }
{
    has_keys(value, 6)
        && at(value, "at_least").is_some_and(is_null_or_number)
        && at(value, "at_most").is_some_and(is_null_or_number)
        && at(value, "least").is_some_and(is_least)
        && at(value, "most").is_some_and(is_most)
        && at(value, "type").is_some_and(Value::is_string)
        && at(value, "version").is_some_and(is_unsigned)
}

/// Whether its version is that of certificates by stocks.
pub(crate) fn has_version(value: &Value) -> bool
    ensures { result ≡ has_version (view value.now) }
{
    match at(value, "version") {
        Some(version) => version.as_u64() == Some(3),
        None => false,
    }
}
