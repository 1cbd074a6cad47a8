//! Whether a JSON value has the shape of a certificate.
ghost use Rattle.std.specs.Prelude.{◌≡◌, option_map};
ghost use Rattle.serde_json.specs.Find.{get};
ghost use Rattle.serde_json.specs.View.{view};
ghost use Rattle.cn_unread_cert.specs.Kinds.{any_limits, has_keys, has_shape, has_version, is_evidence, is_least, is_most, is_null_or, is_number};

use crate::kinds::{Kind, are_signs, is_array, is_choice, is_further};
use crate::limits::Limits;
use cn_game::Turn;
use serde_json::Value;

/// The limits of what a text is read as.
const ANY: Limits = Limits {
    number: u64::MAX,
    list: usize::MAX,
};

/// Whether it is an object with so many keys.
pub(crate) fn has_keys(value: &Value, count: usize) -> bool
    ensures { result ≡ has_keys count (view value.now) }
{
    match value.as_object() {
        Some(members) => members.len() == count,
        None => false,
    }
}

/// The value at the key of an object.
pub(crate) fn at<'v>(value: &'v Value, key: &str) -> Option<&'v Value>
    ensures { option_map (λ it. view it.now) result ≡ get key.now (view value.now) }
{
    value.get(key)
}

/// Whether it is an object with one key, for evidence.
fn is_evidence(value: &Value) -> bool
    ensures { result ≡ is_evidence any_limits (view value.now) }
{
    if !has_keys(value, 1) {
        return false;
    }
    at(value, "visible").is_some_and(|it| is_choice(it, ANY))
        || at(value, "further").is_some_and(|it| is_further(it, ANY))
        || at(value, "signs").is_some_and(|it| are_signs(it, ANY))
}

fn is_unsigned(value: &Value) -> bool
    ensures { result ≡ is_number any_limits (view value.now) }
{
    u8::is(value, ANY)
}

fn is_null_or_number(value: &Value) -> bool
    ensures { result ≡ is_null_or (is_number any_limits) (view value.now) }
{
    value.is_null() || is_unsigned(value)
}

fn is_least(value: &Value) -> bool
    ensures { result ≡ is_least any_limits (view value.now) }
{
    value.is_null() || is_evidence(value)
}

fn is_most(value: &Value) -> bool
    ensures { result ≡ is_most any_limits (view value.now) }
{
    value.is_null() || is_array::<Turn>(value, ANY)
}

/// Whether it has the shape of a certificate.
pub(crate) fn has_shape(value: &Value) -> bool
    ensures { result ≡ has_shape (view value.now) }
{
    has_keys(value, 6)
        && at(value, "at_least").is_some_and(is_null_or_number)
        && at(value, "at_most").is_some_and(is_null_or_number)
        && at(value, "least").is_some_and(is_least)
        && at(value, "most").is_some_and(is_most)
        && at(value, "type").is_some_and(Value::is_string)
        && at(value, "version").is_some_and(is_unsigned)
}

/// Whether its version is that of certificates of numbers without reads.
pub(crate) fn has_version(value: &Value) -> bool
    ensures { result ≡ has_version (view value.now) }
{
    match at(value, "version") {
        Some(version) => version.as_u64() == Some(4),
        None => false,
    }
}
