//! Whether a JSON value has the shape of a certificate.
ghost use Rattle.std.specs.Prelude.{◌≡◌, option_map};
ghost use Rattle.serde_json.specs.Find.{get};
ghost use Rattle.serde_json.specs.View.{view};
ghost use Rattle.cn_tree_cert.specs.Kinds.{any_number, has_keys, has_shape, has_version, is_array, is_node, is_number};

use crate::certificate::TreeNode;
use crate::kinds::{Kind, is_array};
use serde_json::Value;

/// Whether it is an object with so many keys.
pub(crate) fn has_keys(value: &Value, count: usize) -> bool
    ensures { result ≡ has_keys count (view value.now) }
{
    match value.as_object() {
        Some(members) => members.len() == count,
        None => false,
    }
}

/// The value at the key of an object.
pub(crate) fn at<'v>(value: &'v Value, key: &str) -> Option<&'v Value>
    ensures { option_map (λ it. view it.now) result ≡ get key.now (view value.now) }
{
    value.get(key)
}

fn is_unsigned(value: &Value) -> bool
    ensures { result ≡ is_number any_number (view value.now) }
{
    u8::is(value, u64::MAX)
}

fn are_nodes(value: &Value) -> bool
    ensures { result ≡ is_array (is_node any_number) (view value.now) }
{
    is_array::<TreeNode>(value, u64::MAX)
}

/// Whether it has the shape of a certificate.
pub(crate) fn has_shape(value: &Value) -> bool
    ensures { result ≡ has_shape (view value.now) }
{
    has_keys(value, 5)
        && at(value, "nodes").is_some_and(are_nodes)
        && at(value, "processes").is_some_and(is_unsigned)
        && at(value, "steps").is_some_and(is_unsigned)
        && at(value, "type").is_some_and(Value::is_string)
        && at(value, "version").is_some_and(is_unsigned)
}

/// Whether its version is that of certificates of plan trees.
pub(crate) fn has_version(value: &Value) -> bool
    ensures { result ≡ has_version (view value.now) }
{
    match at(value, "version") {
        Some(version) => version.as_u64() == Some(5),
        None => false,
    }
}
