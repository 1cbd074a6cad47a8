//! Parts of a certificate, read from JSON values.
ghost use Rattle.std.specs.Prelude.{◌≡◌, IfOk, IfSome, is_some};
ghost use Rattle.serde_json.specs.View.{view};
ghost use Rattle.cn_cert.specs.CertificateText.{number_data};
ghost use Rattle.cn_tree_cert.specs.Kinds.{greatest, is_array, is_number, is_sight};
ghost use Rattle.cn_tree_cert.specs.TreeText.{each_data, sight_data};

use crate::certificate::TreeNode;
use crate::kinds::{Kind, items};
use crate::part::Part;
use cn_meetings::Sight;
use cn_table::{Operation, State};
use serde_json::Value;
use std::alloc::{AllocError, Global};

/// A part that comes several times in an array, and that is read.
pub(crate) trait Reading: Part + Kind + Sized {
    ghost use Rattle.std.specs.Prelude.{◌≡◌, IfOk, IfSome, is_some};
    ghost use Rattle.serde_json.specs.View.{view};
    ghost use Rattle.cn_tree_cert.specs.Kinds.{greatest};

    /// Reads the part; none if the value is of another kind, or has too great a number.
    fn read(alloc: Global, value: &Value) -> Result<Option<Self>, AllocError>
        ensures told { IfOk result (λ o. is_some o ≡ Self.kind greatest (view value.now)) }
        ensures same { IfOk result (λ o. IfSome o (λ part. view value.now ≡ Self.json part)) };
}

/// Reads an array of parts.
pub(crate) fn read_array<T: Reading>(
    alloc: Global,
    value: &Value,
) -> Result<Option<Vec<T>>, AllocError>
    ensures told { IfOk result (λ o. is_some o ≡ is_array (T.kind greatest) (view value.now)) }
    ensures same { IfOk result (λ o. IfSome o (λ parts. view value.now
        ≡ each_data T.json parts.items)) }
{
    let Some(list) = items(value) else {
        return Ok(None);
    };
    let mut parts = Vec::new(alloc);
    for item in list {
        let Some(part) = T::read(alloc, item)? else {
            return Ok(None);
        };
        parts.push(part)?;
    }
    Ok(Some(parts))
}

/// Reads a number.
pub(crate) fn read_number(value: &Value) -> Option<u8>
    ensures told { is_some result ≡ is_number greatest (view value.now) }
    ensures same { IfSome result (λ n. view value.now ≡ number_data n) }
{
    match value.as_u64() {
        Some(n) if n <= 255 => Some(n as u8),
        _ => None,
    }
}

/// Reads what the processes of a node see of the state.
fn read_sight(value: &Value) -> Option<Sight>
    ensures told { is_some result ≡ is_sight greatest (view value.now) }
    ensures same { IfSome result (λ sight. view value.now ≡ sight_data sight) }
{
    match value.as_bool() {
        Some(true) => Some(Sight::State),
        Some(false) => Some(Sight::Nothing),
        None => match read_number(value) {
            Some(n) => Some(Sight::Response(Operation(n))),
            None => None,
        },
    }
}

impl Reading for u8 {
    fn read(_alloc: Global, value: &Value) -> Result<Option<u8>, AllocError> {
        Ok(read_number(value))
    }
}

impl Reading for Operation {
    fn read(_alloc: Global, value: &Value) -> Result<Option<Operation>, AllocError> {
        match read_number(value) {
            Some(n) => Ok(Some(Operation(n))),
            None => Ok(None),
        }
    }
}

impl Reading for TreeNode {
    fn read(alloc: Global, value: &Value) -> Result<Option<TreeNode>, AllocError> {
        let Some([start, sight, operations, teams]) = items(value) else {
            return Ok(None);
        };
        let (Some(start), Some(sight)) = (read_number(start), read_sight(sight)) else {
            return Ok(None);
        };
        let Some(operations) = read_array(alloc, operations)? else {
            return Ok(None);
        };
        let Some(teams) = read_array(alloc, teams)? else {
            return Ok(None);
        };
        let start = State(start);
        Ok(Some(TreeNode {
            start,
            sight,
            operations,
            teams,
        }))
    }
}
