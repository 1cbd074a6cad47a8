//! From bytes to a certificate of a plan tree, or to the first fault that they have.
ghost use Rattle.std.specs.Prelude.{◌≡◌, ◌⊎◌, None, Some, codes, string_bytes, IfErr, IfOk, IfSome, is_some, true};
ghost use Rattle.serde_json.specs.Data.{string};
ghost use Rattle.serde_json.specs.Find.{get};
ghost use Rattle.serde_json.specs.View.{view};
ghost use Rattle.cn_table.specs.Names.{is_name};
ghost use Rattle.cn_cert.specs.CertificateText.{number_data};
ghost use Rattle.cn_cert.specs.Document.{document_of};
ghost use Rattle.cn_tree_cert.specs.Kinds.{greatest, has_at, has_shape, has_version, is_array, is_in_range, is_node, is_number, is_text};
ghost use Rattle.cn_tree_cert.specs.Reading.{AreOf, Spells, fault_of};
ghost use Rattle.cn_tree_cert.specs.TreeText.{each_data, node_data};
ghost use Rattle.cn_tree_cert.specs.declared.fault.TreeCertFault.TheVariants.{NotJson, OutOfMemory};

use crate::certificate::{TreeCertificate, TreeNode};
use crate::fault::TreeCertFault;
use crate::reading::{read_array, read_number};
use crate::shape::{at, has_keys, has_shape, has_version};
use cn_table::is_name;
use serde_json::Value;
use std::alloc::{AllocError, Global};

/// Reads the number at the key.
fn read_number_at(value: &Value, key: &str) -> Option<u8>
    ensures told { is_some result ≡ has_at key.now (is_number greatest) (view value.now) }
    ensures same { IfSome result (λ n. get key.now (view value.now) ≡ Some (number_data n)) }
{
    read_number(at(value, key)?)
}

/// Reads the nodes at their key.
fn read_nodes_at(alloc: Global, value: &Value) -> Result<Option<Vec<TreeNode>>, AllocError>
    ensures told { IfOk result (λ o. is_some o
        ≡ has_at (codes "nodes") (is_array (is_node greatest)) (view value.now)) }
    ensures same { IfOk result (λ o. IfSome o (λ nodes. get (codes "nodes") (view value.now)
        ≡ Some (each_data node_data nodes.items))) }
{
    match at(value, "nodes") {
        Some(nodes) => read_array(alloc, nodes),
        None => Ok(None),
    }
}

/// Reads the name of a type.
fn read_name(alloc: Global, value: &Value) -> Result<Option<String>, AllocError>
    ensures told { IfOk result (λ o. is_some o ≡ is_text is_name (view value.now)) }
    ensures same { IfOk result (λ o. IfSome o (λ name. view value.now
        ≡ string (string_bytes name))) }
{
    match value.as_str() {
        Some(name) if is_name(name) => Ok(Some(String::from_str(alloc, name)?)),
        _ => Ok(None),
    }
}

/// Reads the name of the type at its key.
fn read_name_at(alloc: Global, value: &Value) -> Result<Option<String>, AllocError>
    ensures told { IfOk result (λ o. is_some o
        ≡ has_at (codes "type") (is_text is_name) (view value.now)) }
    ensures same { IfOk result (λ o. IfSome o (λ name. get (codes "type") (view value.now)
        ≡ Some (string (string_bytes name)))) }
{
    match at(value, "type") {
        Some(name) => read_name(alloc, name),
        None => Ok(None),
    }
}

/// Reads the certificate of a JSON value of the right version; none if a part is of another kind,
/// or out of its range.
fn read_value(alloc: Global, value: &Value) -> Result<Option<TreeCertificate>, AllocError>
    requires { has_version (view value.now) ≡ true }
    ensures told { IfOk result (λ o. is_some o ≡ is_in_range (view value.now)) }
    ensures same { IfOk result (λ o. IfSome o (Spells (view value.now))) }
{
    if !has_keys(value, 5) {
        return Ok(None);
    }
    let Some(processes) = read_number_at(value, "processes") else {
        return Ok(None);
    };
    let Some(steps) = read_number_at(value, "steps") else {
        return Ok(None);
    };
    let Some(nodes) = read_nodes_at(alloc, value)? else {
        return Ok(None);
    };
    let Some(type_name) = read_name_at(alloc, value)? else {
        return Ok(None);
    };
    Ok(Some(TreeCertificate {
        nodes,
        processes,
        steps,
        type_name,
    }))
}

/// The JSON value that the bytes spell.
fn read_document(alloc: Global, bytes: &[u8]) -> Result<Value, TreeCertFault>
    ensures ok { IfOk result (λ v. document_of bytes.now ≡ Some (view v)) }
    ensures err { IfErr result (λ e. (e ≡ OutOfMemory)
        ⊎ ((e ≡ NotJson) × (document_of bytes.now ≡ None))) }
{
    let Ok(text) = str::from_utf8(bytes) else {
        return Err(TreeCertFault::NotJson);
    };
    match Value::from_str(alloc, text) {
        Ok(value) => Ok(value),
        Err(e) if e.is_memory() => Err(TreeCertFault::OutOfMemory),
        Err(_) => Err(TreeCertFault::NotJson),
    }
}

/// Reads a certificate of a plan tree from the bytes of a JSON text.
///
/// The text is an object with the keys `nodes`, `processes`, `steps`, `type` and `version`, and no
/// other. White space and the order of the keys do not matter. Of two equal keys the last one
/// counts.
///
/// # Errors
///
/// The first of the faults 1 to 4 of [`TreeCertFault`] that the bytes have, or `OutOfMemory`.
pub fn read_tree_certificate(alloc: Global, bytes: &[u8]) -> Result<TreeCertificate, TreeCertFault>
    // promise: text-of-a-tree-certificate (AreOf)
    ensures certificate { IfOk result (AreOf bytes.now) }
    // promise: text-of-a-tree-certificate (fault_of)
    ensures none { IfOk result (λ c. fault_of bytes.now ≡ None) }
    // promise: text-of-a-tree-certificate (fault_of)
    ensures fault { IfErr result (λ e. (e ≡ OutOfMemory) ⊎ (fault_of bytes.now ≡ Some e)) }
{
    let value = read_document(alloc, bytes)?;
    if !has_shape(&value) {
        return Err(TreeCertFault::WrongShape);
    }
    if !has_version(&value) {
        return Err(TreeCertFault::Version);
    }
    match read_value(alloc, &value)? {
        Some(certificate) => Ok(certificate),
        None => Err(TreeCertFault::Range),
    }
}
