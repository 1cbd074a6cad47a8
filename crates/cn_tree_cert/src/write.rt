//! From a certificate of a plan tree to its text.
ghost use Rattle.std.specs.Prelude.{◌≡◌, IfOk, string_bytes};
ghost use Rattle.serde_json.specs.View.{view};
ghost use Rattle.cn_tree_cert.specs.TreeText.{tree_certificate_data, tree_certificate_text};

use crate::certificate::TreeCertificate;
use crate::part::array_of;
use serde_json::{Value, json};
use std::alloc::{AllocError, Global};

/// The version of certificates of plan trees.
const VERSION: u8 = 5;

fn certificate_value(alloc: Global, certificate: &TreeCertificate) -> Result<Value, AllocError>
    ensures { IfOk result (λ v. view v ≡ tree_certificate_data certificate.now) }
{
    let nodes = array_of(alloc, certificate.nodes.as_slice())?;
    json!(in alloc; {
        "nodes": nodes,
        "processes": certificate.processes,
        "steps": certificate.steps,
        "type": certificate.type_name.as_str(),
        "version": VERSION,
    })
}

/// The text of a certificate of a plan tree, with no line feed at its end.
///
/// It is compact JSON, with the keys of the object in the order of their bytes, in version 5.
///
/// # Errors
///
/// `AllocError` if memory runs out.
pub fn write_tree_certificate(
    alloc: Global,
    certificate: &TreeCertificate,
) -> Result<String, AllocError>
    // promise: text-of-a-tree-certificate (tree_certificate_text)
    ensures { IfOk result (λ text. string_bytes text ≡ tree_certificate_text certificate.now) }
{
    certificate_value(alloc, certificate)?.to_string(alloc)
}
