//! From bytes to a certificate by stocks, or to the first fault that they have.
ghost use Rattle.std.specs.Prelude.{◌≡◌, ◌⊎◌, None, Some, codes, option_map, string_bytes, IfErr, IfOk, IfSome, is_some, true};
ghost use Rattle.serde_json.specs.Data.{Data, string};
ghost use Rattle.serde_json.specs.Find.{get};
ghost use Rattle.serde_json.specs.View.{view};
ghost use Rattle.cn_table.specs.Names.{is_name};
ghost use Rattle.cn_cert.specs.CertificateText.{number_or_null};
ghost use Rattle.cn_cert.specs.Document.{document_of};
ghost use Rattle.cn_stock_cert.specs.Kinds.{greatest, has_at, has_shape, has_version, is_evidence, is_in_range, is_least, is_most, is_null_or, is_number, is_text};
ghost use Rattle.cn_stock_cert.specs.Reading.{AreOf, Spells, SpellsLeast, fault_of};
ghost use Rattle.cn_stock_cert.specs.StockText.{most_data};
ghost use Rattle.cn_stock_cert.specs.declared.fault.StockCertFault.TheVariants.{NotJson, OutOfMemory};

use crate::certificate::{StockCertificate, StockClaim};
use crate::fault::StockCertFault;
use crate::reading::{read_array, read_choice, read_lasting, read_number};
use crate::shape::{at, has_keys, has_shape, has_version};
use cn_joins::Join;
use cn_table::is_name;
use serde_json::Value;
use std::alloc::{AllocError, Global};

/// Reads a bound, which can be null.
fn read_bound(value: &Value) -> Option<Option<u8>>
    ensures told { is_some result ≡ is_null_or (is_number greatest) (view value.now) }
    ensures same { IfSome result (λ bound. view value.now ≡ number_or_null bound) }
{
    if value.is_null() {
        return Some(None);
    }
    match read_number(value) {
        Some(n) => Some(Some(n)),
        None => None,
    }
}

/// Reads the evidence for a lower bound from an object with one key.
fn read_evidence(alloc: Global, value: &Value) -> Result<Option<StockClaim>, AllocError>
    ensures told { IfOk result (λ o. is_some o ≡ is_evidence greatest (view value.now)) }
    ensures same { IfOk result (λ o. IfSome o (SpellsLeast (view value.now))) }
{
    if !has_keys(value, 1) {
        return Ok(None);
    }
    if let Some(choice) = at(value, "witness") {
        if let Some(choice) = read_choice(alloc, choice)? {
            return Ok(Some(StockClaim::Witness(choice)));
        }
    }
    if let Some(sets) = at(value, "lasting") {
        if let Some(sets) = read_lasting(alloc, sets)? {
            return Ok(Some(StockClaim::Lasting(sets)));
        }
    }
    Ok(None)
}

/// Reads what a certificate gives for its lower bound.
fn read_least(alloc: Global, value: &Value) -> Result<Option<StockClaim>, AllocError>
    ensures told { IfOk result (λ o. is_some o ≡ is_least greatest (view value.now)) }
    ensures same { IfOk result (λ o. IfSome o (SpellsLeast (view value.now))) }
{
    if value.is_null() {
        return Ok(Some(StockClaim::Alone));
    }
    read_evidence(alloc, value)
}

/// Reads the joins for an upper bound, or null.
fn read_most(alloc: Global, value: &Value) -> Result<Option<Option<Vec<Join>>>, AllocError>
    ensures told { IfOk result (λ o. is_some o ≡ is_most greatest (view value.now)) }
    ensures same { IfOk result (λ o. IfSome o (λ most. view value.now
        ≡ most_data (option_map (λ joins. joins.items) most))) }
{
    if value.is_null() {
        return Ok(Some(None));
    }
    match read_array(alloc, value)? {
        Some(joins) => Ok(Some(Some(joins))),
        None => Ok(None),
    }
}

/// Reads the bound at the key.
fn read_bound_at(value: &Value, key: &str) -> Option<Option<u8>>
    ensures told { is_some result
        ≡ has_at key.now (is_null_or (is_number greatest)) (view value.now) }
    ensures same { IfSome result (λ bound. get key.now (view value.now)
        ≡ Some (number_or_null bound)) }
{
    read_bound(at(value, key)?)
}

/// Reads the name of a type.
fn read_name(alloc: Global, value: &Value) -> Result<Option<String>, AllocError>
    ensures told { IfOk result (λ o. is_some o ≡ is_text is_name (view value.now)) }
    ensures same { IfOk result (λ o. IfSome o (λ name. view value.now
        ≡ string (string_bytes name))) }
{
    match value.as_str() {
        Some(name) if is_name(name) => Ok(Some(String::from_str(alloc, name)?)),
        _ => Ok(None),
    }
}

/// Reads what is given for the lower bound at its key.
fn read_least_at(alloc: Global, value: &Value) -> Result<Option<StockClaim>, AllocError>
    ensures told { IfOk result (λ o. is_some o
        ≡ has_at (codes "least") (is_least greatest) (view value.now)) }
    ensures same { IfOk result (λ o. IfSome o (λ least. (e : Data)
        × (get (codes "least") (view value.now) ≡ Some e) × SpellsLeast e least)) }
{
    match at(value, "least") {
        Some(least) => read_least(alloc, least),
        None => Ok(None),
    }
}

/// Reads the joins for the upper bound at its key.
fn read_most_at(alloc: Global, value: &Value) -> Result<Option<Option<Vec<Join>>>, AllocError>
    ensures told { IfOk result (λ o. is_some o
        ≡ has_at (codes "most") (is_most greatest) (view value.now)) }
    ensures same { IfOk result (λ o. IfSome o (λ most. get (codes "most") (view value.now)
        ≡ Some (most_data (option_map (λ joins. joins.items) most)))) }
{
    match at(value, "most") {
        Some(most) => read_most(alloc, most),
        None => Ok(None),
    }
}

/// Reads the name of the type at its key.
fn read_name_at(alloc: Global, value: &Value) -> Result<Option<String>, AllocError>
    ensures told { IfOk result (λ o. is_some o
        ≡ has_at (codes "type") (is_text is_name) (view value.now)) }
    ensures same { IfOk result (λ o. IfSome o (λ name. get (codes "type") (view value.now)
        ≡ Some (string (string_bytes name)))) }
{
    match at(value, "type") {
        Some(name) => read_name(alloc, name),
        None => Ok(None),
    }
}

/// Reads the certificate of a JSON value of the right version; none if a part is of another kind,
/// or out of its range.
fn read_value(alloc: Global, value: &Value) -> Result<Option<StockCertificate>, AllocError>
    requires { has_version (view value.now) ≡ true }
    ensures told { IfOk result (λ o. is_some o ≡ is_in_range (view value.now)) }
    ensures same { IfOk result (λ o. IfSome o (Spells (view value.now))) }
{
    if !has_keys(value, 6) {
        return Ok(None);
    }
    let Some(at_least) = read_bound_at(value, "at_least") else {
        return Ok(None);
    };
    let Some(at_most) = read_bound_at(value, "at_most") else {
        return Ok(None);
    };
    let Some(least) = read_least_at(alloc, value)? else {
        return Ok(None);
    };
    let Some(most) = read_most_at(alloc, value)? else {
        return Ok(None);
    };
    let Some(type_name) = read_name_at(alloc, value)? else {
        return Ok(None);
    };
    Ok(Some(StockCertificate {
        at_least,
        at_most,
        least,
        most,
        type_name,
    }))
}

/// The JSON value that the bytes spell.
fn read_document(alloc: Global, bytes: &[u8]) -> Result<Value, StockCertFault>
    ensures ok { IfOk result (λ v. document_of bytes.now ≡ Some (view v)) }
    ensures err { IfErr result (λ e. (e ≡ OutOfMemory)
        ⊎ ((e ≡ NotJson) × (document_of bytes.now ≡ None))) }
{
    let Ok(text) = str::from_utf8(bytes) else {
        return Err(StockCertFault::NotJson);
    };
    match Value::from_str(alloc, text) {
        Ok(value) => Ok(value),
        Err(e) if e.is_memory() => Err(StockCertFault::OutOfMemory),
        Err(_) => Err(StockCertFault::NotJson),
    }
}

/// Reads a certificate by stocks from the bytes of a JSON text.
///
/// The text is an object with the keys `at_least`, `at_most`, `least`, `most`, `type` and `version`, and
/// no other. White space and the order of the keys do not matter. Of two equal keys the last one
/// counts.
///
/// # Errors
///
/// The first of the faults 1 to 4 of [`StockCertFault`] that the bytes have, or `OutOfMemory`.
pub fn read_stock_certificate(
    alloc: Global,
    bytes: &[u8],
) -> Result<StockCertificate, StockCertFault>
    // promise: text-by-stocks (AreOf)
    ensures certificate { IfOk result (AreOf bytes.now) }
    // promise: text-by-stocks (fault_of)
    ensures none { IfOk result (λ c. fault_of bytes.now ≡ None) }
    // promise: text-by-stocks (fault_of)
    ensures fault { IfErr result (λ e. (e ≡ OutOfMemory) ⊎ (fault_of bytes.now ≡ Some e)) }
{
    let value = read_document(alloc, bytes)?;
    if !has_shape(&value) {
        return Err(StockCertFault::WrongShape);
    }
    if !has_version(&value) {
        return Err(StockCertFault::Version);
    }
    match read_value(alloc, &value)? {
        Some(certificate) => Ok(certificate),
        None => Err(StockCertFault::Range),
    }
}
