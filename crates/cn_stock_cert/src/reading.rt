//! Parts of a certificate, read from JSON values.
ghost use Rattle.std.specs.Prelude.{◌≡◌, IfOk, IfSome, is_some};
ghost use Rattle.serde_json.specs.View.{view};
ghost use Rattle.cn_cert.specs.CertificateText.{number_data};
ghost use Rattle.cn_stock_cert.specs.Kinds.{are_lasting_parts, are_team_parts, greatest, is_array, is_number, is_row};
ghost use Rattle.cn_stock_cert.specs.StockText.{each_data, lasting_data, teams_data};

use crate::certificate::{LastingSets, TeamChoice};
use crate::kinds::{Kind, items};
use crate::part::Part;
use cn_joins::{Join, PlacedWord};
use cn_table::{Operation, State};
use serde_json::Value;
use std::alloc::{AllocError, Global};

/// A part that comes several times in an array, and that is read.
pub(crate) trait Reading: Part + Kind + Sized {
    ghost use Rattle.std.specs.Prelude.{◌≡◌, IfOk, IfSome, is_some};
    ghost use Rattle.serde_json.specs.View.{view};
    ghost use Rattle.cn_stock_cert.specs.Kinds.{greatest};

    /// Reads the part; none if the value is of another kind, or has too great a number.
    fn read(alloc: Global, value: &Value) -> Result<Option<Self>, AllocError>
        ensures told { IfOk result (λ o. is_some o ≡ Self.kind greatest (view value.now)) }
        ensures same { IfOk result (λ o. IfSome o (λ part. view value.now ≡ Self.json part)) };
}

/// Reads an array of parts.
pub(crate) fn read_array<T: Reading>(
    alloc: Global,
    value: &Value,
) -> Result<Option<Vec<T>>, AllocError>
    ensures told { IfOk result (λ o. is_some o ≡ is_array (T.kind greatest) (view value.now)) }
    ensures same { IfOk result (λ o. IfSome o (λ parts. view value.now
        ≡ each_data T.json parts.items)) }
{
    let Some(list) = items(value) else {
        return Ok(None);
    };
    let mut parts = Vec::new(alloc);
    for item in list {
        let Some(part) = T::read(alloc, item)? else {
            return Ok(None);
        };
        parts.push(part)?;
    }
    Ok(Some(parts))
}

/// Reads a number.
pub(crate) fn read_number(value: &Value) -> Option<u8>
    ensures told { is_some result ≡ is_number greatest (view value.now) }
    ensures same { IfSome result (λ n. view value.now ≡ number_data n) }
{
    match value.as_u64() {
        Some(n) if n <= 255 => Some(n as u8),
        _ => None,
    }
}

impl Reading for u8 {
    fn read(_alloc: Global, value: &Value) -> Result<Option<u8>, AllocError> {
        Ok(read_number(value))
    }
}

pub(crate) fn read_choice(alloc: Global, value: &Value) -> Result<Option<TeamChoice>, AllocError>
    ensures told { IfOk result (λ o. is_some o
        ≡ is_row (are_team_parts greatest) (view value.now)) }
    ensures same { IfOk result (λ o. IfSome o (λ choice. view value.now ≡ teams_data choice)) }
{
    let Some([state, a, b]) = items(value) else {
        return Ok(None);
    };
    let Some(state) = read_number(state) else {
        return Ok(None);
    };
    let Some(a) = read_array(alloc, a)? else {
        return Ok(None);
    };
    let Some(b) = read_array(alloc, b)? else {
        return Ok(None);
    };
    let state = State(state);
    Ok(Some(TeamChoice { state, a, b }))
}

pub(crate) fn read_lasting(alloc: Global, value: &Value) -> Result<Option<LastingSets>, AllocError>
    ensures told { IfOk result (λ o. is_some o
        ≡ is_row (are_lasting_parts greatest) (view value.now)) }
    ensures same { IfOk result (λ o. IfSome o (λ sets. view value.now ≡ lasting_data sets)) }
{
    let Some([state, many, single, alone, behind, first]) = items(value) else {
        return Ok(None);
    };
    let (Some(state), Some(many), Some(single)) = (
        read_number(state),
        read_number(many),
        read_number(single),
    ) else {
        return Ok(None);
    };
    let Some(alone) = read_array(alloc, alone)? else {
        return Ok(None);
    };
    let Some(behind) = read_array(alloc, behind)? else {
        return Ok(None);
    };
    let Some(first) = read_array(alloc, first)? else {
        return Ok(None);
    };
    Ok(Some(LastingSets {
        start: State(state),
        many: Operation(many),
        single: Operation(single),
        alone,
        behind,
        first,
    }))
}

impl Reading for Join {
    fn read(alloc: Global, value: &Value) -> Result<Option<Join>, AllocError> {
        let Some([state, first, place, second, other]) = items(value) else {
            return Ok(None);
        };
        let (Some(state), Some(place), Some(other)) = (
            read_number(state),
            read_number(place),
            read_number(other),
        ) else {
            return Ok(None);
        };
        let Some(first) = read_array(alloc, first)? else {
            return Ok(None);
        };
        let Some(second) = read_array(alloc, second)? else {
            return Ok(None);
        };
        let start = State(state);
        let first = PlacedWord { word: first, place };
        let second = PlacedWord {
            word: second,
            place: other,
        };
        Ok(Some(Join {
            start,
            first,
            second,
        }))
    }
}
