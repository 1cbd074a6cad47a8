//! Numbers in a text.
ghost use Rattle.std.specs.Prelude.{codes, ◌≡◌, ◌==◌, ◌<◌, length, option_map, slice_index, IfSome, IsTrue, Some, true, false};
ghost use Rattle.serde_json.specs.Data.{unsigned};
ghost use Rattle.serde_json.specs.Find.{as_u64};
ghost use Rattle.serde_json.specs.Read.{number_of, number_from, float_of};
ghost use Rattle.cn_cert.specs.Reads.{Reads};
ghost use Rattle.cn_table.specs.Texts.{code_of};

use crate::fault::CertFault;
use fast_float::Numeral;
use serde_json::Number;

/// Reads a number that is no unsigned integer: JSON allows it only if a float comes near it.
fn float(is_negative: bool, numeral: &Numeral<'_>) -> Result<Option<u64>, CertFault>
    ensures { Reads CertFault.NotJson (λ o. o) result
        (option_map as_u64 (float_of is_negative numeral.now)) }
{
    match Number::from_f64(numeral.to_float::<f64>(is_negative)) {
        Some(_) => Ok(None),
        None => Err(CertFault::NotJson),
    }
}

fn unsigned(numeral: &Numeral<'_>) -> Result<Option<u64>, CertFault>
    ensures { Reads CertFault.NotJson (λ o. o) result
        (option_map as_u64 (number_from false numeral.now)) }
{
    match numeral.to_u64() {
        Some(n) => Ok(Some(n)),
        None => float(false, numeral),
    }
}

fn negative(numeral: &Numeral<'_>) -> Result<Option<u64>, CertFault>
    ensures { Reads CertFault.NotJson (λ o. o) result
        (option_map as_u64 (number_from true numeral.now)) }
{
    if let Some(n) = numeral.to_i64(true) {
        if n < 0 {
            return Ok(None);
        }
    }
    float(true, numeral)
}

fn has_minus(bytes: &[u8]) -> bool
    ensures value { result ≡ (slice_index bytes.now 0 == code_of (codes "-")) }
    ensures len { IsTrue result → 0 < length bytes.now }
{
    !bytes.is_empty() && bytes[0] == b'-'
}

/// The number of a text of one digit, which most are.
#[inline(always)]
fn digit(bytes: &[u8]) -> Option<u64>
    ensures { IfSome result (λ n. number_of bytes.now ≡ Some (unsigned n)) }
{
    if bytes.len() == 1 && b'0' <= bytes[0] && bytes[0] <= b'9' {
        Some((bytes[0] - b'0') as u64)
    } else {
        None
    }
}

fn any(bytes: &[u8]) -> Result<Option<u64>, CertFault>
    ensures { Reads CertFault.NotJson (λ o. o) result (option_map as_u64 (number_of bytes.now)) }
{
    if has_minus(bytes) {
        negative(&Numeral::scan(&bytes[1..]))
    } else {
        unsigned(&Numeral::scan(bytes))
    }
}

/// Reads an unsigned integer; none if the number is another one.
#[inline(always)]
pub(crate) fn natural(text: &str) -> Result<Option<u64>, CertFault>
    ensures { Reads CertFault.NotJson (λ o. o) result (option_map as_u64 (number_of text.now)) }
{
    let bytes = text.as_bytes();
    match digit(bytes) {
        Some(n) => Ok(Some(n)),
        None => any(bytes),
    }
}
