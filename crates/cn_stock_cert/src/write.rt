//! From a certificate by stocks to its text.
ghost use Rattle.std.specs.Prelude.{◌≡◌, IfOk, option_map, string_bytes};
ghost use Rattle.serde_json.specs.View.{view};
ghost use Rattle.cn_stock_cert.specs.StockText.{lasting_data, least_data, most_data, stock_data, stock_text, teams_data};

use crate::certificate::{LastingSets, StockCertificate, StockClaim, TeamChoice};
use crate::part::array_of;
use cn_joins::Join;
use serde_json::{Value, json};
use std::alloc::{AllocError, Global};

/// The version of certificates by stocks.
const VERSION: u8 = 3;

fn choice_value(alloc: Global, choice: &TeamChoice) -> Result<Value, AllocError>
    ensures { IfOk result (λ v. view v ≡ teams_data choice.now) }
{
    let a = array_of(alloc, choice.a.as_slice())?;
    let b = array_of(alloc, choice.b.as_slice())?;
    json!(in alloc; [choice.state.0, a, b])
}

fn lasting_value(alloc: Global, sets: &LastingSets) -> Result<Value, AllocError>
    ensures { IfOk result (λ v. view v ≡ lasting_data sets.now) }
{
    let alone = array_of(alloc, sets.alone.as_slice())?;
    let behind = array_of(alloc, sets.behind.as_slice())?;
    let first = array_of(alloc, sets.first.as_slice())?;
    json!(in alloc; [sets.start.0, sets.many.0, sets.single.0, alone, behind, first])
}

fn least_value(alloc: Global, least: &StockClaim) -> Result<Value, AllocError>
    ensures { IfOk result (λ v. view v ≡ least_data least.now) }
{
    match least {
        StockClaim::Alone => Ok(Value::Null),
        StockClaim::Witness(choice) => {
            let value = choice_value(alloc, choice)?;
            json!(in alloc; {"witness": value})
        }
        StockClaim::Lasting(sets) => {
            let value = lasting_value(alloc, sets)?;
            json!(in alloc; {"lasting": value})
        }
    }
}

fn most_value(alloc: Global, most: &Option<Vec<Join>>) -> Result<Value, AllocError>
    ensures { IfOk result (λ v. view v
        ≡ most_data (option_map (λ joins. joins.items) most.now)) }
{
    match most {
        Some(joins) => array_of(alloc, joins.as_slice()),
        None => Ok(Value::Null),
    }
}

fn certificate_value(alloc: Global, certificate: &StockCertificate) -> Result<Value, AllocError>
    ensures { IfOk result (λ v. view v ≡ stock_data certificate.now) }
{
    let least = least_value(alloc, &certificate.least)?;
    let most = most_value(alloc, &certificate.most)?;
    json!(in alloc; {
        "at_least": certificate.at_least,
        "at_most": certificate.at_most,
        "least": least,
        "most": most,
        "type": certificate.type_name.as_str(),
        "version": VERSION,
    })
}

/// The text of a certificate by stocks, with no line feed at its end.
///
/// It is compact JSON, with the keys of the object in the order of their bytes, in version 3.
///
/// # Errors
///
/// `AllocError` if memory runs out.
pub fn write_stock_certificate(
    alloc: Global,
    certificate: &StockCertificate,
) -> Result<String, AllocError>
    // promise: text-by-stocks (stock_text)
    ensures { IfOk result (λ text. string_bytes text ≡ stock_text certificate.now) }
{
    certificate_value(alloc, certificate)?.to_string(alloc)
}
