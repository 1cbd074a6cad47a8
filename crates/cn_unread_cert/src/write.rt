//! From a certificate of a number without reads to its text.
ghost use Rattle.std.specs.Prelude.{◌≡◌, IfOk, string_bytes};
ghost use Rattle.serde_json.specs.View.{view};
ghost use Rattle.cn_cert.specs.CertificateText.{choice_data};
ghost use Rattle.cn_unread_cert.specs.UnreadText.{further_data, least_data, most_data, signs_data, unread_data, unread_text};

use crate::certificate::{LeastClaim, UnreadCertificate};
use crate::part::array_of;
use cn_choice::Choice;
use cn_further::Further;
use cn_game::Trap;
use cn_signs::SignChoice;
use serde_json::{Value, json};
use std::alloc::{AllocError, Global};

/// The version of certificates of numbers without reads.
const VERSION: u8 = 4;

fn choice_value(alloc: Global, choice: &Choice) -> Result<Value, AllocError>
    ensures { IfOk result (λ v. view v ≡ choice_data choice.now) }
{
    let a = array_of(alloc, choice.a.as_slice())?;
    let b = array_of(alloc, choice.b.as_slice())?;
    json!(in alloc; [choice.state.0, a, b])
}

fn further_value(alloc: Global, further: &Further) -> Result<Value, AllocError>
    ensures { IfOk result (λ v. view v ≡ further_data further.now) }
{
    let a = array_of(alloc, further.choice.a.as_slice())?;
    let b = array_of(alloc, further.choice.b.as_slice())?;
    let follow_ups = array_of(alloc, further.follow_ups.as_slice())?;
    json!(in alloc; [further.choice.state.0, a, b, follow_ups])
}

fn signs_value(alloc: Global, signs: &SignChoice) -> Result<Value, AllocError>
    ensures { IfOk result (λ v. view v ≡ signs_data signs.now) }
{
    let further = array_of(alloc, signs.further.as_slice())?;
    let (state, single, many) = (signs.state.0, signs.single.0, signs.many.0);
    json!(in alloc; [state, single, many, further, signs.side.name()])
}

fn least_value(alloc: Global, least: &LeastClaim) -> Result<Value, AllocError>
    ensures { IfOk result (λ v. view v ≡ least_data least.now) }
{
    match least {
        LeastClaim::Alone => Ok(Value::Null),
        LeastClaim::Visible(choice) => {
            let value = choice_value(alloc, choice)?;
            json!(in alloc; {"visible": value})
        }
        LeastClaim::Further(further) => {
            let value = further_value(alloc, further)?;
            json!(in alloc; {"further": value})
        }
        LeastClaim::Signs(signs) => {
            let value = signs_value(alloc, signs)?;
            json!(in alloc; {"signs": value})
        }
    }
}

fn most_value(alloc: Global, most: &Option<Trap>) -> Result<Value, AllocError>
    ensures { IfOk result (λ v. view v ≡ most_data most.now) }
{
    match most {
        Some(trap) => array_of(alloc, trap.turns.as_slice()),
        None => Ok(Value::Null),
    }
}

fn certificate_value(alloc: Global, certificate: &UnreadCertificate) -> Result<Value, AllocError>
    ensures { IfOk result (λ v. view v ≡ unread_data certificate.now) }
{
    let least = least_value(alloc, &certificate.least)?;
    let most = most_value(alloc, &certificate.most)?;
    json!(in alloc; {
        "at_least": certificate.at_least,
        "at_most": certificate.at_most,
        "least": least,
        "most": most,
        "type": certificate.type_name.as_str(),
        "version": VERSION,
    })
}

/// The text of a certificate of a number without reads, with no line feed at its end.
///
/// It is compact JSON, with the keys of the object in the order of their bytes, in version 4.
///
/// # Errors
///
/// `AllocError` if memory runs out.
pub fn write_unread_certificate(
    alloc: Global,
    certificate: &UnreadCertificate,
) -> Result<String, AllocError>
    // promise: text-without-reads (unread_text)
    ensures { IfOk result (λ text. string_bytes text ≡ unread_text certificate.now) }
{
    certificate_value(alloc, certificate)?.to_string(alloc)
}
