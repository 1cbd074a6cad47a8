//! The verdict on a certificate as JSON.
ghost use Rattle.std.specs.Prelude.{◌≡◌, IfOk, string_bytes};
ghost use Rattle.serde_json.specs.Written.{compact_text};
ghost use Rattle.cn_json.specs.Tokens.{Appends, value_tokens};
ghost use Rattle.cn_json.specs.Verdict.{accepted_data, fault_data, fault_of_entry, fault_of_process, named_fault, refused_data, unread_data, verdict_data};

use crate::json_text::JsonText;
use crate::json_text::Primitive::{Boolean, Byte, Number, Text};
use cn_cert::CertFault;
use cn_check::CheckFault;
use std::alloc::{AllocError, Global};

pub(crate) fn write_named_fault(
    out: &mut JsonText,
    name: &str,
    number: u8,
) -> Result<(), AllocError>
    ensures { Appends result out.old out.new (value_tokens (named_fault name.now number)) }
{
    out.object(&[("name", Text(name)), ("number", Byte(number))])
}

/// Writes a fault of the entry at a place.
fn write_fault_of_entry(
    out: &mut JsonText,
    place: u64,
    name: &str,
    number: u8,
) -> Result<(), AllocError>
    ensures { Appends result out.old out.new
        (value_tokens (fault_of_entry place name.now number)) }
{
    out.object(&[
        ("entry", Number(place)),
        ("name", Text(name)),
        ("number", Byte(number)),
    ])
}

/// Writes a fault of a process.
fn write_fault_of_process(
    out: &mut JsonText,
    name: &str,
    number: u8,
    process: u8,
) -> Result<(), AllocError>
    ensures { Appends result out.old out.new
        (value_tokens (fault_of_process name.now number process)) }
{
    out.object(&[
        ("name", Text(name)),
        ("number", Byte(number)),
        ("process", Byte(process)),
    ])
}

fn write_fault(out: &mut JsonText, fault: CheckFault) -> Result<(), AllocError>
    ensures { Appends result out.old out.new (value_tokens (fault_data fault)) }
{
    let (name, number) = (fault.name(), fault.number());
    match fault {
        CheckFault::WitnessMeets(process) => write_fault_of_process(out, name, number, process),
        CheckFault::NotNext(place) | CheckFault::NotACollision(place) => {
            write_fault_of_entry(out, place, name, number)
        }
        CheckFault::OtherType | CheckFault::BadNumber | CheckFault::WitnessShape => {
            write_named_fault(out, name, number)
        }
        CheckFault::Unexpected | CheckFault::TooFew => write_named_fault(out, name, number),
    }
}

fn write_accepted(out: &mut JsonText) -> Result<(), AllocError>
    ensures { Appends result out.old out.new (value_tokens accepted_data) }
{
    out.object(&[("ok", Boolean(true))])
}

fn write_refused(out: &mut JsonText, fault: CheckFault) -> Result<(), AllocError>
    ensures { Appends result out.old out.new (value_tokens (refused_data (fault_data fault))) }
{
    out.begin_object()?;
    out.key("fault")?;
    write_fault(out, fault)?;
    out.last_members(&[("ok", Boolean(false))])
}

fn write_verdict(out: &mut JsonText, verdict: Result<(), CheckFault>) -> Result<(), AllocError>
    ensures { Appends result out.old out.new (value_tokens (verdict_data verdict)) }
{
    match verdict {
        Ok(()) => write_accepted(out),
        Err(fault) => write_refused(out, fault),
    }
}

/// Writes that a certificate has a fault of this name and this number.
fn write_named_refusal(out: &mut JsonText, name: &str, number: u8) -> Result<(), AllocError>
    ensures { Appends result out.old out.new
        (value_tokens (refused_data (named_fault name.now number))) }
{
    out.begin_object()?;
    out.key("fault")?;
    write_named_fault(out, name, number)?;
    out.last_members(&[("ok", Boolean(false))])
}

fn write_unread(out: &mut JsonText, fault: CertFault) -> Result<(), AllocError>
    ensures { Appends result out.old out.new (value_tokens (unread_data fault)) }
{
    write_named_refusal(out, fault.name(), fault.number())
}

/// The verdict of [`check`](cn_check::check) on a certificate, as one compact JSON object:
/// `{"ok":true}`, or `{"fault":{..},"ok":false}`. A fault has its `name` and its `number`. If it is
/// one of an entry, `entry` is the entry's place, from 0; if it is one of a process, `process` is
/// the number of the process.
///
/// # Errors
///
/// `AllocError` if memory runs out.
pub fn verdict_json(alloc: Global, verdict: Result<(), CheckFault>) -> Result<String, AllocError>
    // promise: answers-as-json (verdict_data: fault_data)
    // promise: verdict-by-check
    ensures { IfOk result (λ text. string_bytes text ≡ compact_text (verdict_data verdict)) }
{
    let mut out = JsonText::new(alloc);
    write_verdict(&mut out, verdict)?;
    Ok(out.finish())
}

/// The answer for a certificate that could not be read, in the form of [`verdict_json`]:
/// `{"fault":{"name":..,"number":..},"ok":false}`. No fault of reading has the name of one of the
/// check.
///
/// # Errors
///
/// `AllocError` if memory runs out.
pub fn unread_json(alloc: Global, fault: CertFault) -> Result<String, AllocError>
    // promise: answers-as-json (unread_data: named_fault)
    // promise: verdict-by-check
    ensures { IfOk result (λ text. string_bytes text ≡ compact_text (unread_data fault)) }
{
    let mut out = JsonText::new(alloc);
    write_unread(&mut out, fault)?;
    Ok(out.finish())
}

/// The answer for a certificate with a fault of this name and this number, in the form of
/// [`verdict_json`]: `{"fault":{"name":..,"number":..},"ok":false}`.
///
/// # Errors
///
/// `AllocError` if memory runs out.
pub fn refusal_json(alloc: Global, name: &str, number: u8) -> Result<String, AllocError>
    // promise: answers-as-json (refused_data, named_fault)
    // promise: verdict-by-check-without-reads
    ensures { IfOk result (λ text. string_bytes text
        ≡ compact_text (refused_data (named_fault name.now number))) }
{
    let mut out = JsonText::new(alloc);
    write_named_refusal(&mut out, name, number)?;
    Ok(out.finish())
}
