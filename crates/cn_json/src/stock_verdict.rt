//! The verdict on a certificate by stocks as JSON.
ghost use Rattle.std.specs.Prelude.{◌≡◌, IfOk, codes, string_bytes};
ghost use Rattle.serde_json.specs.Written.{compact_text};
ghost use Rattle.cn_json.specs.StockVerdict.{fault_at_key, fault_of_join, stock_fault_data};
ghost use Rattle.cn_json.specs.Tokens.{Appends, value_tokens};
ghost use Rattle.cn_json.specs.Verdict.{refused_data};

use crate::json_text::JsonText;
use crate::json_text::Primitive::{Boolean, Byte, Number, Text};
use crate::verdict::write_named_fault;
use cn_stock_check::StockCheckFault;
use std::alloc::{AllocError, Global};

/// Writes a fault of the join at a place.
fn write_fault_of_join(
    out: &mut JsonText,
    place: u64,
    name: &str,
    number: u8,
) -> Result<(), AllocError>
    ensures { Appends result out.old out.new
        (value_tokens (fault_of_join place name.now number)) }
{
    out.object(&[
        ("join", Number(place)),
        ("name", Text(name)),
        ("number", Byte(number)),
    ])
}

/// Writes a fault of an operation.
fn write_fault_of_operation(
    out: &mut JsonText,
    name: &str,
    number: u8,
    operation: u8,
) -> Result<(), AllocError>
    ensures { Appends result out.old out.new
        (value_tokens (fault_at_key (codes "operation") name.now number operation)) }
{
    out.object(&[
        ("name", Text(name)),
        ("number", Byte(number)),
        ("operation", Byte(operation)),
    ])
}

/// Writes a fault of a state.
fn write_fault_of_state(
    out: &mut JsonText,
    name: &str,
    number: u8,
    state: u8,
) -> Result<(), AllocError>
    ensures { Appends result out.old out.new
        (value_tokens (fault_at_key (codes "state") name.now number state)) }
{
    out.object(&[
        ("name", Text(name)),
        ("number", Byte(number)),
        ("state", Byte(state)),
    ])
}

fn write_stock_fault(out: &mut JsonText, fault: StockCheckFault) -> Result<(), AllocError>
    ensures { Appends result out.old out.new (value_tokens (stock_fault_data fault)) }
{
    let (name, number) = (fault.name(), fault.number());
    match fault {
        StockCheckFault::NotAJoin(place) => write_fault_of_join(out, place, name, number),
        StockCheckFault::NoticesItself(operation) => {
            write_fault_of_operation(out, name, number, operation)
        }
        StockCheckFault::NotConnected(state) => write_fault_of_state(out, name, number, state),
        _ => write_named_fault(out, name, number),
    }
}

/// Writes that a certificate has this fault.
fn write_stock_refusal(out: &mut JsonText, fault: StockCheckFault) -> Result<(), AllocError>
    ensures { Appends result out.old out.new
        (value_tokens (refused_data (stock_fault_data fault))) }
{
    out.begin_object()?;
    out.key("fault")?;
    write_stock_fault(out, fault)?;
    out.last_members(&[("ok", Boolean(false))])
}

/// The answer for a certificate by stocks with this fault, in the form of
/// [`verdict_json`](crate::verdict_json): `{"fault":{..},"ok":false}`. A fault has its `name` and
/// its `number`. If it is one of a join, `join` is the join's place, from 0; so are `operation` and
/// `state` the numbers of an operation and of a state.
///
/// # Errors
///
/// `AllocError` if memory runs out.
pub fn stock_refusal_json(alloc: Global, fault: StockCheckFault) -> Result<String, AllocError>
    // promise: answers-as-json (refused_data, stock_fault_data)
    // promise: verdict-by-check-by-stocks
    ensures { IfOk result (λ text. string_bytes text
        ≡ compact_text (refused_data (stock_fault_data fault))) }
{
    let mut out = JsonText::new(alloc);
    write_stock_refusal(&mut out, fault)?;
    Ok(out.finish())
}
