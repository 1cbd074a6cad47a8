//! The verdict on a certificate of a plan tree as JSON.
ghost use Rattle.std.specs.Prelude.{◌≡◌, IfOk, string_bytes};
ghost use Rattle.serde_json.specs.Written.{compact_text};
ghost use Rattle.cn_json.specs.Tokens.{Appends, value_tokens};
ghost use Rattle.cn_json.specs.TreeVerdict.{accepted_plan_data, fault_at_node};
ghost use Rattle.cn_json.specs.Verdict.{refused_data};

use crate::json_text::JsonText;
use crate::json_text::Primitive::{Boolean, Byte, Text};
use cn_tree_plans::TreePlan;
use std::alloc::{AllocError, Global};

fn write_accepted_plan(out: &mut JsonText, plan: &TreePlan) -> Result<(), AllocError>
    ensures { Appends result out.old out.new (value_tokens (accepted_plan_data plan.now)) }
{
    out.object(&[
        ("objects", Byte(plan.nodes())),
        ("ok", Boolean(true)),
        ("processes", Byte(plan.processes())),
        ("steps", Byte(plan.cost().steps)),
    ])
}

/// Writes a fault of a process at a node.
fn write_fault_at_node(
    out: &mut JsonText,
    name: &str,
    number: u8,
    node: u8,
    process: u8,
) -> Result<(), AllocError>
    ensures { Appends result out.old out.new
        (value_tokens (fault_at_node name.now number node process)) }
{
    out.object(&[
        ("name", Text(name)),
        ("node", Byte(node)),
        ("number", Byte(number)),
        ("process", Byte(process)),
    ])
}

/// Writes that a certificate has a fault of this process at this node.
fn write_refusal_at_node(
    out: &mut JsonText,
    name: &str,
    number: u8,
    node: u8,
    process: u8,
) -> Result<(), AllocError>
    ensures { Appends result out.old out.new
        (value_tokens (refused_data (fault_at_node name.now number node process))) }
{
    out.begin_object()?;
    out.key("fault")?;
    write_fault_at_node(out, name, number, node, process)?;
    out.last_members(&[("ok", Boolean(false))])
}

/// The answer for a certificate of this plan that is accepted:
/// `{"objects":..,"ok":true,"processes":..,"steps":..}`. `objects` and `processes` are their
/// numbers, and `steps` is the greatest number of own steps of a process.
///
/// # Errors
///
/// `AllocError` if memory runs out.
pub fn accepted_plan_json(alloc: Global, plan: &TreePlan) -> Result<String, AllocError>
    // promise: answers-as-json (accepted_plan_data)
    // promise: verdict-by-check-shortest
    ensures { IfOk result (λ text. string_bytes text
        ≡ compact_text (accepted_plan_data plan.now)) }
{
    let mut out = JsonText::new(alloc);
    write_accepted_plan(&mut out, plan)?;
    Ok(out.finish())
}

/// The answer for a certificate with a fault of this name and this number, which a process has at a
/// node, in the form of [`verdict_json`](crate::verdict_json):
/// `{"fault":{"name":..,"node":..,"number":..,"process":..},"ok":false}`.
///
/// # Errors
///
/// `AllocError` if memory runs out.
pub fn refusal_at_node_json(
    alloc: Global,
    name: &str,
    number: u8,
    node: u8,
    process: u8,
) -> Result<String, AllocError>
    // promise: answers-as-json (refused_data, fault_at_node)
    // promise: verdict-by-check-shortest
    ensures { IfOk result (λ text. string_bytes text
        ≡ compact_text (refused_data (fault_at_node name.now number node process))) }
{
    let mut out = JsonText::new(alloc);
    write_refusal_at_node(&mut out, name, number, node, process)?;
    Ok(out.finish())
}
