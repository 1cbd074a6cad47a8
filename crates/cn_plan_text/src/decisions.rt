//! The lines of the decisions of processes.
ghost use Rattle.std.specs.Prelude.{◌≡◌, ◌++◌, IfOk, OnOk, string_bytes};
ghost use Rattle.cn_plan_text.specs.Decisions.{decision_line, decision_lines};

use std::alloc::{AllocError, Global};

/// Appends the decision of a process, or that it is undecided.
fn push_decision(
    lines: &mut String,
    process: usize,
    decision: Option<u64>,
) -> Result<(), AllocError>
    ensures { OnOk result (string_bytes lines.new
        ≡ string_bytes lines.old ++ decision_line process decision) }
{
    match decision {
        Some(value) => write!(lines, "{process}: {value}\n"),
        None => write!(lines, "{process}: undecided\n"),
    }
}

/// A line for each process, from process 0 on: `P: V` if process P has decided value V, or
/// `P: undecided`. Each line ends with a line feed.
///
/// # Errors
///
/// Fails only for want of memory.
pub fn decision_lines(alloc: Global, decisions: &[Option<u64>]) -> Result<String, AllocError>
    // promise: lines-of-replies (decision_line)
    ensures { IfOk result (λ lines. string_bytes lines ≡ decision_lines 0 decisions.now) }
{
    let mut lines = String::new(alloc);
    for (process, decision) in decisions.iter().enumerate() {
        push_decision(&mut lines, process, *decision)?;
    }
    Ok(lines)
}
