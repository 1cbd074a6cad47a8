//! The lines of a log: its calls that ended, and its entries.
ghost use Rattle.std.specs.Prelude.{◌≡◌, ◌<◌, ◌++◌, All, IfOk, OnOk, length, string_bytes};
ghost use Rattle.cn_table.specs.TypeTable.{transition};
ghost use Rattle.cn_log.specs.CallEnds.{EndsWithResponse};
ghost use Rattle.cn_log.specs.Linearized.{entry_slots};
ghost use Rattle.cn_log.specs.Log.{entries};
ghost use Rattle.cn_log.specs.Opening.{setting};
ghost use Rattle.cn_log.specs.declared.event.CallEnd.TheVariants.{Answered};
ghost use Rattle.cn_plan_text.specs.Log.{answer_line, answer_lines, entry_line, entry_lines, reply_lines, HaveResponses, RepliesHaveResponses};

use cn_log::{CallEnd, Entry, LogCore, Reply};
use cn_table::{State, Table};
use std::alloc::{AllocError, Global};

/// Appends the line of a reply to a call of this process.
fn push_reply(
    lines: &mut String,
    object: &Table,
    process: u8,
    reply: Reply,
) -> Result<(), AllocError>
    requires { reply.response.0 < length object.now.responses }
    ensures { OnOk result (string_bytes lines.new
        ≡ string_bytes lines.old ++ answer_line object.now process (Answered reply)) }
{
    let (slot, response) = (reply.slot, object.response_name(reply.response));
    write!(lines, "answer {process} {slot} {response}\n")
}

/// Appends the line of a call of this process that ended: `answer P K R`, with the process, the
/// slot and the name of the response, which is one of the object's; or `full P`, if no slot holds
/// the call. The line ends with a line feed.
///
/// # Errors
///
/// Fails only for want of memory, and may then have appended a part of the line.
pub fn push_answer_line(
    lines: &mut String,
    object: &Table,
    process: u8,
    end: CallEnd,
) -> Result<(), AllocError>
    requires { EndsWithResponse object.now end }
    // promise: lines-of-replies (answer_line)
    ensures { OnOk result (string_bytes lines.new
        ≡ string_bytes lines.old ++ answer_line object.now process end) }
{
    match end {
        CallEnd::Answered(reply) => push_reply(lines, object, process, reply),
        CallEnd::Full => write!(lines, "full {process}\n"),
    }
}

/// The lines of calls that ended, each with its process, in order, as [`push_answer_line`] appends
/// them. Every response is one of the object's.
///
/// # Errors
///
/// Fails only for want of memory.
pub fn answer_lines(
    alloc: Global,
    object: &Table,
    ends: &[(u8, CallEnd)],
) -> Result<String, AllocError>
    requires { HaveResponses object.now ends.now }
    // promise: lines-of-replies
    ensures { IfOk result (λ lines. string_bytes lines ≡ answer_lines object.now ends.now) }
{
    let mut lines = String::new(alloc);
    for end in ends {
        push_answer_line(&mut lines, object, end.0, end.1)?;
    }
    Ok(lines)
}

/// The lines of the replies to the calls of one process, in order, as [`push_answer_line`] appends
/// them. Every response is one of the object's.
///
/// # Errors
///
/// Fails only for want of memory.
pub fn reply_lines(
    alloc: Global,
    object: &Table,
    process: u8,
    replies: &[Reply],
) -> Result<String, AllocError>
    requires { RepliesHaveResponses object.now replies.now }
    ensures { IfOk result (λ lines. string_bytes lines
        ≡ reply_lines object.now process replies.now) }
{
    let mut lines = String::new(alloc);
    for reply in replies {
        push_reply(&mut lines, object, process, *reply)?;
    }
    Ok(lines)
}

/// Appends the line of an entry in a slot, and returns the state of the object after it.
fn push_entry(
    lines: &mut String,
    object: &Table,
    slot: u16,
    entry: Entry,
    state: State,
) -> Result<State, AllocError>
    requires operation { entry.operation.0 < length object.now.operations }
    requires state { state.0 < length object.now.states }
    ensures line { OnOk result (string_bytes lines.new
        ≡ string_bytes lines.old
        ++ entry_line object.now slot entry (transition object.now entry.operation.0 state.0)) }
    ensures next { IfOk result (λ next.
        next.0 ≡ (transition object.now entry.operation.0 state.0).1) }
    ensures range { IfOk result (λ next. next.0 < length object.now.states) }
{
    let process = entry.process;
    let (response, next) = object.apply(entry.operation, state);
    let operation = object.operation_name(entry.operation);
    let (given, after) = (object.response_name(response), object.state_name(next));
    write!(
        lines,
        "entry {slot} {process} {operation} {given} {after}\n"
    )?;
    Ok(next)
}

/// The lines of the entries of a log, in order: one sequential run of the object from the start
/// state. The start state is one of the object's states, and each entry's operation is one of its
/// operations. A line is `entry K P O R S`: the slot, the process, and the names of the operation,
/// of the object's response, and of its state afterwards. It ends with a line feed.
///
/// # Errors
///
/// Fails only for want of memory.
pub fn entry_lines(
    alloc: Global,
    object: &Table,
    start: State,
    core: &LogCore,
) -> Result<String, AllocError>
    requires start { start.0 < length object.now.states }
    requires known { All (λ e. e.operation.0 < length object.now.operations)
        (entries (setting core.now) core.now.schedule) }
    // promise: lines-of-replies (entry_line)
    ensures { IfOk result (λ lines. string_bytes lines
        ≡ entry_lines object.now start.0 (entries (setting core.now) core.now.schedule)
        (entry_slots (setting core.now) core.now.schedule)) }
{
    let mut lines = String::new(alloc);
    let mut state = start;
    for (place, entry) in core.entries().iter().enumerate() {
        let slot = core.slot_at(place);
        state = push_entry(&mut lines, object, slot, *entry, state)?;
    }
    Ok(lines)
}
