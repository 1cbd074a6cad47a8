//! The text of a service: the calls of each process, the entries of the log, and the events.
ghost use Rattle.std.specs.Prelude.{◌≡◌, ◌≤◌, ◌<◌, ◌++◌, length, string_bytes, IfOk, OnOk};
ghost use Rattle.cn_choice.specs.declared.limits.TheConstants.{MOST_PROCESSES};
ghost use Rattle.cn_plan_text.specs.Log.{RepliesHaveResponses};
ghost use Rattle.cn_app.specs.Lines.Threads.{EachHasResponses};
ghost use Rattle.cn_app.specs.Lines.Threads.{call_lines, end_by, fault_answers};
ghost use Rattle.cn_app.specs.Lines.Threads.{fault_line, history_answers, history_lines};
ghost use Rattle.cn_app.specs.Lines.Threads.{reply_answers};
ghost use Rattle.cn_app.specs.Lines.Threads.{service_lines, service_object, service_text};

use cn_form::AnswerForm;
use cn_hall::{CallFault, Reply};
use cn_io::with_line_feed;
use cn_json::{AnswerOf, service_json};
use cn_log::CallEnd;
use cn_log::laws::logs_are_linearized;
use cn_plan_text::{entry_lines, events_line, push_answer_line, reply_lines};
use cn_service::{ProcessHistory, ServiceHistory};
use cn_table::{State, Table};
use std::alloc::{AllocError, Global};

/// Appends the line of the call that has no reply, if there is one.
fn put_fault_line(
    lines: &mut String,
    object: &Table,
    process: u8,
    fault: Option<CallFault>,
) -> Result<(), AllocError>
    ensures { OnOk result (string_bytes lines.new ≡ string_bytes lines.old
        ++ fault_line object.now process fault) }
{
    match fault {
        None => Ok(()),
        Some(CallFault::LogFull) => push_answer_line(lines, object, process, CallEnd::Full),
        Some(CallFault::Stopped) => write!(lines, "stopped {process}\n"),
    }
}

fn call_lines(
    alloc: Global,
    object: &Table,
    process: u8,
    replies: &[Reply],
    fault: Option<CallFault>,
) -> Result<String, AllocError>
    requires { RepliesHaveResponses object.now replies.now }
    ensures { IfOk result (λ lines. string_bytes lines
        ≡ call_lines object.now process replies.now fault) }
{
    let mut lines = reply_lines(alloc, object, process, replies)?;
    put_fault_line(&mut lines, object, process, fault)?;
    Ok(lines)
}

pub(crate) fn history_lines(
    alloc: Global,
    object: &Table,
    worked: &[ProcessHistory],
) -> Result<String, AllocError>
    requires few { length worked.now ≤ MOST_PROCESSES }
    requires range { EachHasResponses object.now worked.now }
    ensures { IfOk result (λ lines. string_bytes lines ≡ history_lines object.now 0 worked.now) }
{
    let mut lines = String::new(alloc);
    for (process, one) in worked.iter().enumerate() {
        let next = call_lines(alloc, object, process as u8, &one.replies, one.fault)?;
        lines.push_str(&next)?;
    }
    Ok(lines)
}

/// The lines of a service: the calls of each process, the entries of the log, and the events.
fn service_lines(
    alloc: Global,
    object: &Table,
    start: State,
    service: &ServiceHistory,
) -> Result<String, AllocError>
    requires object { service.now.core.opening.object ≡ object.now }
    requires start { start.0 < length object.now.states }
    requires few { length service.now.processes.items ≤ MOST_PROCESSES }
    requires range { EachHasResponses object.now service.now.processes.items }
    ensures { IfOk result (λ lines. string_bytes lines
        ≡ service_lines object.now start.0 service.now.processes.items service.now.core) }
{
    logs_are_linearized(&service.core);
    let mut lines = history_lines(alloc, object, &service.processes)?;
    let entries = entry_lines(alloc, object, start, &service.core)?;
    lines.push_str(&entries)?;
    let events = events_line(alloc, service.core.schedule())?;
    lines.push_str(&events)?;
    Ok(lines)
}

/// Appends the replies to the calls of a process.
fn push_replies(
    answers: &mut Vec<AnswerOf>,
    process: u8,
    replies: &[Reply],
) -> Result<(), AllocError>
    ensures { OnOk result (answers.new.items ≡ answers.old.items
        ++ reply_answers process replies.now) }
{
    for reply in replies {
        answers.push(AnswerOf {
            process,
            end: Some(CallEnd::Answered(*reply)),
        })?;
    }
    Ok(())
}

/// How a call with this fault ended. One that is stopped has no end.
fn end_by(fault: CallFault) -> Option<CallEnd>
    ensures { result ≡ end_by fault }
{
    match fault {
        CallFault::LogFull => Some(CallEnd::Full),
        CallFault::Stopped => None,
    }
}

/// Appends the call that has no reply, if there is one.
fn push_fault(
    answers: &mut Vec<AnswerOf>,
    process: u8,
    fault: Option<CallFault>,
) -> Result<(), AllocError>
    ensures { OnOk result (answers.new.items ≡ answers.old.items ++ fault_answers process fault) }
{
    if let Some(fault) = fault {
        let end = end_by(fault);
        answers.push(AnswerOf { process, end })?;
    }
    Ok(())
}

/// The calls of each process, as JSON tells them.
fn history_answers(alloc: Global, worked: &[ProcessHistory]) -> Result<Vec<AnswerOf>, AllocError>
    requires { length worked.now ≤ MOST_PROCESSES }
    ensures { IfOk result (λ answers. answers.items ≡ history_answers 0 worked.now) }
{
    let mut answers = Vec::new(alloc);
    for (process, one) in worked.iter().enumerate() {
        push_replies(&mut answers, process as u8, &one.replies)?;
        push_fault(&mut answers, process as u8, one.fault)?;
    }
    Ok(answers)
}

/// What the lines of a service tell, as one JSON object.
fn service_object(
    alloc: Global,
    object: &Table,
    start: State,
    service: &ServiceHistory,
) -> Result<String, AllocError>
    requires object { service.now.core.opening.object ≡ object.now }
    requires start { start.0 < length object.now.states }
    requires few { length service.now.processes.items ≤ MOST_PROCESSES }
    requires range { EachHasResponses object.now service.now.processes.items }
    ensures { IfOk result (λ text. string_bytes text
        ≡ service_object object.now start.0 service.now.processes.items service.now.core) }
{
    logs_are_linearized(&service.core);
    let answers = history_answers(alloc, &service.processes)?;
    let json = service_json(alloc, object, start, &service.core, &answers)?;
    with_line_feed(json)
}

/// The text of a service in a form.
pub(crate) fn service_text(
    alloc: Global,
    object: &Table,
    start: State,
    service: &ServiceHistory,
    form: AnswerForm,
) -> Result<String, AllocError>
    requires object { service.now.core.opening.object ≡ object.now }
    requires start { start.0 < length object.now.states }
    requires few { length service.now.processes.items ≤ MOST_PROCESSES }
    requires range { EachHasResponses object.now service.now.processes.items }
    ensures { IfOk result (λ text. string_bytes text
        ≡ service_text form object.now start.0 service.now.processes.items service.now.core) }
{
    match form {
        AnswerForm::Text => service_lines(alloc, object, start, service),
        AnswerForm::Json => service_object(alloc, object, start, service),
    }
}
