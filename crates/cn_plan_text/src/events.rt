//! The line of the events of a log.
ghost use Rattle.std.specs.Prelude.{◌≡◌, ◌++◌, IfOk, OnOk, string_bytes};
ghost use Rattle.cn_plan_text.specs.Events.{event_text, events_line, events_text};

use cn_log::Event;
use std::alloc::{AllocError, Global};

/// Appends the text of an event, in the form in which lists of events are read.
fn push_event(text: &mut String, event: Event) -> Result<(), AllocError>
    ensures { OnOk result (string_bytes text.new ≡ string_bytes text.old ++ event_text event) }
{
    match event {
        Event::Invoke(process, operation) => write!(text, "i{process}:{operation}"),
        Event::Step(process) => write!(text, "s{process}"),
    }
}

/// The text of events, in the form in which lists of them are read.
fn events_text(alloc: Global, events: &[Event]) -> Result<String, AllocError>
    ensures { IfOk result (λ text. string_bytes text ≡ events_text events.now) }
{
    let Some((first, rest)) = events.split_first() else {
        return String::from_str(alloc, "none");
    };
    let mut text = String::new(alloc);
    push_event(&mut text, *first)?;
    for event in rest {
        text.push_str(",")?;
        push_event(&mut text, *event)?;
    }
    Ok(text)
}

/// The line of the events of a log, in order: `events LIST`. The list has `iP:O` for a call of
/// operation O by process P, and `sP` for a step of P, by number, with a comma between two; it is
/// `none` if there are no events. Lists of events are read in the same form. The line ends with a
/// line feed.
///
/// # Errors
///
/// Fails only for want of memory.
pub fn events_line(alloc: Global, events: &[Event]) -> Result<String, AllocError>
    // promise: lines-of-replies (events_text)
    ensures { IfOk result (λ line. string_bytes line ≡ events_line events.now) }
{
    let text = events_text(alloc, events)?;
    format!(in alloc; "events {text}\n")
}
