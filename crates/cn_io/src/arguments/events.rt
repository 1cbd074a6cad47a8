//! Arguments for a log: its events, and how many slots it has.
ghost use Rattle.std.specs.Prelude.{◌≡◌, ◌⊎◌, ◌≤◌, IfOk, IfErr, Some, None};
ghost use Rattle.cn_log.specs.declared.limits.TheConstants.{MOST_SLOTS};
ghost use Rattle.cn_io.specs.Arguments.Events.{capacity_of, event_in, event_of, events_in, invoke_of, words_of, GivesCapacity, GivesEvents};

use crate::arguments::list_text::ListText;
use crate::arguments::lists::{Item, read_number, read_up_to};
use crate::arguments::operations::OperationWord;
use crate::arguments::short::read_short;
use crate::fault::{AppFault, Argument};
use cn_log::{Event, MOST_SLOTS};
use cn_table::Table;
use std::alloc::{AllocError, Global};

/// An event of a log, as a list gives it.
#[derive(Drop)]
pub enum EventWord<'a> {
    /// A process makes a call of this operation.
    Invoke(u8, OperationWord<'a>),
    /// A process takes a step.
    Step(u8),
}

impl<'a> EventWord<'a> {
    /// The event, by the numbers that operations have in this object.
    fn event_in(&self, object: &Table) -> Event
        ensures { result ≡ event_in object.now self.now }
    {
        match self {
            EventWord::Invoke(process, operation) => {
                Event::Invoke(*process, operation.operation_in(object))
            }
            EventWord::Step(process) => Event::Step(*process),
        }
    }
}

impl<'a> Item<'a> for EventWord<'a> {
    ghost item_of = { event_of };

    fn read(text: &'a str) -> Option<EventWord<'a>> {
        match text.strip_prefix('s') {
            Some(process) => Some(EventWord::Step(u8::read(process)?)),
            None => read_invoke(text.strip_prefix('i')?),
        }
    }
}

/// A process and an operation, with a colon between.
fn read_invoke<'a>(text: &'a str) -> Option<EventWord<'a>>
    ensures { result ≡ invoke_of text.now }
{
    let (process, operation) = text.split_once(':')?;
    Some(EventWord::Invoke(u8::read(process)?, OperationWord::read(operation)?))
}

/// The events of a list.
#[derive(Drop)]
pub enum EventList<'a> {
    /// Each operation is given by its number.
    Numbers(Vec<Event>),
    /// An operation may be given by its name.
    Words(Vec<EventWord<'a>>),
}

impl<'a> EventList<'a> {
    /// The events, by the numbers that operations have in this object. An operation whose name the
    /// object does not have gets the number of none, as for [`OperationWord::operation_in`].
    ///
    /// # Errors
    ///
    /// Fails only for want of memory.
    pub fn events_in(self, alloc: Global, object: &Table) -> Result<Vec<Event>, AllocError>
        // promise: operations-of-lists
        ensures { IfOk result (λ events. events.items
            ≡ events_in object.now (words_of self.entry)) }
    {
        match self {
            EventList::Numbers(events) => Ok(events),
            EventList::Words(words) => each_in(alloc, &words, object),
        }
    }
}

fn each_in(alloc: Global, words: &[EventWord<'_>], object: &Table) -> Result<Vec<Event>, AllocError>
    ensures { IfOk result (λ events. events.items ≡ events_in object.now words.now) }
{
    let mut events = Vec::new(alloc);
    for word in words {
        events.push(word.event_in(object))?;
    }
    Ok(events)
}

/// How many slots, if the text spells a number of slots that a log may have.
fn slots_of(text: &str) -> Option<u16>
    ensures { result ≡ capacity_of text.now }
{
    let slots = read_number(text)?;
    if slots < 1 || slots > u64::from(MOST_SLOTS) {
        return None;
    }
    Some(slots as u16)
}

/// Reads how many slots a log has: a number from 1 to [`MOST_SLOTS`], 1 to 20 decimal digits
/// without a sign.
///
/// # Errors
///
/// `Argument(Capacity)` where the text is no such number.
pub fn read_capacity(text: &str) -> Result<u16, AppFault>
    ensures capacity { GivesCapacity text.now result }
    ensures range { IfOk result (λ capacity. (1 ≤ capacity) × (capacity ≤ MOST_SLOTS)) }
{
    slots_of(text).ok_or(AppFault::Argument(Argument::Capacity))
}

/// Reads events of a log: `iP:O`, process P makes a call of operation O, and `sP`, process P takes
/// a step. P is a number from 0 to 255. O is one too, or the name of an operation that is not
/// decimal digits alone.
///
/// The list is written as for [`read_inputs`](crate::read_inputs).
///
/// # Errors
///
/// `Argument(Events)` where the text is no such list, or `OutOfMemory`.
pub fn read_events<'a>(alloc: Global, list: &'a ListText<'_>) -> Result<EventList<'a>, AppFault>
    // promise: list-of-an-argument (list_of, most_items)
    ensures { GivesEvents list.now result }
{
    let (text, most) = (list.text(), list.most_items());
    if let Some(events) = read_short(alloc, text, most)? {
        return Ok(EventList::Numbers(events));
    }
    let words = read_up_to::<EventWord<'a>>(alloc, text, most, Argument::Events)?;
    Ok(EventList::Words(words))
}
