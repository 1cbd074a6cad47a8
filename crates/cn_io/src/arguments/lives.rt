//! Arguments for a run of processes that crash and come back: its schedule, and how many processes
//! there are.
ghost use Rattle.std.specs.Prelude.{◌≡◌, ◌≤◌, IfSome};
ghost use Rattle.cn_choice.specs.declared.limits.TheConstants.{MOST_PROCESSES};
ghost use Rattle.cn_io.specs.Arguments.Lists.{GivesList};
ghost use Rattle.cn_io.specs.Arguments.Lives.{GivesLifeLists, GivesProcesses, life_event_of};
ghost use Rattle.cn_io.specs.Arguments.Lives.{life_schedule_of};
ghost use Rattle.cn_io.specs.declared.fault.Argument.TheVariants.{Schedule};

use crate::arguments::list_text::ListText;
use crate::arguments::lists::{Item, read_inputs, read_list};
use crate::fault::{AppFault, Argument};
use cn_choice::MOST_PROCESSES;
use cn_lives::Event;
use std::alloc::Global;

impl<'a> Item<'a> for Event {
    ghost item_of = { life_event_of };

    fn read(text: &'a str) -> Option<Event> {
        match text.strip_prefix('c') {
            Some(process) => Some(Event::Crash(u8::read(process)?)),
            None => Some(Event::Step(u8::read(text)?)),
        }
    }
}

/// Reads a schedule of steps and crashes: `P`, process P takes a step, and `cP`, process P crashes.
/// P is a number from 0 to 255.
///
/// The list is written as for [`read_inputs`](crate::read_inputs).
///
/// # Errors
///
/// `Argument(Schedule)` where the text is no such list, or `OutOfMemory`.
pub fn read_life_schedule(alloc: Global, list: &ListText<'_>) -> Result<Vec<Event>, AppFault>
    // promise: list-of-an-argument (life_schedule_of)
    ensures { GivesList Schedule (life_schedule_of list.now) result }
{
    read_list::<Event>(alloc, list, Argument::Schedule)
}

/// What the processes begin with, and the order of their steps and crashes.
#[derive(Drop)]
pub struct LifeLists {
    pub inputs: Vec<u64>,
    pub schedule: Vec<Event>,
}

/// Reads the inputs, and then the schedule.
pub fn read_life_lists(
    alloc: Global,
    inputs: &ListText<'_>,
    schedule: &ListText<'_>,
) -> Result<LifeLists, AppFault>
    ensures { GivesLifeLists inputs.now schedule.now result }
{
    let inputs = read_inputs(alloc, inputs)?;
    let schedule = read_life_schedule(alloc, schedule)?;
    Ok(LifeLists { inputs, schedule })
}

/// Whether there can be so many processes, if a number was given: from 2 to
/// [`MOST_PROCESSES`](cn_choice::MOST_PROCESSES).
///
/// # Errors
///
/// `Argument(Processes)` where the number is no such number.
pub fn check_processes(given: Option<u8>) -> Result<(), AppFault>
    ensures { GivesProcesses given result }
{
    match given {
        Some(n) if n < 2 || usize::from(n) > MOST_PROCESSES => {
            Err(AppFault::Argument(Argument::Processes))
        }
        _ => Ok(()),
    }
}
