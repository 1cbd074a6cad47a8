//! Arguments that are lists: items with a comma between two, or the word `none`.
ghost use Rattle.std.specs.Prelude.{◌≡◌, ◌⊎◌, ◌<◌, ℕ, map, IfOk, IfErr, List, Option, Some, None, ◌==◌};
ghost use Rattle.std.specs.List.{list_all, slice_split};
ghost use Rattle.std.specs.Char.{is_ascii_digit};
ghost use Rattle.cn_table.specs.Draft.{all_some};
ghost use Rattle.cn_io.specs.Arguments.Lists.{number_up_to, list_of, list_up_to, inputs_of, schedule_of, GivesList, GivesLists};
ghost use Rattle.cn_io.specs.declared.fault.Argument.TheVariants.{Inputs, Schedule};

use crate::arguments::list_text::ListText;
use crate::fault::{AppFault, Argument};
use crate::limits::MOST_DIGITS;
use std::alloc::{AllocError, Global};

/// What a list may be of.
pub(crate) trait Item<'a> {
    ghost item_of: { List ℕ → Option Self };

    /// The item that a text spells, if it spells one.
    fn read(text: &'a str) -> Option<Self>
    where
        Self: Sized,
        ensures { result ≡ item_of text.now };
}

impl<'a> Item<'a> for u64 {
    ghost item_of = { number_up_to 18446744073709551615 };

    fn read(text: &'a str) -> Option<u64> {
        read_number(text)
    }
}

impl<'a> Item<'a> for u8 {
    ghost item_of = { number_up_to 255 };

    fn read(text: &'a str) -> Option<u8> {
        u8::try_from(read_number(text)?).ok()
    }
}

pub(crate) fn has_digits_only(text: &str) -> bool
    ensures { result ≡ list_all is_ascii_digit text.now }
{
    text.bytes().all(|byte| byte.is_ascii_digit())
}

/// The number that decimal digits write, with no sign.
pub(crate) fn read_number(text: &str) -> Option<u64>
    ensures { result ≡ number_up_to 18446744073709551615 text.now }
{
    if !has_digits_only(text) || text.len() > MOST_DIGITS {
        return None;
    }
    text.parse::<u64>().ok()
}

pub(crate) fn pieces_of(alloc: Global, text: &str, separator: char) -> Result<Vec<&str>, AllocError>
    requires { separator < 128 }
    ensures { IfOk result (λ pieces. map (λ piece. piece.now) pieces.items
        ≡ slice_split (λ byte. byte == separator) text.now) }
{
    text.split(separator).collect(alloc)
}

#[tactic(auto, using(cn_table::proofs::Lists::front_next, cn_table::proofs::Lists::front_stops))]
fn read_items<'a, T: Item<'a> + Drop>(
    alloc: Global,
    pieces: &[&'a str],
    argument: Argument,
) -> Result<Vec<T>, AppFault>
    ensures { GivesList argument (all_some (map T.item_of (map (λ piece. piece.now) pieces.now)))
        result }
{
    let mut items = Vec::new(alloc);
    for piece in pieces {
        match T::read(*piece) {
            Some(item) => items.push(item)?,
            None => return Err(AppFault::Argument(argument)),
        }
    }
    Ok(items)
}

/// Reads the list of at most so many items that a text spells.
pub(crate) fn read_up_to<'a, T: Item<'a> + Drop>(
    alloc: Global,
    text: &'a str,
    most: usize,
    argument: Argument,
) -> Result<Vec<T>, AppFault>
    ensures { GivesList argument (list_up_to most T.item_of text.now) result }
{
    if text == "none" {
        return Ok(Vec::new(alloc));
    }
    let pieces = pieces_of(alloc, text, ',')?;
    if pieces.len() > most {
        return Err(AppFault::Argument(argument));
    }
    read_items(alloc, &pieces, argument)
}

/// Reads a list of at most as many items as it may have where it stands.
pub(crate) fn read_list<'a, T: Item<'a> + Drop>(
    alloc: Global,
    list: &'a ListText<'_>,
    argument: Argument,
) -> Result<Vec<T>, AppFault>
    ensures { GivesList argument (list_of T.item_of list.now) result }
{
    read_up_to(alloc, list.text(), list.most_items(), argument)
}

/// Reads the numbers that the processes begin with, from 0 to 18446744073709551615.
///
/// A list is its items in order with a comma and no space between two, at most as many as its
/// [`ListText`] may have, or for the empty list the word `none`. A number is at least one and at
/// most [`MOST_DIGITS`](crate::MOST_DIGITS) decimal digits without a sign; zeros may stand first.
///
/// # Errors
///
/// `Argument(Inputs)` where the text is no such list, or `OutOfMemory`.
pub fn read_inputs(alloc: Global, list: &ListText<'_>) -> Result<Vec<u64>, AppFault>
    // promise: list-of-an-argument (list_of, most_items)
    ensures { GivesList Inputs (inputs_of list.now) result }
{
    read_list::<u64>(alloc, list, Argument::Inputs)
}

/// Reads a schedule: the processes, from 0 to 255, in the order in which they take their steps.
///
/// The list is written as for [`read_inputs`].
///
/// # Errors
///
/// `Argument(Schedule)` where the text is no such list, or `OutOfMemory`.
pub fn read_schedule(alloc: Global, list: &ListText<'_>) -> Result<Vec<u8>, AppFault>
    // promise: list-of-an-argument (list_of, most_items)
    ensures { GivesList Schedule (schedule_of list.now) result }
{
    read_list::<u8>(alloc, list, Argument::Schedule)
}

/// What the processes begin with, and the order of their steps.
#[derive(Drop)]
pub struct RunLists {
    pub inputs: Vec<u64>,
    pub schedule: Vec<u8>,
}

/// Reads the inputs, and then the schedule.
pub fn read_run_lists(
    alloc: Global,
    inputs: &ListText<'_>,
    schedule: &ListText<'_>,
) -> Result<RunLists, AppFault>
    ensures { GivesLists inputs.now schedule.now result }
{
    let inputs = read_inputs(alloc, inputs)?;
    let schedule = read_schedule(alloc, schedule)?;
    Ok(RunLists { inputs, schedule })
}
