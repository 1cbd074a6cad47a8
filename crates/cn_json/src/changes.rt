//! The numbers of a type with other entries as JSON.
ghost use Rattle.std.specs.Prelude.{◌≡◌, All, IfOk, IfSome, codes, string_bytes};
ghost use Rattle.serde_json.specs.Written.{compact_text};
ghost use Rattle.cn_changes.specs.Changes.{IsChange};
ghost use Rattle.cn_changes.specs.Told.{agreed};
ghost use Rattle.cn_json.specs.Changes.{AreKnownPairs, IsKnownNext, IsKnownPair, IsKnownResponse, change_data, changes_data, kind_data, next_data, pair_data, pair_numbers_data, response_number_data, told_responses};
ghost use Rattle.cn_json.specs.Numbers.{bounds_data};
ghost use Rattle.cn_json.specs.Tokens.{Appends, member_tokens, value_tokens};
ghost use Rattle.cn_json.specs.Values.{list_data, option_data, primitive_data};

use crate::json_text::JsonText;
use crate::json_text::Primitive::{self, Boolean, Text};
use crate::numbers::write_bounds;
use crate::value::JsonValue;
use cn_changes::{
    Change, ChangeNumber, Changes, NextNumbers, NumberKind, PairNumber, PairNumbers, agreed,
};
use cn_table::Table;
use cn_unread_number::NumberBounds;
use std::alloc::{AllocError, Global};

impl JsonValue for ChangeNumber {
    ghost IsKnown = { IsKnownResponse };

    ghost json = { response_number_data };

    fn write(&self, out: &mut JsonText, table: &Table) -> Result<(), AllocError> {
        out.begin_object()?;
        out.key("number")?;
        write_bounds(out, self.number)?;
        out.last_members(&[("response", Text(table.response_name(self.change.response)))])
    }
}

/// Writes the number, or null.
fn write_agreed(out: &mut JsonText, number: Option<NumberBounds>) -> Result<(), AllocError>
    ensures { Appends result out.old out.new (value_tokens (option_data bounds_data number)) }
{
    match number {
        Some(number) => write_bounds(out, number),
        None => out.null(),
    }
}

/// Writes the responses with their numbers: none if all have one number.
fn write_responses(
    out: &mut JsonText,
    table: &Table,
    numbers: &[ChangeNumber],
    number: Option<NumberBounds>,
) -> Result<(), AllocError>
    requires { All (IsKnownResponse table.now) numbers.now }
    ensures { Appends result out.old out.new (member_tokens (codes "responses")
        (list_data (response_number_data table.now) (told_responses numbers.now number))) }
{
    match number {
        Some(_) => {
            out.begin_array_at("responses")?;
            out.end_array()
        }
        None => out.array_at("responses", table, numbers),
    }
}

impl JsonValue for NextNumbers {
    ghost IsKnown = { IsKnownNext };

    ghost json = { next_data };

    fn write(&self, out: &mut JsonText, table: &Table) -> Result<(), AllocError> {
        let numbers = self.numbers.as_slice();
        let number = agreed(numbers);
        let target = self.target;
        out.begin_object()?;
        out.member("next", Text(table.state_name(target.next)))?;
        out.key("number")?;
        write_agreed(out, number)?;
        out.member("operation", Text(table.operation_name(target.operation)))?;
        write_responses(out, table, numbers, number)?;
        out.last_members(&[("state", Text(table.state_name(target.state)))])
    }
}

/// A change of one entry.
fn write_change(out: &mut JsonText, table: &Table, change: Change) -> Result<(), AllocError>
    requires { IsChange table.now change }
    ensures { Appends result out.old out.new (value_tokens (change_data table.now change)) }
{
    let target = change.target;
    out.object(&[
        ("next", Text(table.state_name(target.next))),
        ("operation", Text(table.operation_name(target.operation))),
        ("response", Text(table.response_name(change.response))),
        ("state", Text(table.state_name(target.state))),
    ])
}

impl JsonValue for PairNumber {
    ghost IsKnown = { IsKnownPair };

    ghost json = { pair_data };

    fn write(&self, out: &mut JsonText, table: &Table) -> Result<(), AllocError> {
        out.begin_object()?;
        out.key("first")?;
        write_change(out, table, self.pair.first)?;
        out.key("number")?;
        write_bounds(out, self.number)?;
        out.key("second")?;
        write_change(out, table, self.pair.second)?;
        out.end_object()
    }
}

impl JsonValue for PairNumbers {
    ghost IsKnown = { AreKnownPairs };

    ghost json = { pair_numbers_data };

    fn write(&self, out: &mut JsonText, table: &Table) -> Result<(), AllocError> {
        out.begin_object()?;
        out.member("cut", Boolean(self.is_cut))?;
        out.array_at("raising", table, &self.raising)?;
        out.end_object()
    }
}

/// The word for the number that is told.
fn kind_value<'a>(kind: NumberKind) -> Primitive<'a>
    ensures { primitive_data result ≡ kind_data kind }
{
    match kind {
        NumberKind::Consensus => Text("consensus"),
        NumberKind::Recoverable => Text("recoverable"),
        NumberKind::WithoutReads => Text("without_read"),
    }
}

fn write_changes(
    out: &mut JsonText,
    table: &Table,
    changes: &Changes,
    pairs: &Option<PairNumbers>,
) -> Result<(), AllocError>
    requires nexts { All (IsKnownNext table.now) changes.now.nexts.items }
    requires pairs { IfSome pairs.now (AreKnownPairs table.now) }
    ensures { Appends result out.old out.new
        (value_tokens (changes_data table.now changes.now pairs.now)) }
{
    out.begin_object()?;
    out.array_at("changes", table, &changes.nexts)?;
    out.member("kind", kind_value(changes.kind))?;
    out.member("name", Text(table.name()))?;
    out.key("number")?;
    write_bounds(out, changes.number)?;
    out.option_at("pairs", table, pairs)?;
    out.end_object()
}

/// The numbers of a type with each other entry in its table, as one compact JSON object:
/// `{"changes":[..],"kind":..,"name":..,"number":..,"pairs":..}`. In `changes` there is an object for
/// each entry and each next state: `{"next":..,"number":..,"operation":..,"responses":[..],"state":..}`.
/// Its `number` is that of the type with this next state, if it is the same with each response with
/// which the entry is another one; else it is null, and `responses` has an object for each of these:
/// `{"number":..,"response":..}`. `kind` says which number is told: `"consensus"`, `"recoverable"` or
/// `"without_read"`. `pairs` is null if two changes were not tried at once, and else an object:
/// `{"cut":..,"raising":[..]}`.
///
/// # Errors
///
/// `AllocError` if memory runs out.
pub fn changes_json(
    alloc: Global,
    table: &Table,
    changes: &Changes,
    pairs: &Option<PairNumbers>,
) -> Result<String, AllocError>
    requires nexts { All (IsKnownNext table.now) changes.now.nexts.items }
    requires pairs { IfSome pairs.now (AreKnownPairs table.now) }
    // promise: answers-as-json (changes_data: next_data, pair_numbers_data)
    ensures { IfOk result (λ text. string_bytes text
        ≡ compact_text (changes_data table.now changes.now pairs.now)) }
{
    let mut out = JsonText::new(alloc);
    write_changes(&mut out, table, changes, pairs)?;
    Ok(out.finish())
}
