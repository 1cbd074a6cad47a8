//! The tables of names, and of transitions.
ghost use Rattle.std.specs.Prelude.{◌≡◌, ◌<◌, ◌++◌, OnOk, Some, length, slice_get, string_bytes};
ghost use Rattle.cn_code.specs.Frame.{all_names, name_line, names_code, names_of, object_part, part_of};
ghost use Rattle.cn_code.specs.Frame.{type_part};
ghost use Rattle.cn_code.specs.Frame.{table_code, transition_cell, transition_cells};
ghost use Rattle.cn_code.specs.Frame.{transition_row, transitions_code, transitions_of};

use crate::language::{Language, ObjectPart, Part};
use crate::words::{push_comma, push_number, push_text, push_word};
use cn_table::{Operation, Response, State, Table};
use std::alloc::AllocError;

/// What of a type has names.
#[derive(Clone, Copy)]
pub(crate) enum Kind {
    State,
    Operation,
    Response,
}

/// Whose table it is.
#[derive(Clone, Copy)]
pub(crate) enum Whose {
    /// That of the type.
    OfType,
    /// That of the object that is served.
    OfObject,
}

impl Whose {
    /// The part before the names.
    fn part(self, kind: Kind) -> Part
        ensures { result ≡ part_of self kind }
    {
        match self {
            Whose::OfType => type_part(kind),
            Whose::OfObject => Part::InObject(object_part(kind)),
        }
    }

    /// The part before the transitions.
    fn transitions(self) -> Part
        ensures { result ≡ transitions_of self }
    {
        match self {
            Whose::OfType => Part::Transitions,
            Whose::OfObject => Part::InObject(ObjectPart::Transitions),
        }
    }
}

fn type_part(kind: Kind) -> Part
    ensures { result ≡ type_part kind }
{
    match kind {
        Kind::State => Part::States,
        Kind::Operation => Part::Operations,
        Kind::Response => Part::Responses,
    }
}

fn object_part(kind: Kind) -> ObjectPart
    ensures { result ≡ object_part kind }
{
    match kind {
        Kind::State => ObjectPart::States,
        Kind::Operation => ObjectPart::Operations,
        Kind::Response => ObjectPart::Responses,
    }
}

/// The names and the transitions of a table.
pub(crate) fn push_table(
    text: &mut String,
    language: Language,
    whose: Whose,
    table: &Table,
) -> Result<(), AllocError>
    ensures { OnOk result (string_bytes text.new
        ≡ string_bytes text.old ++ table_code language whose table.now) }
{
    push_all_names(text, language, whose, table)?;
    push_transitions(text, language, whose, table)
}

/// The names of the states, of the operations and of the responses.
fn push_all_names(
    text: &mut String,
    language: Language,
    whose: Whose,
    table: &Table,
) -> Result<(), AllocError>
    ensures { OnOk result (string_bytes text.new
        ≡ string_bytes text.old ++ all_names language whose table.now) }
{
    push_names(text, language, whose, table, Kind::State)?;
    push_names(text, language, whose, table, Kind::Operation)?;
    push_names(text, language, whose, table, Kind::Response)
}

/// The table of these names, each with its number.
#[tactic(auto, using(cn_table::proofs::Lines::lines_more))]
fn push_names(
    text: &mut String,
    language: Language,
    whose: Whose,
    table: &Table,
    kind: Kind,
) -> Result<(), AllocError>
    ensures { OnOk result (string_bytes text.new
        ≡ string_bytes text.old ++ names_code language whose table.now kind) }
{
    push_word(text, language, whose.part(kind))?;
    for number in 0..count_of(table, kind) {
        push_name_line(text, language, table, kind, number)?;
    }
    Ok(())
}

fn count_of(table: &Table, kind: Kind) -> u8
    ensures { result ≡ length (names_of table.now kind) }
{
    match kind {
        Kind::State => table.states(),
        Kind::Operation => table.operations(),
        Kind::Response => table.responses(),
    }
}

fn name_of(table: &Table, kind: Kind, number: u8) -> &str
    requires { number < length (names_of table.now kind) }
    ensures { slice_get (names_of table.now kind) number ≡ Some result.now }
{
    match kind {
        Kind::State => table.state_name(State(number)),
        Kind::Operation => table.operation_name(Operation(number)),
        Kind::Response => table.response_name(Response(number)),
    }
}

fn push_name_line(
    text: &mut String,
    language: Language,
    table: &Table,
    kind: Kind,
    number: u8,
) -> Result<(), AllocError>
    requires { number < length (names_of table.now kind) }
    ensures { OnOk result (string_bytes text.new
        ≡ string_bytes text.old ++ name_line language (names_of table.now kind) number) }
{
    push_text(text, language, Part::Name, name_of(table, kind, number))?;
    push_number(text, language, Part::NameNumber, number)?;
    push_word(text, language, Part::LineEnd)
}

/// The transitions of all operations.
#[tactic(auto, using(cn_table::proofs::Lines::lines_more))]
fn push_transitions(
    text: &mut String,
    language: Language,
    whose: Whose,
    table: &Table,
) -> Result<(), AllocError>
    ensures { OnOk result (string_bytes text.new
        ≡ string_bytes text.old ++ transitions_code language whose table.now) }
{
    push_word(text, language, whose.transitions())?;
    for operation in 0..table.operations() {
        push_transition_row(text, language, table, Operation(operation))?;
    }
    Ok(())
}

/// The transitions of an operation, and in a comment its name.
fn push_transition_row(
    text: &mut String,
    language: Language,
    table: &Table,
    operation: Operation,
) -> Result<(), AllocError>
    requires { operation.0 < length table.now.operations }
    ensures { OnOk result (string_bytes text.new
        ≡ string_bytes text.old ++ transition_row language table.now operation.0) }
{
    push_word(text, language, Part::TransitionRow)?;
    push_transition_cells(text, language, table, operation)?;
    let name = table.operation_name(operation);
    push_text(text, language, Part::TransitionName, name)?;
    push_word(text, language, Part::LineEnd)
}

#[tactic(auto, using(cn_table::proofs::Lines::lines_more))]
fn push_transition_cells(
    text: &mut String,
    language: Language,
    table: &Table,
    operation: Operation,
) -> Result<(), AllocError>
    requires { operation.0 < length table.now.operations }
    ensures { OnOk result (string_bytes text.new
        ≡ string_bytes text.old ++ transition_cells language table.now operation.0) }
{
    for state in 0..table.states() {
        push_transition(text, language, table, operation, State(state))?;
    }
    Ok(())
}

/// The response of an operation in a state, and the next state.
fn push_transition(
    text: &mut String,
    language: Language,
    table: &Table,
    operation: Operation,
    state: State,
) -> Result<(), AllocError>
    requires operation { operation.0 < length table.now.operations }
    requires state { state.0 < length table.now.states }
    ensures { OnOk result (string_bytes text.new
        ≡ string_bytes text.old ++ transition_cell language table.now operation.0 state.0) }
{
    let (response, next) = table.apply(operation, state);
    push_comma(text, state.0)?;
    push_number(text, language, Part::TransitionResponse, response.0)?;
    push_number(text, language, Part::TransitionNext, next.0)?;
    push_word(text, language, Part::TransitionEnd)
}
