//! What all programs have in common.
ghost use Rattle.std.specs.Prelude.{◌≡◌, ◌<◌, ◌++◌, OnOk, length, option_copied, string_bytes};
ghost use Rattle.cn_code.specs.Frame.{counts_code, intro_code, interface_code, object_code};
ghost use Rattle.cn_code.specs.Frame.{places_word, program_code, program_end, start_line, title_code};
ghost use Rattle.cn_code.specs.declared.language.Language.TheVariants.{Rust, C};

use crate::language::{Form, InterfacePart, Language, ObjectPart, OwnPart, Part, ProgramPart};
use crate::object::{push_if_served, push_served_name};
use crate::served::Served;
use crate::words::{push_number, push_own, push_program_word, push_text, push_word};
use cn_table::{State, Table};
use std::alloc::AllocError;

/// The numbers of processes and of nodes, the most teams of a node, and the most steps of a process.
#[derive(Clone, Copy)]
pub(crate) struct Counts {
    pub processes: u8,
    pub nodes: u8,
    pub teams: u8,
    pub steps: u8,
}

/// The first line.
pub(crate) fn push_title(
    text: &mut String,
    language: Language,
    name: &str,
    processes: u8,
    object: Option<&Served>,
) -> Result<(), AllocError>
    ensures { OnOk result (string_bytes text.new ≡ string_bytes text.old
        ++ title_code language name.now processes (option_copied object.entry)) }
{
    push_number(text, language, Part::Title, processes)?;
    push_text(text, language, Part::TypeName, name)?;
    push_served_name(text, language, object)
}

/// What the program is, up to the first constant.
pub(crate) fn push_intro(
    text: &mut String,
    language: Language,
    form: Form,
    object: Option<&Served>,
) -> Result<(), AllocError>
    ensures { OnOk result (string_bytes text.new ≡ string_bytes text.old
        ++ intro_code language form (option_copied object.entry)) }
{
    push_word(text, language, Part::Intro)?;
    push_own(text, language, form, OwnPart::Meet)?;
    push_word(text, language, Part::Claims)?;
    push_own(text, language, form, OwnPart::Bound)?;
    push_word(text, language, Part::Trust)?;
    push_if_served(text, language, object, ObjectPart::About)?;
    push_word(text, language, Part::Uses)
}

/// The numbers of processes, of nodes, of teams and of steps.
pub(crate) fn push_counts(
    text: &mut String,
    language: Language,
    counts: Counts,
) -> Result<(), AllocError>
    ensures { OnOk result (string_bytes text.new
        ≡ string_bytes text.old ++ counts_code language counts) }
{
    push_number(text, language, Part::Processes, counts.processes)?;
    push_number(text, language, Part::Nodes, counts.nodes)?;
    push_number(text, language, Part::Teams, counts.teams)?;
    push_number(text, language, Part::Steps, counts.steps)
}

/// What a header declares, in C.
pub(crate) fn push_interface(
    text: &mut String,
    language: Language,
    form: Form,
    object: Option<&Served>,
) -> Result<(), AllocError>
    ensures { OnOk result (string_bytes text.new ≡ string_bytes text.old
        ++ interface_code language form (option_copied object.entry)) }
{
    match language {
        Language::Rust => Ok(()),
        Language::C => push_c_interface(text, form, object),
    }
}

fn push_c_interface(
    text: &mut String,
    form: Form,
    object: Option<&Served>,
) -> Result<(), AllocError>
    ensures { OnOk result (string_bytes text.new ≡ string_bytes text.old
        ++ interface_code C form (option_copied object.entry)) }
{
    let language = Language::C;
    push_word(text, language, Part::Interface(InterfacePart::Object))?;
    push_own(text, language, form, OwnPart::Read)?;
    push_word(text, language, Part::Interface(InterfacePart::ObjectEnd))?;
    push_own(text, language, form, OwnPart::Figure)?;
    push_word(text, language, Part::Interface(InterfacePart::NodeEnd))?;
    push_if_served(text, language, object, ObjectPart::Full)?;
    push_word(text, language, Part::Interface(InterfacePart::Status))?;
    push_if_served(text, language, object, ObjectPart::Interface)?;
    push_word(text, language, Part::Interface(InterfacePart::End))
}

/// The state in which the object of a node starts, and in a comment the node and the name of the
/// state.
pub(crate) fn push_start_line(
    text: &mut String,
    language: Language,
    table: &Table,
    start: State,
    node: u8,
) -> Result<(), AllocError>
    requires { start.0 < length table.now.states }
    ensures { OnOk result (string_bytes text.new
        ≡ string_bytes text.old ++ start_line language table.now start.0 node) }
{
    push_number(text, language, Part::StartState, start.0)?;
    push_number(text, language, Part::StartNode, node)?;
    push_text(text, language, Part::StartName, table.state_name(start))?;
    push_word(text, language, Part::LineEnd)
}

/// Up to the lines of the places.
pub(crate) fn push_places_word(
    text: &mut String,
    language: Language,
    form: Form,
) -> Result<(), AllocError>
    ensures { OnOk result (string_bytes text.new
        ≡ string_bytes text.old ++ places_word language form) }
{
    push_own(text, language, form, OwnPart::Place)?;
    push_word(text, language, Part::Places)?;
    push_own(text, language, form, OwnPart::Figure)?;
    push_word(text, language, Part::PlaceLines)
}

/// The objects, the registers and the algorithm.
pub(crate) fn push_program(
    text: &mut String,
    language: Language,
    form: Form,
    object: Option<&Served>,
) -> Result<(), AllocError>
    ensures { OnOk result (string_bytes text.new ≡ string_bytes text.old
        ++ program_code language form (option_copied object.entry)) }
{
    push_program_word(text, language, ProgramPart::Object)?;
    push_object(text, language, form)?;
    push_own(text, language, form, OwnPart::Judge)?;
    push_program_word(text, language, ProgramPart::Take)?;
    push_own(text, language, form, OwnPart::CheckOperation)?;
    push_program_end(text, language, object)
}

/// The object and the node, in Rust.
fn push_object(text: &mut String, language: Language, form: Form) -> Result<(), AllocError>
    ensures { OnOk result (string_bytes text.new
        ≡ string_bytes text.old ++ object_code language form) }
{
    match language {
        Language::Rust => push_rust_object(text, form),
        Language::C => Ok(()),
    }
}

fn push_rust_object(text: &mut String, form: Form) -> Result<(), AllocError>
    ensures { OnOk result (string_bytes text.new
        ≡ string_bytes text.old ++ object_code Rust form) }
{
    let language = Language::Rust;
    push_own(text, language, form, OwnPart::Read)?;
    push_program_word(text, language, ProgramPart::Node)?;
    push_own(text, language, form, OwnPart::Figure)?;
    push_program_word(text, language, ProgramPart::Steps)
}

/// From the check of an operation to the end of the file.
fn push_program_end(
    text: &mut String,
    language: Language,
    object: Option<&Served>,
) -> Result<(), AllocError>
    ensures { OnOk result (string_bytes text.new ≡ string_bytes text.old
        ++ program_end language (option_copied object.entry)) }
{
    push_program_word(text, language, ProgramPart::CheckEnd)?;
    push_if_served(text, language, object, ObjectPart::Universal)?;
    push_program_word(text, language, ProgramPart::End)
}
