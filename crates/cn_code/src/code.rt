//! The text of a plan's program.
ghost use Rattle.std.specs.Prelude.{◌≡◌, ◌++◌, IfOk, OnOk, option_copied, string_bytes};
ghost use Rattle.cn_code.specs.Code.{c_text, code_text, counts_of, head_code, header_text};
ghost use Rattle.cn_code.specs.Code.{rust_text, starts_code, tables_code};
ghost use Rattle.cn_code.specs.declared.language.Language.TheVariants.{C};

use crate::frame::{
    Counts, push_counts, push_interface, push_intro, push_program, push_start_line, push_title,
};
use crate::judgements::push_judgements;
use crate::language::{Form, Language, Part};
use crate::names::{Whose, push_table};
use crate::naming::{named, named_with};
use crate::object::push_object_tables;
use crate::places::push_places;
use crate::prefix::Prefix;
use crate::served::Served;
use crate::words::push_word;
use cn_proto::Plan;
use std::alloc::{AllocError, Global};

/// The program of a plan in Rust: one file for Rust 1.63 or later that needs `core` alone.
///
/// It has a trait `Object` with `apply` and `read`, and a struct `Consensus`, whose `processes` makes
/// a decision and a handle `Process` for each process. The `decide` of a handle takes the steps of
/// the plan: at each place of the path it writes its value, applies its operation, reads the object,
/// and takes the value of the team that was first. It uses the handle up. An `Election` decides on
/// values of any type, and `check_object` tries objects against the table of the type.
///
/// With an object the program also has its table, and a struct `Universal`: a wait-free object of
/// this type for the processes, as a log of decisions.
///
/// States, operations, responses, processes, nodes and roles are numbers, and tables tell the
/// names. Names consist of lower case letters, digits and underscores, and stand in texts and
/// comments alone: so none of them ends one, and none is taken for a word of the language.
///
/// # Errors
///
/// `AllocError` if memory runs out.
pub fn as_rust(alloc: Global, plan: &Plan, object: Option<&Served>) -> Result<String, AllocError>
    // promise: programs-of-a-plan (rust_text)
    ensures { IfOk result (λ text. string_bytes text
        ≡ rust_text plan.now (option_copied object.entry)) }
{
    code_of(alloc, Language::Rust, plan, object)
}

/// The program of a plan in C: one file of C11 or C++20 with headers of the standard alone.
///
/// Without a prefix its names begin with `consensus`, and its functions are `static inline`: the file
/// is to be included. With a prefix its names begin with that, and other files can call its
/// functions ([`as_header`]).
///
/// It has a struct `consensus_object` with `apply` and `read`, and a struct `consensus`, of which
/// `consensus_processes` makes the handle of each process, and `consensus_decide` takes its steps.
/// Else it is as the text of [`as_rust`].
///
/// # Errors
///
/// `AllocError` if memory runs out.
pub fn as_c(
    alloc: Global,
    plan: &Plan,
    object: Option<&Served>,
    prefix: Option<&Prefix>,
) -> Result<String, AllocError>
    // promise: programs-of-a-plan (c_text)
    ensures { IfOk result (λ text. string_bytes text
        ≡ c_text plan.now (option_copied object.entry) (option_copied prefix.entry)) }
{
    let text = code_of(alloc, Language::C, plan, object)?;
    named(alloc, text.as_str(), prefix)
}

/// The header of the program of a plan in C with a prefix: what [`as_c`] declares.
///
/// # Errors
///
/// `AllocError` if memory runs out.
pub fn as_header(
    alloc: Global,
    plan: &Plan,
    object: Option<&Served>,
    prefix: &Prefix,
) -> Result<String, AllocError>
    // promise: programs-of-a-plan (header_text)
    ensures { IfOk result (λ text. string_bytes text
        ≡ header_text plan.now (option_copied object.entry) prefix.now) }
{
    let text = head_of(alloc, plan, object)?;
    named_with(alloc, text.as_str(), prefix)
}

/// What a header has, with marks.
fn head_of(alloc: Global, plan: &Plan, object: Option<&Served>) -> Result<String, AllocError>
    ensures { IfOk result (λ text. string_bytes text
        ≡ head_code C plan.now (option_copied object.entry)) }
{
    let mut text = String::new(alloc);
    push_head(&mut text, Language::C, plan, object)?;
    Ok(text)
}

#[tactic(auto, unfolding(crate::specs::Code::code_text))]
fn code_of(
    alloc: Global,
    language: Language,
    plan: &Plan,
    object: Option<&Served>,
) -> Result<String, AllocError>
    ensures { IfOk result (λ text. string_bytes text
        ≡ code_text language plan.now (option_copied object.entry)) }
{
    let mut text = String::new(alloc);
    push_head(&mut text, language, plan, object)?;
    push_tables(&mut text, language, plan)?;
    push_object_tables(&mut text, language, object)?;
    push_program(&mut text, language, Form::Tournament, object)?;
    Ok(text)
}

/// Up to the tables.
fn push_head(
    text: &mut String,
    language: Language,
    plan: &Plan,
    object: Option<&Served>,
) -> Result<(), AllocError>
    ensures { OnOk result (string_bytes text.new ≡ string_bytes text.old
        ++ head_code language plan.now (option_copied object.entry)) }
{
    let name = plan.table().name();
    push_title(text, language, name, plan.processes(), object)?;
    push_intro(text, language, Form::Tournament, object)?;
    push_counts(text, language, counts_of(plan))?;
    push_interface(text, language, Form::Tournament, object)
}

/// The numbers of the program.
fn counts_of(plan: &Plan) -> Counts
    ensures { result ≡ counts_of plan.now }
{
    let processes = plan.processes();
    Counts {
        processes,
        nodes: plan.nodes(),
        teams: 2,
        steps: 4 * (processes - 1),
    }
}

/// The tables of the type, the places of the processes and the judgements of the roles.
fn push_tables(text: &mut String, language: Language, plan: &Plan) -> Result<(), AllocError>
    ensures { OnOk result (string_bytes text.new
        ≡ string_bytes text.old ++ tables_code language plan.now) }
{
    push_table(text, language, Whose::OfType, plan.table())?;
    push_starts(text, language, plan)?;
    push_places(text, language, plan)?;
    push_judgements(text, language, plan)
}

/// The state in which the object of each node starts.
#[tactic(auto, using(cn_table::proofs::Lines::lines_more))]
fn push_starts(text: &mut String, language: Language, plan: &Plan) -> Result<(), AllocError>
    ensures { OnOk result (string_bytes text.new
        ≡ string_bytes text.old ++ starts_code language plan.now) }
{
    push_word(text, language, Part::Starts)?;
    for node in 0..plan.nodes() {
        push_start_line(text, language, plan.table(), plan.start(), node)?;
    }
    Ok(())
}
