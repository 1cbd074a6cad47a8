//! The text of a plan tree's program.
ghost use Rattle.std.specs.Prelude.{◌≡◌, ◌++◌, All, IfOk, OnOk, option_copied, string_bytes};
ghost use Rattle.cn_code.specs.Trees.{text_with, tree_body, tree_c_text, tree_head, tree_header_text};
ghost use Rattle.cn_code.specs.Trees.{tree_rust_text, tree_tables, tree_text, tree_type};
ghost use Rattle.cn_code.specs.TreeJudgements.{IsSeat};
ghost use Rattle.cn_code.specs.declared.language.Language.TheVariants.{C};

mod head;
mod judgements;
mod places;
mod seats;
mod sights;
mod starts;

use crate::frame::push_program;
use crate::language::Language;
use crate::names::{Whose, push_table};
use crate::naming::{named, named_with};
use crate::object::push_object_tables;
use crate::prefix::Prefix;
use crate::served::Served;
use crate::tree::head::{form_of, push_head};
use crate::tree::judgements::push_judgements;
use crate::tree::places::push_places;
use crate::tree::seats::{Seat, judges_of};
use crate::tree::starts::push_starts;
use cn_tree_plans::TreePlan;
use std::alloc::{AllocError, Global};

/// The program of a plan tree in Rust: one file for Rust 1.63 or later that needs `core` alone.
///
/// It is as the program of a plan of two teams ([`as_rust`](crate::as_rust)), but for the steps of a
/// process: at each place of its path it writes its value, applies its operation, looks at the object
/// if the place says so, and takes the value of the team that was first. To look is to read the
/// object, or to apply one more operation, which changes no state. `Object` has a `read` only if some
/// process reads.
///
/// # Errors
///
/// `AllocError` if memory runs out.
pub fn tree_as_rust(
    alloc: Global,
    plan: &TreePlan,
    object: Option<&Served>,
) -> Result<String, AllocError>
    // promise: programs-of-a-plan-tree (tree_rust_text)
    ensures { IfOk result (λ text. string_bytes text
        ≡ tree_rust_text plan.now (option_copied object.entry)) }
{
    text_of(alloc, Language::Rust, plan, object)
}

/// The program of a plan tree in C: one file of C11 or C++20 with headers of the standard alone.
///
/// It is as the program of a plan of two teams ([`as_c`](crate::as_c)), but for the steps of a
/// process, which are those of [`tree_as_rust`].
///
/// # Errors
///
/// `AllocError` if memory runs out.
pub fn tree_as_c(
    alloc: Global,
    plan: &TreePlan,
    object: Option<&Served>,
    prefix: Option<&Prefix>,
) -> Result<String, AllocError>
    // promise: programs-of-a-plan-tree (tree_c_text)
    ensures { IfOk result (λ text. string_bytes text
        ≡ tree_c_text plan.now (option_copied object.entry) (option_copied prefix.entry)) }
{
    let text = text_of(alloc, Language::C, plan, object)?;
    named(alloc, text.as_str(), prefix)
}

/// The header of the program of a plan tree in C with a prefix: what [`tree_as_c`] declares.
///
/// # Errors
///
/// `AllocError` if memory runs out.
pub fn tree_as_header(
    alloc: Global,
    plan: &TreePlan,
    object: Option<&Served>,
    prefix: &Prefix,
) -> Result<String, AllocError>
    // promise: programs-of-a-plan-tree (tree_header_text)
    ensures { IfOk result (λ text. string_bytes text
        ≡ tree_header_text plan.now (option_copied object.entry) prefix.now) }
{
    let text = head_of(alloc, plan, object)?;
    named_with(alloc, text.as_str(), prefix)
}

/// What a header has, with marks.
fn head_of(alloc: Global, plan: &TreePlan, object: Option<&Served>) -> Result<String, AllocError>
    ensures { IfOk result (λ text. string_bytes text
        ≡ tree_head C plan.now (option_copied object.entry)) }
{
    let mut text = String::new(alloc);
    push_head(&mut text, Language::C, plan, object)?;
    Ok(text)
}

#[tactic(auto, unfolding(crate::specs::Trees::tree_text))]
fn text_of(
    alloc: Global,
    language: Language,
    plan: &TreePlan,
    object: Option<&Served>,
) -> Result<String, AllocError>
    ensures { IfOk result (λ text. string_bytes text
        ≡ tree_text language plan.now (option_copied object.entry)) }
{
    let judges = judges_of(alloc, plan)?;
    let mut text = String::new(alloc);
    push_text_with(&mut text, language, plan, object, judges.as_slice())?;
    Ok(text)
}

/// The text, with these judgements.
fn push_text_with(
    text: &mut String,
    language: Language,
    plan: &TreePlan,
    object: Option<&Served>,
    judges: &[Seat],
) -> Result<(), AllocError>
    requires { All (IsSeat plan.now) judges.now }
    ensures { OnOk result (string_bytes text.new ≡ string_bytes text.old
        ++ text_with language plan.now (option_copied object.entry) judges.now) }
{
    push_head(text, language, plan, object)?;
    push_body(text, language, plan, object, judges)
}

/// All behind the head.
fn push_body(
    text: &mut String,
    language: Language,
    plan: &TreePlan,
    object: Option<&Served>,
    judges: &[Seat],
) -> Result<(), AllocError>
    requires { All (IsSeat plan.now) judges.now }
    ensures { OnOk result (string_bytes text.new ≡ string_bytes text.old
        ++ tree_body language plan.now (option_copied object.entry) judges.now) }
{
    push_type(text, language, plan)?;
    push_tables(text, language, plan, object, judges)
}

/// The table of the type, and the start states.
fn push_type(text: &mut String, language: Language, plan: &TreePlan) -> Result<(), AllocError>
    ensures { OnOk result (string_bytes text.new
        ≡ string_bytes text.old ++ tree_type language plan.now) }
{
    push_table(text, language, Whose::OfType, plan.table())?;
    push_starts(text, language, plan)
}

/// The places, the judgements of these, the tables of the object, and the algorithm.
fn push_tables(
    text: &mut String,
    language: Language,
    plan: &TreePlan,
    object: Option<&Served>,
    judges: &[Seat],
) -> Result<(), AllocError>
    requires { All (IsSeat plan.now) judges.now }
    ensures { OnOk result (string_bytes text.new ≡ string_bytes text.old
        ++ tree_tables language plan.now (option_copied object.entry) judges.now) }
{
    push_places(text, language, plan, judges)?;
    push_judgements(text, language, plan, judges)?;
    push_object_tables(text, language, object)?;
    push_program(text, language, form_of(plan), object)
}
