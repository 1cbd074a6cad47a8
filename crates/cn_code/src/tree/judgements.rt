//! The table of judgements.
ghost use Rattle.std.specs.Prelude.{◌≡◌, ◌<◌, ◌++◌, All, OnOk, length, string_bytes};
ghost use Rattle.cn_code.specs.Trees.{judgement_at, judgement_code, tree_cell, tree_cells};
ghost use Rattle.cn_code.specs.Trees.{tree_judgements, tree_row, tree_rows};
ghost use Rattle.cn_code.specs.TreeJudgements.{IsSeat};

use crate::language::{Language, OwnPart, Part, TreePart};
use crate::tree::head::form_of;
use crate::tree::seats::{Seat, columns, team_first};
use crate::words::{push_comma, push_count, push_own, push_text, push_word};
use cn_table::Response;
use cn_tree_plans::TreePlan;
use std::alloc::AllocError;

/// The judgements of these processes.
#[tactic(auto, using(cn_table::proofs::Lines::lines_more))]
pub(crate) fn push_judgements(
    text: &mut String,
    language: Language,
    plan: &TreePlan,
    judges: &[Seat],
) -> Result<(), AllocError>
    requires { All (IsSeat plan.now) judges.now }
    ensures { OnOk result (string_bytes text.new
        ≡ string_bytes text.old ++ tree_judgements language plan.now judges.now) }
{
    push_own(text, language, form_of(plan), OwnPart::Judgements)?;
    for number in 0..judges.len() {
        push_judgement_at(text, language, plan, judges, number)?;
    }
    Ok(())
}

fn push_judgement_at(
    text: &mut String,
    language: Language,
    plan: &TreePlan,
    judges: &[Seat],
    number: usize,
) -> Result<(), AllocError>
    requires seats { All (IsSeat plan.now) judges.now }
    requires number { number < length judges.now }
    ensures { OnOk result (string_bytes text.new
        ≡ string_bytes text.old ++ judgement_at language plan.now judges.now number) }
{
    push_judgement(text, language, plan, judges[number], number)
}

/// The judgement of a process, with its number in a comment.
fn push_judgement(
    text: &mut String,
    language: Language,
    plan: &TreePlan,
    seat: Seat,
    number: usize,
) -> Result<(), AllocError>
    requires { IsSeat plan.now seat }
    ensures { OnOk result (string_bytes text.new
        ≡ string_bytes text.old ++ judgement_code language plan.now seat number) }
{
    push_count(
        text,
        language,
        Part::InTree(TreePart::JudgementNumber),
        number,
    )?;
    push_word(text, language, Part::JudgementStart)?;
    push_rows(text, language, plan, seat)?;
    push_word(text, language, Part::JudgementEnd)
}

#[tactic(auto, using(cn_table::proofs::Lines::lines_more))]
fn push_rows(
    text: &mut String,
    language: Language,
    plan: &TreePlan,
    seat: Seat,
) -> Result<(), AllocError>
    requires { IsSeat plan.now seat }
    ensures { OnOk result (string_bytes text.new
        ≡ string_bytes text.old ++ tree_rows language plan.now seat) }
{
    for response in 0..plan.table().responses() {
        push_row(text, language, plan, seat, Response(response))?;
    }
    Ok(())
}

/// The teams for a response, and its name.
fn push_row(
    text: &mut String,
    language: Language,
    plan: &TreePlan,
    seat: Seat,
    response: Response,
) -> Result<(), AllocError>
    requires seat { IsSeat plan.now seat }
    requires response { response.0 < length plan.now.table.responses }
    ensures { OnOk result (string_bytes text.new
        ≡ string_bytes text.old ++ tree_row language plan.now seat response.0) }
{
    let name = plan.table().response_name(response);
    push_own(text, language, form_of(plan), OwnPart::Row)?;
    push_cells(text, plan, seat, response)?;
    push_text(
        text,
        language,
        Part::Own(form_of(plan), OwnPart::ResponseName),
        name,
    )?;
    push_word(text, language, Part::LineEnd)
}

#[tactic(auto, using(cn_table::proofs::Lines::lines_more))]
fn push_cells(
    text: &mut String,
    plan: &TreePlan,
    seat: Seat,
    response: Response,
) -> Result<(), AllocError>
    requires { IsSeat plan.now seat }
    ensures { OnOk result (string_bytes text.new
        ≡ string_bytes text.old ++ tree_cells plan.now seat response.0) }
{
    for saw in 0..columns(plan, seat) {
        push_cell(text, plan, seat, response, saw)?;
    }
    Ok(())
}

/// The team that came first, for a response and what the process saw.
fn push_cell(
    text: &mut String,
    plan: &TreePlan,
    seat: Seat,
    response: Response,
    saw: u8,
) -> Result<(), AllocError>
    requires { IsSeat plan.now seat }
    ensures { OnOk result (string_bytes text.new
        ≡ string_bytes text.old ++ tree_cell plan.now seat response.0 saw) }
{
    push_comma(text, saw)?;
    write!(text, "{}", team_first(plan, seat, response, saw))
}
