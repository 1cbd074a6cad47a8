//! The table of places.
ghost use Rattle.std.specs.Prelude.{◌≡◌, ◌<◌, ◌++◌, All, OnOk, string_bytes};
ghost use Rattle.cn_meetings.specs.Meeting.{IsSightOf};
ghost use Rattle.cn_meetings.specs.Sights.{sight_of};
ghost use Rattle.cn_meetings.specs.declared.sight.Sight.TheVariants.{Response};
ghost use Rattle.cn_trees.specs.Tree.{IsPlace, processes_of};
ghost use Rattle.cn_tree_plans.specs.Paths.{place_of as place_in_memory};
ghost use Rattle.cn_tree_plans.specs.Plan.{tree_of};
ghost use Rattle.cn_code.specs.Trees.{act_names, judged_code, look_code, look_name, looks_code};
ghost use Rattle.cn_code.specs.Trees.{sight_code, sight_fields, tree_act, tree_path, tree_place};
ghost use Rattle.cn_code.specs.Trees.{tree_places, tree_stand, truth};
ghost use Rattle.cn_code.specs.TreeJudgements.{IsSeat};

use crate::frame::push_places_word;
use crate::language::{Language, Part, TreePart};
use crate::tree::head::form_of;
use crate::tree::seats::{Seat, looks, number_among, place_at, places_of, seat_at};
use crate::tree::sights::{some_read, some_response};
use crate::words::{push_count, push_number, push_text, push_word};
use cn_meetings::Sight;
use cn_table::{Operation, Table};
use cn_tree_plans::{Place, TreePlan};
use std::alloc::AllocError;

/// The places of all processes, with the numbers of their judgements among these.
#[tactic(auto, using(cn_table::proofs::Lines::lines_more))]
pub(crate) fn push_places(
    text: &mut String,
    language: Language,
    plan: &TreePlan,
    judges: &[Seat],
) -> Result<(), AllocError>
    requires { All (IsSeat plan.now) judges.now }
    ensures { OnOk result (string_bytes text.new
        ≡ string_bytes text.old ++ tree_places language plan.now judges.now) }
{
    push_places_word(text, language, form_of(plan))?;
    for process in 0..plan.processes() {
        push_path(text, language, plan, judges, process)?;
    }
    Ok(())
}

/// The places of a process, from its lowest node to the root.
#[tactic(auto, using(cn_table::proofs::Lines::lines_more))]
fn push_path(
    text: &mut String,
    language: Language,
    plan: &TreePlan,
    judges: &[Seat],
    process: u8,
) -> Result<(), AllocError>
    requires seats { All (IsSeat plan.now) judges.now }
    requires process { process < processes_of (tree_of plan.now) }
    ensures { OnOk result (string_bytes text.new
        ≡ string_bytes text.old ++ tree_path language plan.now judges.now process) }
{
    for place in 0..places_of(plan, process) {
        push_place(text, language, plan, judges, process, place)?;
    }
    Ok(())
}

fn push_place(
    text: &mut String,
    language: Language,
    plan: &TreePlan,
    judges: &[Seat],
    process: u8,
    place: usize,
) -> Result<(), AllocError>
    requires seats { All (IsSeat plan.now) judges.now }
    requires place { IsPlace (tree_of plan.now) process place }
    ensures { OnOk result (string_bytes text.new
        ≡ string_bytes text.old ++ tree_place language plan.now judges.now process place) }
{
    push_stand(text, language, process, place_at(plan, process, place))?;
    push_act(text, language, plan, judges, seat_at(plan, process, place))
}

/// The process, its node and its team there.
fn push_stand(
    text: &mut String,
    language: Language,
    process: u8,
    here: Place,
) -> Result<(), AllocError>
    ensures { OnOk result (string_bytes text.new
        ≡ string_bytes text.old ++ tree_stand language process (place_in_memory here)) }
{
    push_number(text, language, Part::ProcessField, process)?;
    push_number(text, language, Part::NodeField, here.node)?;
    push_number(text, language, Part::TeamField, here.team)
}

/// The operation, how the process looks, and its judgement.
fn push_act(
    text: &mut String,
    language: Language,
    plan: &TreePlan,
    judges: &[Seat],
    seat: Seat,
) -> Result<(), AllocError>
    requires seats { All (IsSeat plan.now) judges.now }
    requires seat { IsSeat plan.now seat }
    ensures { OnOk result (string_bytes text.new
        ≡ string_bytes text.old ++ tree_act language plan.now judges.now seat) }
{
    let operation = plan.operation(seat.node, seat.process);
    push_number(text, language, Part::OperationField, operation.0)?;
    push_sight_fields(text, language, plan, seat)?;
    push_judged(text, language, plan, judges, seat)
}

/// Its judgement, and the names of its operations, up to the end of the line.
fn push_judged(
    text: &mut String,
    language: Language,
    plan: &TreePlan,
    judges: &[Seat],
    seat: Seat,
) -> Result<(), AllocError>
    requires seats { All (IsSeat plan.now) judges.now }
    requires seat { IsSeat plan.now seat }
    ensures { OnOk result (string_bytes text.new
        ≡ string_bytes text.old ++ judged_code language plan.now judges.now seat) }
{
    let number = number_among(plan, judges, seat);
    push_count(
        text,
        language,
        Part::InTree(TreePart::JudgementField),
        number,
    )?;
    push_act_names(text, language, plan, seat)
}

/// The name of its operation, and that of the operation by which it looks.
fn push_act_names(
    text: &mut String,
    language: Language,
    plan: &TreePlan,
    seat: Seat,
) -> Result<(), AllocError>
    requires { IsSeat plan.now seat }
    ensures { OnOk result (string_bytes text.new
        ≡ string_bytes text.old ++ act_names language plan.now seat) }
{
    let operation = plan.operation(seat.node, seat.process);
    push_text(
        text,
        language,
        Part::OperationName,
        plan.table().operation_name(operation),
    )?;
    push_look_name(text, language, plan.table(), plan.sight(seat.node))?;
    push_word(text, language, Part::LineEnd)
}

fn push_look_name(
    text: &mut String,
    language: Language,
    table: &Table,
    sight: Sight,
) -> Result<(), AllocError>
    requires { IsSightOf table.now (sight_of sight) }
    ensures { OnOk result (string_bytes text.new
        ≡ string_bytes text.old ++ look_name language table.now sight) }
{
    match sight {
        Sight::State | Sight::Nothing => Ok(()),
        Sight::Response(look) => push_text(
            text,
            language,
            Part::InTree(TreePart::LookName),
            table.operation_name(look),
        ),
    }
}

/// Whether the process looks, and by which operation.
fn push_sight_fields(
    text: &mut String,
    language: Language,
    plan: &TreePlan,
    seat: Seat,
) -> Result<(), AllocError>
    requires { IsSeat plan.now seat }
    ensures { OnOk result (string_bytes text.new
        ≡ string_bytes text.old ++ sight_fields language plan.now seat) }
{
    push_looks(text, language, plan, seat)?;
    push_look(text, language, plan, seat)
}

/// Whether the process looks, if some process reads.
fn push_looks(
    text: &mut String,
    language: Language,
    plan: &TreePlan,
    seat: Seat,
) -> Result<(), AllocError>
    requires { IsSeat plan.now seat }
    ensures { OnOk result (string_bytes text.new
        ≡ string_bytes text.old ++ looks_code language plan.now seat) }
{
    if some_read(plan) {
        push_text(
            text,
            language,
            Part::InTree(TreePart::LooksField),
            truth(looks(plan, seat)),
        )
    } else {
        Ok(())
    }
}

/// The operation by which it looks, or that it looks by none, if some process looks by one.
fn push_look(
    text: &mut String,
    language: Language,
    plan: &TreePlan,
    seat: Seat,
) -> Result<(), AllocError>
    requires { IsSeat plan.now seat }
    ensures { OnOk result (string_bytes text.new
        ≡ string_bytes text.old ++ look_code language plan.now seat) }
{
    if some_response(plan) {
        push_sight(text, language, plan.sight(seat.node))
    } else {
        Ok(())
    }
}

fn push_sight(text: &mut String, language: Language, sight: Sight) -> Result<(), AllocError>
    ensures { OnOk result (string_bytes text.new
        ≡ string_bytes text.old ++ sight_code language sight) }
{
    match sight {
        Sight::State | Sight::Nothing => push_word(text, language, Part::InTree(TreePart::NoLook)),
        Sight::Response(look) => push_operation(text, language, look),
    }
}

/// The operation by which a process looks.
fn push_operation(text: &mut String, language: Language, look: Operation) -> Result<(), AllocError>
    ensures { OnOk result (string_bytes text.new
        ≡ string_bytes text.old ++ sight_code language (Response look)) }
{
    push_number(text, language, Part::InTree(TreePart::LookField), look.0)?;
    push_word(text, language, Part::InTree(TreePart::LookEnd))
}

fn truth(looks: bool) -> &'static str
    ensures { result.now ≡ truth looks }
{
    if looks { "true" } else { "false" }
}
