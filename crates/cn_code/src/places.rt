//! The table of places.
ghost use Rattle.std.specs.Prelude.{◌≡◌, ◌<◌, ◌++◌, OnOk, string_bytes};
ghost use Rattle.cn_proto.specs.Plan.{processes_of, protocol_of};
ghost use Rattle.cn_proto.specs.Protocol.{place_of};
ghost use Rattle.cn_proto.specs.Sound.{IsPlace};
ghost use Rattle.cn_code.specs.Code.{act_code, path_code, place_code, places_code, stand_code};

use crate::frame::push_places_word;
use crate::language::{Form, Language, Part, TournamentPart};
use crate::words::{push_number, push_team, push_text, push_word};
use cn_proto::laws::plans_are_sound;
use cn_proto::{Place, Plan};
use std::alloc::AllocError;

/// The places of all processes.
#[tactic(auto, using(cn_table::proofs::Lines::lines_more))]
pub(crate) fn push_places(
    text: &mut String,
    language: Language,
    plan: &Plan,
) -> Result<(), AllocError>
    ensures { OnOk result (string_bytes text.new
        ≡ string_bytes text.old ++ places_code language plan.now) }
{
    push_places_word(text, language, Form::Tournament)?;
    for process in 0..plan.processes() {
        push_path(text, language, plan, process)?;
    }
    Ok(())
}

/// The places of a process, from its lowest node to the root.
#[tactic(auto, using(cn_table::proofs::Lines::lines_more))]
fn push_path(
    text: &mut String,
    language: Language,
    plan: &Plan,
    process: u8,
) -> Result<(), AllocError>
    requires { process < processes_of plan.now }
    ensures { OnOk result (string_bytes text.new
        ≡ string_bytes text.old ++ path_code language plan.now process) }
{
    for place in 0..plan.path(process).len() {
        push_place(text, language, plan, process, place)?;
    }
    Ok(())
}

fn push_place(
    text: &mut String,
    language: Language,
    plan: &Plan,
    process: u8,
    place: usize,
) -> Result<(), AllocError>
    requires { IsPlace (protocol_of plan.now) (processes_of plan.now) process place }
    ensures { OnOk result (string_bytes text.new
        ≡ string_bytes text.old ++ place_code language plan.now process place) }
{
    let here = place_at(plan, process, place);
    push_stand(text, language, process, here)?;
    push_act(text, language, plan, here.role)
}

/// A place of a path, whose role is one of the plan's.
fn place_at(plan: &Plan, process: u8, place: usize) -> Place
    requires { IsPlace (protocol_of plan.now) (processes_of plan.now) process place }
    ensures place { result ≡ place_of (protocol_of plan.now) process place }
    ensures role { result.role < processes_of plan.now }
{
    plans_are_sound(plan);
    plan.path(process)[place]
}

/// The process, its node and its team there.
fn push_stand(
    text: &mut String,
    language: Language,
    process: u8,
    here: Place,
) -> Result<(), AllocError>
    ensures { OnOk result (string_bytes text.new
        ≡ string_bytes text.old ++ stand_code language process here) }
{
    push_number(text, language, Part::ProcessField, process)?;
    push_number(text, language, Part::NodeField, here.node)?;
    push_word(text, language, Part::TeamField)?;
    push_team(text, language, here.team)
}

/// The role and its operation, up to the end of the line.
fn push_act(text: &mut String, language: Language, plan: &Plan, role: u8) -> Result<(), AllocError>
    requires { role < processes_of plan.now }
    ensures { OnOk result (string_bytes text.new
        ≡ string_bytes text.old ++ act_code language plan.now role) }
{
    let operation = plan.operation(role);
    push_number(
        text,
        language,
        Part::InTournament(TournamentPart::RoleField),
        role,
    )?;
    push_number(text, language, Part::OperationField, operation.0)?;
    push_text(
        text,
        language,
        Part::OperationName,
        plan.table().operation_name(operation),
    )?;
    push_word(text, language, Part::LineEnd)
}
