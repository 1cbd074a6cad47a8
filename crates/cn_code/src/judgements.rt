//! The table of judgements.
ghost use Rattle.std.specs.Prelude.{◌≡◌, ◌<◌, ◌++◌, OnOk, length, string_bytes};
ghost use Rattle.cn_proto.specs.Plan.{processes_of};
ghost use Rattle.cn_code.specs.Code.{cell_code, cells_code, judgements_code, response_code, role_code, role_head, row_code, rows_code};
ghost use Rattle.cn_code.specs.Code.{state_of_a, states_of_a};

use crate::language::{Form, Language, OwnPart, Part, TournamentPart};
use crate::words::{push_comma, push_number, push_own, push_team, push_text, push_word};
use cn_choice::Team;
use cn_proto::Plan;
use cn_table::{Response, State};
use std::alloc::AllocError;

/// The judgements of all roles.
#[tactic(auto, using(cn_table::proofs::Lines::lines_more))]
pub(crate) fn push_judgements(
    text: &mut String,
    language: Language,
    plan: &Plan,
) -> Result<(), AllocError>
    ensures { OnOk result (string_bytes text.new
        ≡ string_bytes text.old ++ judgements_code language plan.now) }
{
    push_own(text, language, Form::Tournament, OwnPart::Judgements)?;
    for role in 0..plan.processes() {
        push_role(text, language, plan, role)?;
    }
    Ok(())
}

/// The judgements of a role.
fn push_role(text: &mut String, language: Language, plan: &Plan, role: u8) -> Result<(), AllocError>
    requires { role < processes_of plan.now }
    ensures { OnOk result (string_bytes text.new
        ≡ string_bytes text.old ++ role_code language plan.now role) }
{
    push_role_head(text, language, plan, role)?;
    push_rows(text, language, plan, role)?;
    push_word(text, language, Part::JudgementEnd)
}

/// The number of a role, and the name of its operation.
fn push_role_head(
    text: &mut String,
    language: Language,
    plan: &Plan,
    role: u8,
) -> Result<(), AllocError>
    requires { role < processes_of plan.now }
    ensures { OnOk result (string_bytes text.new
        ≡ string_bytes text.old ++ role_head language plan.now role) }
{
    let operation = plan.table().operation_name(plan.operation(role));
    push_number(
        text,
        language,
        Part::InTournament(TournamentPart::RoleNumber),
        role,
    )?;
    push_text(
        text,
        language,
        Part::InTournament(TournamentPart::RoleOperation),
        operation,
    )?;
    push_word(text, language, Part::JudgementStart)
}

#[tactic(auto, using(cn_table::proofs::Lines::lines_more))]
fn push_rows(text: &mut String, language: Language, plan: &Plan, role: u8) -> Result<(), AllocError>
    requires { role < processes_of plan.now }
    ensures { OnOk result (string_bytes text.new
        ≡ string_bytes text.old ++ rows_code language plan.now role) }
{
    for response in 0..plan.table().responses() {
        push_row(text, language, plan, role, Response(response))?;
    }
    Ok(())
}

/// The judgements of a role for a response.
fn push_row(
    text: &mut String,
    language: Language,
    plan: &Plan,
    role: u8,
    response: Response,
) -> Result<(), AllocError>
    requires role { role < processes_of plan.now }
    requires response { response.0 < length plan.now.table.responses }
    ensures { OnOk result (string_bytes text.new
        ≡ string_bytes text.old ++ row_code language plan.now role response.0) }
{
    push_own(text, language, Form::Tournament, OwnPart::Row)?;
    push_cells(text, language, plan, role, response)?;
    push_response(text, language, plan, role, response)
}

#[tactic(auto, using(cn_table::proofs::Lines::lines_more))]
fn push_cells(
    text: &mut String,
    language: Language,
    plan: &Plan,
    role: u8,
    response: Response,
) -> Result<(), AllocError>
    requires { role < processes_of plan.now }
    ensures { OnOk result (string_bytes text.new
        ≡ string_bytes text.old ++ cells_code language plan.now role response.0) }
{
    for state in 0..plan.table().states() {
        push_cell(text, language, plan, role, response, State(state))?;
    }
    Ok(())
}

/// The team that came first, for a response and a state.
fn push_cell(
    text: &mut String,
    language: Language,
    plan: &Plan,
    role: u8,
    response: Response,
    state: State,
) -> Result<(), AllocError>
    requires { role < processes_of plan.now }
    ensures { OnOk result (string_bytes text.new
        ≡ string_bytes text.old ++ cell_code language plan.now role response.0 state.0) }
{
    push_comma(text, state.0)?;
    push_team(text, language, plan.judge(role, response, state))
}

/// The name of a response, and of the states for which team A was first.
fn push_response(
    text: &mut String,
    language: Language,
    plan: &Plan,
    role: u8,
    response: Response,
) -> Result<(), AllocError>
    requires role { role < processes_of plan.now }
    requires response { response.0 < length plan.now.table.responses }
    ensures { OnOk result (string_bytes text.new
        ≡ string_bytes text.old ++ response_code language plan.now role response.0) }
{
    let name = plan.table().response_name(response);
    push_text(
        text,
        language,
        Part::Own(Form::Tournament, OwnPart::ResponseName),
        name,
    )?;
    text.push_str(":")?;
    push_states_of_a(text, plan, role, response)?;
    push_word(text, language, Part::LineEnd)
}

#[tactic(auto, using(cn_table::proofs::Lines::lines_more))]
fn push_states_of_a(
    text: &mut String,
    plan: &Plan,
    role: u8,
    response: Response,
) -> Result<(), AllocError>
    requires { role < processes_of plan.now }
    ensures { OnOk result (string_bytes text.new
        ≡ string_bytes text.old ++ states_of_a plan.now role response.0) }
{
    for state in 0..plan.table().states() {
        push_state_of_a(text, plan, role, response, State(state))?;
    }
    Ok(())
}

fn push_state_of_a(
    text: &mut String,
    plan: &Plan,
    role: u8,
    response: Response,
    state: State,
) -> Result<(), AllocError>
    requires role { role < processes_of plan.now }
    requires state { state.0 < length plan.now.table.states }
    ensures { OnOk result (string_bytes text.new
        ≡ string_bytes text.old ++ state_of_a plan.now role response.0 state.0) }
{
    match plan.judge(role, response, state) {
        Team::A => write!(text, " {}", plan.table().state_name(state)),
        Team::B => Ok(()),
    }
}
