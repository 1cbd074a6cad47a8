//! Plans of recording witnesses.
ghost use Rattle.std.specs.Prelude.{◌≡◌, ◌<◌, ◌↔◌, IfOk, IsTrue, length};
ghost use Rattle.cn_choice.specs.Canonical.{FitsTable, raw_choice_of};
ghost use Rattle.cn_choice.specs.declared.team.Team.TheVariants.{A};
ghost use Rattle.cn_outcomes.specs.LeftStates.{LeavesIn};
ghost use Rattle.cn_recover.specs.Recording.{IsRecordingWitness};
ghost use Rattle.cn_lives.specs.Plans.{AreTeamsOf, IsRecordingPlan, IsRecordingPlanned};
ghost use Rattle.cn_lives.specs.Plans.{exchanged, is_lone, judge};

use crate::fault::RecordingFault;
use cn_choice::{Choice, RawChoice, Team};
use cn_outcomes::{Bits, left_states};
use cn_proto::laws::plans_are_sound;
use cn_proto::{Plan, PlanFault};
use cn_recover::is_recording_witness;
use cn_recover::laws::{recording_witness_is_witness, renumbering};
use cn_table::{State, Table};
use std::alloc::{AllocError, Global};
use std::marker::Model;

/// The plan of a recording witness, and for each state the team that came first.
#[derive(Drop)]
pub struct RecordingPlan {
    plan: Plan,
    first_teams: Vec<Team>,
}

impl Model for RecordingPlan {
    ghost use Rattle.cn_lives.specs.Plans.{IsRecordingPlan, RecordingPlan};

    ghost Value = { RecordingPlan };

    ghost view = { λ p. record { plan = p.plan; first_teams = p.first_teams.items } };

    ghost invariant = { λ p. IsRecordingPlan
        (record { plan = p.plan; first_teams = p.first_teams.items }) };
}

impl RecordingPlan {
    /// The plan of a recording witness. If an order that begins in team A leaves the start state,
    /// it is that of the witness with the teams exchanged.
    ///
    /// The choice is one of the table, for 2 to [`MOST_PROCESSES`](cn_choice::MOST_PROCESSES)
    /// processes.
    ///
    /// # Errors
    ///
    /// `NotRecording` if the choice is no recording witness. `OutOfMemory` can come in place of a
    /// plan.
    pub fn from_witness(
        alloc: Global,
        table: &Table,
        choice: &Choice,
    ) -> Result<RecordingPlan, RecordingFault>
        requires { FitsTable table.now choice.now }
        // promise: recording-plan (IsRecordingPlanned: IsHomeForm)
        ensures { IsRecordingPlanned table.now choice.now result }
    {
        renumbering();
        if !is_recording_witness(table, choice) {
            return Err(RecordingFault::NotRecording);
        }
        if comes_back(table, choice) {
            Ok(plan_of(alloc, table, &exchanged(choice))?)
        } else {
            Ok(plan_of(alloc, table, choice)?)
        }
    }

    /// The plan of the witness: its table, and the paths and operations of its processes.
    pub fn plan(&self) -> &Plan
        // promise: parts-of-a-recording-plan
        ensures { result.now ≡ self.now.plan }
    {
        &self.plan
    }

    /// The team that came first at a node, by the state of its object.
    pub fn judge(&self, state: State) -> Team
        requires { state.0 < length self.now.plan.table.states }
        // promise: parts-of-a-recording-plan
        ensures { result ≡ judge self.now state.0 }
    {
        self.first_teams[usize::from(state.0)]
    }

    /// Whether team A is one process alone.
    pub fn is_lone(&self) -> bool
        // promise: parts-of-a-recording-plan
        ensures { result ≡ is_lone self.now }
    {
        plans_are_sound(&self.plan);
        self.plan.team(1) == Team::B
    }

    /// Reads nothing of the plan: so its invariant is known.
    pub(crate) fn touch(&self)
        ensures { IsRecordingPlan self.now }
    {
        let _ = &self.first_teams;
    }
}

/// Whether an order that begins in team A leaves the start state.
fn comes_back(table: &Table, choice: &Choice) -> bool
    requires { FitsTable table.now choice.now }
    ensures { IsTrue result
        ↔ LeavesIn table.now (raw_choice_of choice.now) A choice.now.state }
{
    left_states(table, &RawChoice::of(choice), Team::A).contains(choice.state.0)
}

/// The same choice with the teams exchanged.
fn exchanged(choice: &Choice) -> Choice
    ensures { result ≡ exchanged choice.now }
{
    let Choice { state, a, b } = choice.copy();
    Choice { state, a: b, b: a }
}

/// The plan of a recording witness none of whose orders that begin in team A leaves the start
/// state.
fn plan_of(alloc: Global, table: &Table, choice: &Choice) -> Result<RecordingPlan, AllocError>
    requires fits { FitsTable table.now choice.now }
    requires recording { IsRecordingWitness table.now (raw_choice_of choice.now) }
    requires home { ¬ LeavesIn table.now (raw_choice_of choice.now) A choice.now.state }
    ensures table { IfOk result (λ p. p.plan.table ≡ table.now) }
    ensures choice { IfOk result (λ p. p.plan.choice ≡ choice.now) }
{
    let plan = witness_plan(alloc, table, choice)?;
    plans_are_sound(&plan);
    let left_by_a = left_states(table, &RawChoice::of(choice), Team::A);
    let first_teams = teams_of(alloc, left_by_a, table.states())?;
    Ok(RecordingPlan { plan, first_teams })
}

/// The plan of a recording witness, as of a witness.
fn witness_plan(alloc: Global, table: &Table, choice: &Choice) -> Result<Plan, AllocError>
    requires fits { FitsTable table.now choice.now }
    requires recording { IsRecordingWitness table.now (raw_choice_of choice.now) }
    ensures table { IfOk result (λ plan. plan.table ≡ table.now) }
    ensures choice { IfOk result (λ plan. plan.choice ≡ choice.now) }
{
    recording_witness_is_witness();
    match Plan::from_witness(alloc, table, choice) {
        Ok(plan) => Ok(plan),
        Err(PlanFault::OutOfMemory) => Err(AllocError),
        // A recording witness is a witness.
        Err(PlanFault::Meets(_)) => unreachable!(),
    }
}

/// For each of this many states team A if the state is in the set, else team B.
fn teams_of(alloc: Global, set: Bits, states: u8) -> Result<Vec<Team>, AllocError>
    ensures { IfOk result (λ teams. AreTeamsOf set states teams.items) }
{
    let mut teams = Vec::new(alloc);
    for state in 0..states {
        teams.push(if set.contains(state) {
            Team::A
        } else {
            Team::B
        })?;
    }
    Ok(teams)
}
