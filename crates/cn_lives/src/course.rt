//! Whole schedules, and what each of their events does.
ghost use Rattle.std.specs.Prelude.{◌≡◌, ◌⊎◌, ◌<◌, All, IfErr, IfOk, OnOk, Err, None, Some};
ghost use Rattle.cn_proto.specs.Plan.{processes_of};
ghost use Rattle.cn_agree.specs.Schedules.{schedule_fault};
ghost use Rattle.cn_agree.specs.declared.fault.ScheduleFault.{ScheduleFault as FaultOf};
ghost use Rattle.cn_agree.specs.declared.fault.ScheduleFault.TheVariants.{OutOfMemory};
ghost use Rattle.cn_lives.specs.Courses.{AreOfTable, IsOfTable, event_action, records_from, records_of};
ghost use Rattle.cn_lives.specs.Lives.{world_of};
ghost use Rattle.cn_lives.specs.Runs.{LiveBy, after_events, decisions_after};
ghost use Rattle.cn_lives.specs.Schedules.{named, process_of};

use crate::laws::recording_plans_are_sound;
use crate::life_action::{LifeAction, LifeRecord};
use crate::lives::Lives;
use crate::plan::RecordingPlan;
use crate::schedule::{Event, decisions_of, first_lives, take_event};
use cn_agree::ScheduleFault;
use std::alloc::{AllocError, Global};
use std::marker::Model;

/// What each event of a schedule does, and the decisions after it.
#[derive(Drop)]
pub struct LifeCourse {
    /// Each event, in order.
    pub records: Vec<LifeRecord>,
    /// For each process its decision, or none.
    pub decisions: Vec<Option<u64>>,
}

impl Model for LifeCourse {
    ghost use Rattle.cn_lives.specs.Courses.{LifeCourse};

    ghost Value = { LifeCourse };

    ghost view = { λ c. record { records = c.records.items; decisions = c.decisions.items } };
}

/// What the process of an event does in it.
fn event_action(plan: &RecordingPlan, lives: &Lives, event: Event) -> LifeAction
    requires of_plan { LiveBy plan.now (world_of lives.now) }
    requires process { process_of event < processes_of plan.now.plan }
    ensures action { result ≡ event_action plan.now (world_of lives.now) event }
    ensures table { IsOfTable plan.now.plan.table result }
{
    match event {
        Event::Step(p) => lives.next_action(plan, p),
        Event::Crash(p) => LifeAction::Crash {
            forgets: lives.memory(plan, p),
        },
    }
}

/// The events of a schedule, in order, with what each does.
fn record_all(
    alloc: Global,
    plan: &RecordingPlan,
    lives: &mut Lives,
    schedule: &[Event],
) -> Result<Vec<LifeRecord>, AllocError>
    requires of_plan { LiveBy plan.now (world_of lives.old) }
    requires schedule { All (λ e. process_of e < processes_of plan.now.plan) schedule.now }
    ensures records { IfOk result (λ records. records.items
        ≡ records_from plan.now schedule.now (world_of lives.old)) }
    ensures table { IfOk result (λ records. AreOfTable plan.now.plan.table records.items) }
    ensures world { OnOk result (world_of lives.new
        ≡ after_events plan.now schedule.now (world_of lives.old)) }
    ensures of_plan { LiveBy plan.now (world_of lives.new) }
{
    let mut records = Vec::new(alloc);
    for event in schedule {
        let action = event_action(plan, lives, *event);
        records.push(LifeRecord {
            process: event.process(),
            action,
        })?;
        take_event(plan, lives, *event);
    }
    Ok(records)
}

/// What each event of a schedule of steps and crashes does, and the decisions after it. Process p
/// begins with `inputs[p]`, and again after each crash.
///
/// The decisions are those of [`run_lives`](crate::run_lives).
///
/// # Errors
///
/// Those of [`run_lives`](crate::run_lives).
pub fn run_life_steps(
    alloc: Global,
    plan: &RecordingPlan,
    inputs: &[u64],
    schedule: &[Event],
) -> Result<LifeCourse, ScheduleFault>
    // promise: steps-of-lives (records_of)
    ensures records { IfOk result (λ c. c.records ≡ records_of plan.now inputs.now schedule.now) }
    // promise: steps-of-lives (AreOfTable)
    ensures table { IfOk result (λ c. AreOfTable plan.now.plan.table c.records) }
    // promise: steps-of-lives
    ensures decisions { IfOk result (λ c. c.decisions
        ≡ decisions_after plan.now inputs.now schedule.now) }
    // promise: refusals-of-lives
    ensures run { OnOk result (schedule_fault (processes_of plan.now.plan) inputs.now
        (named schedule.now) ≡ None) }
    // promise: refusals-of-lives
    ensures told { (e : FaultOf)
        → schedule_fault (processes_of plan.now.plan) inputs.now (named schedule.now) ≡ Some e
        → result ≡ Err e }
    // promise: refusals-of-lives (schedule_fault)
    ensures refused { IfErr result (λ e. (e ≡ OutOfMemory)
        ⊎ (schedule_fault (processes_of plan.now.plan) inputs.now (named schedule.now)
        ≡ Some e)) }
{
    recording_plans_are_sound(plan);
    let mut lives = first_lives(alloc, plan, inputs, schedule)?;
    let records = record_all(alloc, plan, &mut lives, schedule)?;
    Ok(LifeCourse {
        records,
        decisions: decisions_of(alloc, &lives, plan.plan().processes())?,
    })
}
