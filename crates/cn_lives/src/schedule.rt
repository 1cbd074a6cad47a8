//! Whole schedules: lists of steps and crashes.
ghost use Rattle.std.specs.Prelude.{◌≡◌, ◌⊎◌, ◌<◌, [], All, length, nat_le, position};
ghost use Rattle.std.specs.Prelude.{Err, IfErr, IfOk, OnOk, None, Some};
ghost use Rattle.cn_proto.specs.Plan.{processes_of};
ghost use Rattle.cn_agree.specs.Schedules.{schedule_fault};
ghost use Rattle.cn_agree.specs.declared.fault.ScheduleFault.{ScheduleFault as FaultOf};
ghost use Rattle.cn_agree.specs.declared.fault.ScheduleFault.TheVariants.{OutOfMemory};
ghost use Rattle.cn_lives.specs.Lives.{world_of};
ghost use Rattle.cn_lives.specs.Runs.{AreLivesOf, LiveBy, after_event, after_events};
ghost use Rattle.cn_lives.specs.Runs.{decisions_after, decisions_of, first_world};
ghost use Rattle.cn_lives.specs.Schedules.{named, process_of};

use crate::laws::recording_plans_are_sound;
use crate::lives::Lives;
use crate::plan::RecordingPlan;
use cn_agree::{Decided, ScheduleFault};
use std::alloc::{AllocError, Global};

/// An event of a schedule: a process takes a step, or crashes.
#[derive(Clone, Copy, Debug, PartialEq, Eq)]
pub enum Event {
    /// This process takes a step.
    Step(u8),
    /// This process crashes.
    Crash(u8),
}

impl Event {
    /// The process of the event.
    pub fn process(self) -> u8
        // promise: refusals-of-lives
        ensures { result ≡ process_of self }
    {
        match self {
            Event::Step(p) | Event::Crash(p) => p,
        }
    }
}

/// The first place of a schedule that names no process, for this number of processes.
fn stranger_at(processes: u8, schedule: &[Event]) -> Option<usize>
    ensures { result ≡ position (λ p. nat_le processes p) (named schedule.now) }
{
    schedule
        .iter()
        .map(|event| event.process())
        .position(|p| p >= processes)
}

/// The first fault of inputs and a schedule for the processes of a plan.
fn fault_of(plan: &RecordingPlan, inputs: &[u64], schedule: &[Event]) -> Option<ScheduleFault>
    ensures { result ≡ schedule_fault (processes_of plan.now.plan) inputs.now (named schedule.now) }
{
    let processes = plan.plan().processes();
    if inputs.len() != usize::from(processes) {
        return Some(ScheduleFault::InputCount);
    }
    let place = stranger_at(processes, schedule)?;
    Some(ScheduleFault::NoSuchProcess(place as u64))
}

/// The event of a schedule.
pub(crate) fn take_event(plan: &RecordingPlan, lives: &mut Lives, event: Event)
    requires of_plan { LiveBy plan.now (world_of lives.old) }
    requires process { process_of event < processes_of plan.now.plan }
    ensures world { world_of lives.new ≡ after_event plan.now (world_of lives.old) event }
    ensures of_plan { LiveBy plan.now (world_of lives.new) }
{
    match event {
        Event::Step(p) => lives.step(plan, p),
        Event::Crash(p) => lives.crash(plan, p),
    }
}

/// The events of a schedule, in order.
fn take_all(plan: &RecordingPlan, lives: &mut Lives, schedule: &[Event])
    requires of_plan { LiveBy plan.now (world_of lives.old) }
    requires schedule { All (λ e. process_of e < processes_of plan.now.plan) schedule.now }
    ensures world { world_of lives.new
        ≡ after_events plan.now schedule.now (world_of lives.old) }
    ensures of_plan { LiveBy plan.now (world_of lives.new) }
{
    for event in schedule {
        take_event(plan, lives, *event);
    }
}

/// The decision of each of this number of processes.
pub(crate) fn decisions_of(
    alloc: Global,
    lives: &Lives,
    processes: u8,
) -> Result<Vec<Option<u64>>, AllocError>
    requires { processes ≡ length (world_of lives.now).locals }
    ensures { IfOk result (λ decisions. decisions.items ≡ decisions_of (world_of lives.now)) }
{
    let mut decisions = Vec::new(alloc);
    for p in 0..processes {
        decisions.push(lives.decision(p))?;
    }
    Ok(decisions)
}

/// Lives in which nothing has happened, if the inputs and the schedule have no fault.
pub(crate) fn first_lives(
    alloc: Global,
    plan: &RecordingPlan,
    inputs: &[u64],
    schedule: &[Event],
) -> Result<Lives, ScheduleFault>
    ensures world { IfOk result (λ lives. world_of lives ≡ first_world plan.now inputs.now) }
    ensures of_plan { IfOk result (λ lives. AreLivesOf plan.now [] (world_of lives)) }
    ensures run { OnOk result (schedule_fault (processes_of plan.now.plan) inputs.now
        (named schedule.now) ≡ None) }
    ensures told { (e : FaultOf)
        → schedule_fault (processes_of plan.now.plan) inputs.now (named schedule.now) ≡ Some e
        → result ≡ Err e }
    ensures refused { IfErr result (λ e. (e ≡ OutOfMemory)
        ⊎ (schedule_fault (processes_of plan.now.plan) inputs.now (named schedule.now)
        ≡ Some e)) }
{
    if let Some(fault) = fault_of(plan, inputs, schedule) {
        return Err(fault);
    }
    Ok(Lives::new(alloc, plan, inputs)?)
}

/// The decisions after a schedule of steps and crashes. Process p begins with `inputs[p]`, and
/// again after each crash.
///
/// A schedule is a list of events, of any processes in any number and any order. A process that has
/// decided takes no step, until it crashes.
///
/// Under every schedule this is consensus, by a law of `cn_life_laws` (`lives_reach_consensus`):
///
/// - all decisions that are ever made are equal, also those of one process before and after a
///   crash;
/// - each is the input of a process that has taken a step, or of the one that has decided;
/// - a process that takes 6(n-1) steps without a crash of its own has decided, for n processes.
///
/// # Errors
///
/// `InputCount` if the number of inputs is not the number of processes; else `NoSuchProcess` with
/// the first place of the schedule that names no process. The call answers these before it takes
/// memory. `OutOfMemory` comes only in place of the decisions.
pub fn run_lives(
    alloc: Global,
    plan: &RecordingPlan,
    inputs: &[u64],
    schedule: &[Event],
) -> Result<Decided, ScheduleFault>
    // promise: decisions-of-lives (decisions_after)
    ensures decisions { IfOk result (λ d. d.decisions
        ≡ decisions_after plan.now inputs.now schedule.now) }
    // promise: refusals-of-lives
    ensures run { OnOk result (schedule_fault (processes_of plan.now.plan) inputs.now
        (named schedule.now) ≡ None) }
    // promise: refusals-of-lives
    ensures told { (e : FaultOf)
        → schedule_fault (processes_of plan.now.plan) inputs.now (named schedule.now) ≡ Some e
        → result ≡ Err e }
    // promise: refusals-of-lives (schedule_fault)
    ensures refused { IfErr result (λ e. (e ≡ OutOfMemory)
        ⊎ (schedule_fault (processes_of plan.now.plan) inputs.now (named schedule.now)
        ≡ Some e)) }
{
    recording_plans_are_sound(plan);
    let mut lives = first_lives(alloc, plan, inputs, schedule)?;
    take_all(plan, &mut lives, schedule);
    Ok(Decided {
        decisions: decisions_of(alloc, &lives, plan.plan().processes())?,
    })
}
