//! Whole schedules: lists of the processes that take the steps.
ghost use Rattle.std.specs.Prelude.{◌≡◌, ◌⊎◌, ◌<◌, length, Err, IfErr, IfOk, OnOk, None, Some, nat_le, position};
ghost use Rattle.cn_proto.specs.Plan.{protocol_of, processes_of, nodes_of};
ghost use Rattle.cn_agree.specs.Actions.{AreOfTable, records_from, records_of};
ghost use Rattle.cn_agree.specs.Beginning.{AllHaveBegun, HaveBegun};
ghost use Rattle.cn_agree.specs.Consensus.{IsConsensus, IsSchedule};
ghost use Rattle.cn_agree.specs.Rounds.{RunsBy};
ghost use Rattle.cn_agree.specs.Schedules.{all_begun, decisions_of, decisions_after, schedule_fault};
ghost use Rattle.cn_agree.specs.Steps.{after_schedule, after_step};
ghost use Rattle.cn_agree.specs.declared.fault.ScheduleFault.{ScheduleFault as FaultOf};
ghost use Rattle.cn_agree.specs.declared.fault.ScheduleFault.TheVariants.{OutOfMemory};

use crate::{Round, ScheduleFault, StepRecord, laws};
use cn_proto::Plan;
use cn_proto::laws::plans_are_sound;
use std::alloc::{AllocError, Global};
use std::marker::Model;

/// The decisions after a schedule.
#[derive(Drop)]
pub struct Decided {
    /// For each process its decision, or none.
    pub decisions: Vec<Option<u64>>,
}

impl Model for Decided {
    ghost use Rattle.cn_agree.specs.Schedules.{Decided};

    ghost Value = { Decided };

    ghost view = { λ d. record { decisions = d.decisions.items } };
}

/// The steps of a schedule, and the decisions after it.
#[derive(Drop)]
pub struct Course {
    /// Each step, in order.
    pub records: Vec<StepRecord<u64>>,
    /// For each process its decision, or none.
    pub decisions: Vec<Option<u64>>,
}

impl Model for Course {
    ghost use Rattle.cn_agree.specs.Actions.{Course};

    ghost Value = { Course };

    ghost view = { λ c. record { records = c.records.items; decisions = c.decisions.items } };
}

/// The first place of a schedule that names no process, for this number of processes.
fn stranger_at(processes: u8, schedule: &[u8]) -> Option<usize>
    ensures { result ≡ position (λ p. nat_le processes p) schedule.now }
{
    schedule.iter().position(|p| *p >= processes)
}

/// The first fault of inputs and a schedule for this number of processes, or none: `InputCount` if
/// the number of inputs is another one; else `NoSuchProcess` with the first place of the schedule
/// that names no process.
pub fn schedule_fault(processes: u8, inputs: &[u64], schedule: &[u8]) -> Option<ScheduleFault>
    // promise: decisions-of-a-schedule
    ensures { result ≡ schedule_fault processes inputs.now schedule.now }
{
    if inputs.len() != usize::from(processes) {
        return Some(ScheduleFault::InputCount);
    }
    let place = stranger_at(processes, schedule)?;
    Some(ScheduleFault::NoSuchProcess(place as u64))
}

/// Each process begins with its input.
fn begin_all<V: Copy>(plan: &Plan, round: &mut Round<V>, inputs: &[V])
    requires count { length inputs.now ≡ processes_of plan.now }
    requires fresh { HaveBegun plan.now inputs.now 0 round.old }
    ensures { HaveBegun plan.now inputs.now (processes_of plan.now) round.new }
{
    plans_are_sound(plan);
    for p in 0..inputs.len() {
        round.begin(p as u8, inputs[p]);
    }
}

/// The step of a process that a schedule names. It does nothing if the process has decided.
fn take_turn<V: Copy>(plan: &Plan, round: &mut Round<V>, p: u8)
    requires of_plan { RunsBy plan.now round.old }
    requires begun { AllHaveBegun (processes_of plan.now) round.old }
    requires process { p < processes_of plan.now }
    ensures world { round.new ≡ after_step (protocol_of plan.now) p round.old }
    ensures of_plan { RunsBy plan.now round.new }
    ensures begun { AllHaveBegun (processes_of plan.now) round.new }
{
    if round.decision(p).is_none() {
        round.step(plan, p);
    }
}

/// The steps of a schedule. A process that has decided takes no step.
fn step_all<V: Copy>(plan: &Plan, round: &mut Round<V>, schedule: &[u8])
    requires of_plan { RunsBy plan.now round.old }
    requires begun { AllHaveBegun (processes_of plan.now) round.old }
    requires schedule { IsSchedule (processes_of plan.now) schedule.now }
    ensures world { round.new ≡ after_schedule (protocol_of plan.now) schedule.now round.old }
    ensures of_plan { RunsBy plan.now round.new }
    ensures begun { AllHaveBegun (processes_of plan.now) round.new }
{
    for p in schedule {
        take_turn(plan, round, *p);
    }
}

/// The same steps, with the action of each.
fn record_all(
    alloc: Global,
    plan: &Plan,
    round: &mut Round<u64>,
    schedule: &[u8],
) -> Result<Vec<StepRecord<u64>>, AllocError>
    requires of_plan { RunsBy plan.now round.old }
    requires begun { AllHaveBegun (processes_of plan.now) round.old }
    requires schedule { IsSchedule (processes_of plan.now) schedule.now }
    ensures records { IfOk result (λ records. records.items
        ≡ records_from plan.now schedule.now round.old) }
    ensures table { IfOk result (λ records. AreOfTable plan.now.table records.items) }
    ensures world { OnOk result (round.new
        ≡ after_schedule (protocol_of plan.now) schedule.now round.old) }
{
    let mut records = Vec::new(alloc);
    for p in schedule {
        let action = round.next_action(plan, *p);
        records.push(StepRecord {
            process: *p,
            action,
        })?;
        take_turn(plan, round, *p);
    }
    Ok(records)
}

/// The decision of each of this number of processes.
fn decisions_of<V: Copy>(
    alloc: Global,
    round: &Round<V>,
    processes: u8,
) -> Result<Vec<Option<V>>, AllocError>
    requires { processes ≡ length round.now.locals }
    ensures { IfOk result (λ decisions. decisions.items ≡ decisions_of round.now) }
{
    let mut decisions = Vec::new(alloc);
    for p in 0..processes {
        decisions.push(round.decision(p))?;
    }
    Ok(decisions)
}

/// The round in which each process has begun with its input, if the inputs and the schedule have no
/// fault.
fn begun_round(
    alloc: Global,
    plan: &Plan,
    inputs: &[u64],
    schedule: &[u8],
) -> Result<Round<u64>, ScheduleFault>
    ensures begun { IfOk result (HaveBegun plan.now inputs.now (processes_of plan.now)) }
    ensures run { OnOk result (schedule_fault (processes_of plan.now) inputs.now schedule.now
        ≡ None) }
    ensures told { (e : FaultOf)
        → schedule_fault (processes_of plan.now) inputs.now schedule.now ≡ Some e → result ≡ Err e }
    ensures refused { IfErr result (λ e. (e ≡ OutOfMemory)
        ⊎ (schedule_fault (processes_of plan.now) inputs.now schedule.now ≡ Some e)) }
{
    if let Some(fault) = schedule_fault(plan.processes(), inputs, schedule) {
        return Err(fault);
    }
    let mut round = Round::new(alloc, plan)?;
    begin_all(plan, &mut round, inputs);
    Ok(round)
}

/// The decisions after a schedule. All processes have begun, process p with `inputs[p]`.
///
/// A schedule is a list of processes in the order in which they take their steps, in any number and
/// any order. A process that has decided takes no step.
///
/// Under every schedule the decisions are consensus:
///
/// - all decisions are equal;
/// - each is the input of a process that occurs in the schedule;
/// - a process has decided exactly when it occurs at least four times for each place of its path,
///   which is at most 4(n-1) times for n processes.
///
/// # Errors
///
/// `InputCount` if the number of inputs is not the number of processes; else `NoSuchProcess` with
/// the first place of the schedule that names no process. The call answers these before it takes
/// memory. `OutOfMemory` comes only in place of the decisions.
pub fn run_schedule(
    alloc: Global,
    plan: &Plan,
    inputs: &[u64],
    schedule: &[u8],
) -> Result<Decided, ScheduleFault>
    // promise: decisions-of-a-schedule
    ensures decisions { IfOk result (λ d. d.decisions
        ≡ decisions_after plan.now inputs.now schedule.now) }
    // promise: consensus-of-a-schedule
    ensures consensus { IfOk result (λ d. IsConsensus (protocol_of plan.now) (processes_of plan.now)
        inputs.now schedule.now d.decisions) }
    // promise: decisions-of-a-schedule
    ensures run { OnOk result (schedule_fault (processes_of plan.now) inputs.now schedule.now
        ≡ None) }
    // promise: decisions-of-a-schedule
    ensures told { (e : FaultOf)
        → schedule_fault (processes_of plan.now) inputs.now schedule.now ≡ Some e → result ≡ Err e }
    // promise: decisions-of-a-schedule
    ensures refused { IfErr result (λ e. (e ≡ OutOfMemory)
        ⊎ (schedule_fault (processes_of plan.now) inputs.now schedule.now ≡ Some e)) }
{
    laws::schedules_reach_consensus::<u64>(plan);
    let mut round = begun_round(alloc, plan, inputs, schedule)?;
    step_all(plan, &mut round, schedule);
    Ok(Decided {
        decisions: decisions_of(alloc, &round, plan.processes())?,
    })
}

/// The action of each step of a schedule, and the decisions after it. All processes have begun,
/// process p with `inputs[p]`.
///
/// The decisions are those of [`run_schedule`]. A step has no action exactly if the process that
/// the schedule names there has decided before.
///
/// # Errors
///
/// Those of [`run_schedule`].
pub fn run_steps(
    alloc: Global,
    plan: &Plan,
    inputs: &[u64],
    schedule: &[u8],
) -> Result<Course, ScheduleFault>
    // promise: steps-of-a-schedule (records_of)
    ensures records { IfOk result (λ c. c.records ≡ records_of plan.now inputs.now schedule.now) }
    // promise: steps-of-a-schedule
    ensures table { IfOk result (λ c. AreOfTable plan.now.table c.records) }
    // promise: steps-of-a-schedule
    ensures decisions { IfOk result (λ c. c.decisions
        ≡ decisions_after plan.now inputs.now schedule.now) }
    // promise: steps-of-a-schedule
    ensures consensus { IfOk result (λ c. IsConsensus (protocol_of plan.now) (processes_of plan.now)
        inputs.now schedule.now c.decisions) }
    // promise: steps-of-a-schedule
    ensures run { OnOk result (schedule_fault (processes_of plan.now) inputs.now schedule.now
        ≡ None) }
    // promise: steps-of-a-schedule
    ensures told { (e : FaultOf)
        → schedule_fault (processes_of plan.now) inputs.now schedule.now ≡ Some e → result ≡ Err e }
    // promise: steps-of-a-schedule
    ensures refused { IfErr result (λ e. (e ≡ OutOfMemory)
        ⊎ (schedule_fault (processes_of plan.now) inputs.now schedule.now ≡ Some e)) }
{
    laws::schedules_reach_consensus::<u64>(plan);
    let mut round = begun_round(alloc, plan, inputs, schedule)?;
    let records = record_all(alloc, plan, &mut round, schedule)?;
    Ok(Course {
        records,
        decisions: decisions_of(alloc, &round, plan.processes())?,
    })
}
