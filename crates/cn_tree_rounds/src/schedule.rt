//! Whole schedules: lists of the processes that take the steps.
ghost use Rattle.std.specs.Prelude.{◌≡◌, ◌⊎◌, Err, IfErr, IfOk, OnOk, None, Some};
ghost use Rattle.cn_agree.specs.Consensus.{IsSchedule};
ghost use Rattle.cn_agree.specs.Schedules.{schedule_fault};
ghost use Rattle.cn_agree.specs.declared.fault.ScheduleFault.{ScheduleFault as FaultOf};
ghost use Rattle.cn_agree.specs.declared.fault.ScheduleFault.TheVariants.{OutOfMemory};
ghost use Rattle.cn_trees.specs.Steps.{after_schedule, first_world};
ghost use Rattle.cn_trees.specs.Tree.{processes_of};
ghost use Rattle.cn_tree_plans.specs.Plan.{tree_of};
ghost use Rattle.cn_tree_rounds.specs.Actions.{AreOfTable, records_from, records_of};
ghost use Rattle.cn_tree_rounds.specs.Consensus.{IsConsensus};
ghost use Rattle.cn_tree_rounds.specs.Schedules.{decisions_after, input_of};
ghost use Rattle.cn_tree_rounds.specs.Worlds.{IsOfPlan, world_of};

use crate::action::StepRecord;
use crate::laws::schedules_agree;
use crate::world::World;
use cn_agree::{Decided, ScheduleFault, schedule_fault};
use cn_tree_plans::TreePlan;
use cn_tree_plans::laws::tree_plans_are_right;
use std::alloc::{AllocError, Global};
use std::marker::Model;

/// The steps of a schedule, and the decisions after it.
#[derive(Drop)]
pub struct Course {
    /// Each step, in order.
    pub records: Vec<StepRecord>,
    /// For each process its decision, or none.
    pub decisions: Vec<Option<u64>>,
}

impl Model for Course {
    ghost use Rattle.cn_tree_rounds.specs.Courses.{Course};

    ghost Value = { Course };

    ghost view = { λ c. record { records = c.records.items; decisions = c.decisions.items } };
}

/// The world before any step, if the inputs and the schedule have no fault.
fn begun(
    alloc: Global,
    plan: &TreePlan,
    inputs: &[u64],
    schedule: &[u8],
) -> Result<World, ScheduleFault>
    ensures world { IfOk result (λ w. world_of plan.now w
        ≡ first_world (tree_of plan.now) (input_of inputs.now)) }
    ensures of_plan { IfOk result (IsOfPlan plan.now) }
    ensures run { OnOk result
        (schedule_fault (processes_of (tree_of plan.now)) inputs.now schedule.now ≡ None) }
    ensures told { (e : FaultOf)
        → schedule_fault (processes_of (tree_of plan.now)) inputs.now schedule.now ≡ Some e
        → result ≡ Err e }
    ensures refused { IfErr result (λ e. (e ≡ OutOfMemory)
        ⊎ (schedule_fault (processes_of (tree_of plan.now)) inputs.now schedule.now ≡ Some e)) }
{
    if let Some(fault) = schedule_fault(plan.processes(), inputs, schedule) {
        return Err(fault);
    }
    Ok(World::new(alloc, plan, inputs)?)
}

/// The steps of a schedule. A process that has decided takes no step.
fn step_all(plan: &TreePlan, world: &mut World, schedule: &[u8])
    requires of_plan { IsOfPlan plan.now world.old }
    requires schedule { IsSchedule (processes_of (tree_of plan.now)) schedule.now }
    ensures world { world_of plan.now world.new
        ≡ after_schedule (tree_of plan.now) schedule.now (world_of plan.now world.old) }
    ensures of_plan { IsOfPlan plan.now world.new }
{
    for process in schedule {
        world.step(plan, *process);
    }
}

/// The same steps, with the action of each.
fn record_all(
    alloc: Global,
    plan: &TreePlan,
    world: &mut World,
    schedule: &[u8],
) -> Result<Vec<StepRecord>, AllocError>
    requires of_plan { IsOfPlan plan.now world.old }
    requires schedule { IsSchedule (processes_of (tree_of plan.now)) schedule.now }
    ensures records { IfOk result (λ records. records.items
        ≡ records_from (tree_of plan.now) schedule.now (world_of plan.now world.old)) }
    ensures table { IfOk result (λ records. AreOfTable plan.now.table records.items) }
    ensures world { OnOk result (world_of plan.now world.new
        ≡ after_schedule (tree_of plan.now) schedule.now (world_of plan.now world.old)) }
    ensures of_plan { OnOk result (IsOfPlan plan.now world.new) }
{
    let mut records = Vec::new(alloc);
    for process in schedule {
        records.push(StepRecord {
            process: *process,
            action: world.next_action(plan, *process),
        })?;
        world.step(plan, *process);
    }
    Ok(records)
}

/// The decisions after a schedule in which process p has the input `inputs[p]`.
///
/// A schedule is a list of processes in the order in which they take their steps, in any number and
/// any order. A process that has decided takes no step.
///
/// Under every schedule the decisions are consensus:
///
/// - all decisions are equal;
/// - each is the input of a process that occurs in the schedule;
/// - a process has decided exactly if it occurs as often as it has steps, which are three for each
///   place of its path, or four where it looks at the object.
///
/// # Errors
///
/// `InputCount` if the number of inputs is not the number of processes; else `NoSuchProcess` with
/// the first place of the schedule that names no process. The call answers these before it takes
/// memory. `OutOfMemory` comes only in place of the decisions.
pub fn run_schedule(
    alloc: Global,
    plan: &TreePlan,
    inputs: &[u64],
    schedule: &[u8],
) -> Result<Decided, ScheduleFault>
    // promise: decisions-along-a-plan-tree (decisions_after)
    ensures decisions { IfOk result (λ d. d.decisions
        ≡ decisions_after plan.now inputs.now schedule.now) }
    // promise: consensus-along-a-plan-tree (IsConsensus)
    ensures consensus { IfOk result (λ d. IsConsensus plan.now inputs.now schedule.now d.decisions) }
    // promise: refusals-along-a-plan-tree (schedule_fault)
    ensures run { OnOk result
        (schedule_fault (processes_of (tree_of plan.now)) inputs.now schedule.now ≡ None) }
    // promise: refusals-along-a-plan-tree
    ensures told { (e : FaultOf)
        → schedule_fault (processes_of (tree_of plan.now)) inputs.now schedule.now ≡ Some e
        → result ≡ Err e }
    // promise: refusals-along-a-plan-tree
    ensures refused { IfErr result (λ e. (e ≡ OutOfMemory)
        ⊎ (schedule_fault (processes_of (tree_of plan.now)) inputs.now schedule.now ≡ Some e)) }
{
    tree_plans_are_right(plan);
    schedules_agree();
    let mut world = begun(alloc, plan, inputs, schedule)?;
    step_all(plan, &mut world, schedule);
    Ok(Decided {
        decisions: world.decisions(alloc)?,
    })
}

/// The action of each step of a schedule, and the decisions after it, where process p has the input
/// `inputs[p]`.
///
/// The decisions are those of [`run_schedule`]. A step has no action exactly if the process that
/// the schedule names there has decided before.
///
/// # Errors
///
/// Those of [`run_schedule`].
pub fn run_steps(
    alloc: Global,
    plan: &TreePlan,
    inputs: &[u64],
    schedule: &[u8],
) -> Result<Course, ScheduleFault>
    // promise: steps-along-a-plan-tree (records_of)
    ensures records { IfOk result (λ c. c.records ≡ records_of plan.now inputs.now schedule.now) }
    // promise: steps-along-a-plan-tree (AreOfTable)
    ensures table { IfOk result (λ c. AreOfTable plan.now.table c.records) }
    // promise: steps-along-a-plan-tree
    ensures decisions { IfOk result (λ c. c.decisions
        ≡ decisions_after plan.now inputs.now schedule.now) }
    // promise: consensus-along-a-plan-tree
    ensures consensus { IfOk result (λ c. IsConsensus plan.now inputs.now schedule.now c.decisions) }
    // promise: refusals-along-a-plan-tree
    ensures run { OnOk result
        (schedule_fault (processes_of (tree_of plan.now)) inputs.now schedule.now ≡ None) }
    // promise: refusals-along-a-plan-tree
    ensures told { (e : FaultOf)
        → schedule_fault (processes_of (tree_of plan.now)) inputs.now schedule.now ≡ Some e
        → result ≡ Err e }
    // promise: refusals-along-a-plan-tree
    ensures refused { IfErr result (λ e. (e ≡ OutOfMemory)
        ⊎ (schedule_fault (processes_of (tree_of plan.now)) inputs.now schedule.now ≡ Some e)) }
{
    tree_plans_are_right(plan);
    schedules_agree();
    let mut world = begun(alloc, plan, inputs, schedule)?;
    let records = record_all(alloc, plan, &mut world, schedule)?;
    Ok(Course {
        records,
        decisions: world.decisions(alloc)?,
    })
}
