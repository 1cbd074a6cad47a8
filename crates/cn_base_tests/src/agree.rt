//! Rounds by hand, and every world of two plans.
ghost use Rattle.std.specs.Prelude.{◌≡◌, ◌<◌, length, IfOk};
ghost use Rattle.cn_proto.specs.Plan.{processes_of};
ghost use Rattle.cn_agree.specs.Beginning.{AllHaveBegun};
ghost use Rattle.cn_agree.specs.Rounds.{RunsBy, decision_at};

use crate::fixtures::{plan_for_two, plan_of};
use crate::types::*;
use cn_agree::{Round, laws};
use cn_proto::Plan;
use cn_proto::laws::plans_are_sound;
use std::alloc::{AllocError, Global};
use std::collections::BTreeSet;
use std::process::Abort;
use std::test::Fail;

/// A round in which each process has begun with its input.
fn begin_all<V: Copy>(alloc: Global, plan: &Plan, inputs: &[V]) -> Result<Round<V>, AllocError>
    requires { length inputs.now ≡ processes_of plan.now }
    ensures of_plan { IfOk result (RunsBy plan.now) }
    ensures begun { IfOk result (AllHaveBegun (processes_of plan.now)) }
{
    laws::rounds_keep_consensus::<V>();
    let mut round = Round::new(alloc, plan)?;
    for p in 0..plan.processes() {
        round.begin(p, inputs[usize::from(p)]);
    }
    Ok(round)
}

/// Takes one step of a process that has not decided.
fn take_step<V: Copy>(rt: &impl Abort, plan: &Plan, round: &mut Round<V>, p: u8) -> Option<V>
    requires of_plan { RunsBy plan.now round.old }
    requires begun { AllHaveBegun (processes_of plan.now) round.old }
    requires process { p < processes_of plan.now }
    ensures of_plan { RunsBy plan.now round.new }
    ensures begun { AllHaveBegun (processes_of plan.now) round.new }
{
    laws::rounds_keep_consensus::<V>();
    plans_are_sound(plan);
    assert!(rt; decision_of(plan, round, p).is_none());
    round.step(plan, p)
}

/// The decision of a process.
fn decision_of<V: Copy>(plan: &Plan, round: &Round<V>, p: u8) -> Option<V>
    requires of_plan { RunsBy plan.now round.now }
    requires process { p < processes_of plan.now }
    ensures { result ≡ decision_at round.now p }
{
    laws::rounds_keep_consensus::<V>();
    round.decision(p)
}

/// The round after a schedule; a process that has decided takes no step.
fn replay<V: Copy>(
    rt: &impl Abort,
    alloc: Global,
    plan: &Plan,
    inputs: &[V],
    schedule: &[u8],
) -> Result<Round<V>, AllocError>
    ensures { IfOk result (RunsBy plan.now) }
{
    assert!(rt; inputs.len() == usize::from(plan.processes()));
    let mut round = begin_all(alloc, plan, inputs)?;
    for p in schedule {
        assert!(rt; *p < plan.processes());
        if decision_of(plan, &round, *p).is_none() {
            take_step(rt, plan, &mut round, *p);
        }
    }
    Ok(round)
}

/// Whether there is a value exactly if `is_there`, and it is the input of process 1.
fn is_second(found: Option<(char, bool)>, is_there: bool) -> bool {
    match found {
        Some((letter, mark)) => is_there && letter == 'b' && !mark,
        None => !is_there,
    }
}

/// Whether a schedule of two processes fixes a value exactly if `is_fixed`, lets process 0 decide
/// exactly if `is_decided`, and leaves process 1 undecided.
fn comes_to(
    rt: &impl Abort,
    alloc: Global,
    plan: &Plan,
    schedule: &[u8],
    is_fixed: bool,
    is_decided: bool,
) -> Result<bool, AllocError> {
    assert!(rt; plan.processes() == 2);
    let round = replay(rt, alloc, plan, &[('a', true), ('b', false)], schedule)?;
    let is_right = is_second(round.fixed(), is_fixed);
    let decided = decision_of(plan, &round, 0);
    Ok(is_right && is_second(decided, is_decided) && decision_of(plan, &round, 1).is_none())
}

/// Process 1 comes first at the object of test-and-set, and then process 0 runs alone.
#[test]
fn rounds_run_by_hand(rt: HostRuntime) -> Result<(), Fail> {
    let plan = plan_for_two(&rt, rt.alloc())?;
    for (schedule, is_fixed, is_decided) in [
        ([1].as_slice(), false, false),
        (&[1, 1], true, false),
        (&[1, 1, 0, 0, 0], true, false),
        (&[1, 1, 0, 0, 0, 0], true, true),
    ] {
        assert!(rt; comes_to(&rt, rt.alloc(), &plan, schedule, is_fixed, is_decided)?);
    }
    Ok(())
}

/// Whether the value is an input of a process that has taken a step.
fn is_valid(inputs: &[u64], schedule: &[u8], value: u64) -> bool {
    for q in schedule {
        if let Some(input) = inputs.get(usize::from(*q)) {
            if *input == value {
                return true;
            }
        }
    }
    false
}

/// How many steps the process has taken.
fn steps_of(schedule: &[u8], p: usize) -> usize {
    let mut steps = 0usize;
    for q in schedule {
        if usize::from(*q) == p {
            steps = steps.saturating_add(1);
        }
    }
    steps
}

/// Whether the decisions of a world keep consensus: they are equal, each is the input of a process
/// that has taken a step, and a process decides with the last of its steps, four for each of its
/// `places`.
fn keep_consensus(
    decisions: &[Option<u64>],
    inputs: &[u64],
    schedule: &[u8],
    places: &[usize],
) -> bool {
    let mut agreed = None;
    for (p, (decision, places)) in decisions.iter().zip(places).enumerate() {
        let is_over = steps_of(schedule, p) / 4 >= *places;
        let is_right = match (*decision, agreed) {
            (None, _) => !is_over,
            (Some(value), None) => {
                agreed = Some(value);
                is_over && is_valid(inputs, schedule, value)
            }
            (Some(value), Some(other)) => is_over && value == other,
        };
        if !is_right {
            return false;
        }
    }
    true
}

/// The decision of each process.
fn decisions(alloc: Global, plan: &Plan, round: &Round<u64>) -> Result<Vec<Option<u64>>, AllocError>
    requires { RunsBy plan.now round.now }
{
    let mut decisions = Vec::new(alloc);
    for p in 0..plan.processes() {
        decisions.push(decision_of(plan, round, p))?;
    }
    Ok(decisions)
}

/// Judges every world, and answers how many there are. The search goes step by step, and keeps a
/// schedule that leads to each world.
fn judge_worlds(
    rt: &impl Abort,
    alloc: Global,
    plan: &Plan,
    inputs: &[u64],
    places: &[usize],
) -> Result<usize, Fail> {
    let mut worlds = BTreeSet::new(alloc);
    let mut schedules = vec![in alloc; Vec::new(alloc)]?;
    for _step in 0..25 {
        let mut next = Vec::new(alloc);
        for schedule in &schedules {
            let round = replay(rt, alloc, plan, inputs, schedule)?;
            if worlds.insert(format!(in alloc; "{round:?}")?)? {
                let decisions = decisions(alloc, plan, &round)?;
                assert!(rt; keep_consensus(&decisions, inputs, schedule, places));
                push_next(alloc, &decisions, schedule, &mut next)?;
            }
        }
        schedules = next;
    }
    assert!(rt; schedules.is_empty());
    Ok(worlds.len())
}

/// Adds the schedules with one more step of each process that has not decided.
fn push_next(
    alloc: Global,
    decisions: &[Option<u64>],
    schedule: &[u8],
    next: &mut Vec<Vec<u8>>,
) -> Result<(), AllocError> {
    for (p, decision) in (0u8..=255).zip(decisions) {
        if decision.is_none() {
            let mut longer = schedule.to_vec(alloc)?;
            longer.push(p)?;
            next.push(longer)?;
        }
    }
    Ok(())
}

// A separate program found how many worlds there are.
#[test]
fn every_world_of_two_processes_keeps_consensus(rt: HostRuntime) -> Result<(), Fail> {
    let plan = plan_for_two(&rt, rt.alloc())?;
    assert!(rt; judge_worlds(&rt, rt.alloc(), &plan, &[10, 20], &[1, 1])? == 34);
    Ok(())
}

#[test]
fn every_world_of_three_processes_keeps_consensus(rt: HostRuntime) -> Result<(), Fail> {
    let plan = plan_of(&rt, rt.alloc(), sticky_bit(), &[0], &[1, 1])?;
    assert!(rt; judge_worlds(&rt, rt.alloc(), &plan, &[5, 6, 7], &[1, 2, 2])? == 884);
    Ok(())
}
