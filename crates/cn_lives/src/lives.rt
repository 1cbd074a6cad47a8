//! One instance of consensus, one step or crash at a time.
ghost use Rattle.std.specs.Prelude.{◌≡◌, ◌<◌, ◌++◌, ◌∷◌, [], List, length, map};
ghost use Rattle.std.specs.Prelude.{IfNone, IfOk, IfSome, IsSome};
ghost use Rattle.cn_proto.specs.Plan.{processes_of};
ghost use Rattle.cn_lives.specs.Courses.{IsOfTable, action_of, memory_of};
ghost use Rattle.cn_lives.specs.Lives.{world_of};
ghost use Rattle.cn_lives.specs.Runs.{AreLivesOf, LiveBy, decision_at, first_world};
ghost use Rattle.cn_lives.specs.Steps.{after_crash, after_step, held_at, local_at};
ghost use Rattle.cn_lives.specs.Steps.{register_of as register_number, state_at};
ghost use Rattle.cn_lives.specs.Turns.{IsTurn};
ghost use Rattle.cn_lives.specs.declared.local.Local.TheVariants.{Active};
ghost use Rattle.cn_lives.specs.declared.local.Stage.TheVariants.{Write};
ghost use Rattle.cn_lives.specs.declared.schedule.Event.{Event};
ghost use Rattle.cn_lives.specs.declared.schedule.Event.TheVariants.{Step, Crash};

use crate::laws::recording_plans_are_sound;
use crate::life_action::{LifeAction, Memory, action_at};
use crate::local::{Local, Stage};
use crate::plan::RecordingPlan;
use crate::turn::{Turn, local_after, register_of, share};
use cn_choice::Team;
use cn_table::State;
use std::alloc::{AllocError, Global};

/// One instance of consensus among the processes of a plan, which may crash and come back.
///
/// It has an object and two registers for each node of the plan, which keep their contents when a
/// process crashes, and a local state for each process, which a crash loses. It also keeps the
/// input of each process. `new` makes all vectors at full length, and no other call takes memory.
///
/// By the laws of `cn_life_laws`, under every schedule of steps and crashes all decisions that are
/// ever made are equal, and each is the input of a process. For n processes, a process that takes
/// 6(n-1) steps without a crash of its own has decided.
#[derive(Debug, Drop)]
pub struct Lives {
    locals: Vec<Local>,
    registers: Vec<Option<u64>>,
    objects: Vec<State>,
    inputs: Vec<u64>,
}

impl Lives {
    /// The processes of the plan begin with their inputs, and none has taken a step.
    ///
    /// # Errors
    ///
    /// `AllocError` if memory runs out.
    pub fn new(alloc: Global, plan: &RecordingPlan, inputs: &[u64]) -> Result<Lives, AllocError>
        requires { length inputs.now ≡ processes_of plan.now.plan }
        // promise: first-world-of-lives (first_world)
        ensures world { IfOk result (λ lives. world_of lives ≡ first_world plan.now inputs.now) }
        // promise: first-world-of-lives (AreLivesOf)
        ensures of_plan { IfOk result (λ lives. AreLivesOf plan.now [] (world_of lives)) }
    {
        let nodes = usize::from(plan.plan().nodes());
        Ok(Lives {
            locals: first_locals(alloc, inputs)?,
            registers: vec![in alloc; None; 2 * nodes]?,
            objects: vec![in alloc; plan.plan().start(); nodes]?,
            inputs: inputs.to_vec(alloc)?,
        })
    }

    /// The turn of process `p`, if it has not decided.
    fn turn(&self, plan: &RecordingPlan, p: u8) -> Option<Turn>
        requires of_plan { LiveBy plan.now (world_of self.now) }
        requires process { p < processes_of plan.now.plan }
        ensures some { IfSome result (IsTurn plan.now (world_of self.now) p) }
        ensures none { IfNone result (IsSome (decision_at (world_of self.now) p)) }
    {
        recording_plans_are_sound(plan);
        let Local::Active {
            place,
            value,
            stage,
        } = self.locals[usize::from(p)]
        else {
            return None;
        };
        let path = plan.plan().path(p);
        Some(Turn {
            here: path[place],
            place,
            places: path.len(),
            value,
            stage,
        })
    }

    /// What process `p` does in its next step.
    pub fn next_action(&self, plan: &RecordingPlan, p: u8) -> LifeAction
        requires of_plan { LiveBy plan.now (world_of self.now) }
        requires process { p < processes_of plan.now.plan }
        // promise: next-action-of-lives (action_of)
        ensures action { result ≡ action_of plan.now (world_of self.now) p }
        // promise: next-action-of-lives (IsOfTable)
        ensures table { IsOfTable plan.now.plan.table result }
    {
        recording_plans_are_sound(plan);
        match self.turn(plan, p) {
            Some(turn) => action_at(plan, turn, &self.registers, &self.objects),
            None => LifeAction::HasDecided,
        }
    }

    /// What process `p` remembers.
    pub fn memory(&self, plan: &RecordingPlan, p: u8) -> Memory
        requires of_plan { LiveBy plan.now (world_of self.now) }
        requires process { p < processes_of plan.now.plan }
        // promise: next-action-of-lives (memory_of)
        ensures { result ≡ memory_of plan.now (world_of self.now) p }
    {
        recording_plans_are_sound(plan);
        if let Local::Decided(value) = self.local(p) {
            return Memory::Decision { value };
        }
        match self.turn(plan, p) {
            Some(turn) => Memory::Value {
                node: turn.here.node,
                value: turn.value,
            },
            // The process has not decided.
            None => unreachable!(),
        }
    }

    /// One atomic step of process `p`. A process that has decided takes no step.
    pub fn step(&mut self, plan: &RecordingPlan, p: u8)
        requires of_plan { LiveBy plan.now (world_of self.old) }
        requires process { p < processes_of plan.now.plan }
        // promise: step-of-lives (after_step)
        ensures world { world_of self.new ≡ after_step plan.now p (world_of self.old) }
        // promise: step-of-lives (AreLivesOf)
        ensures of_plan { (events : List Event) → AreLivesOf plan.now events (world_of self.old)
            → AreLivesOf plan.now (events ++ Step p ∷ []) (world_of self.new) }
    {
        recording_plans_are_sound(plan);
        if let Some(turn) = self.turn(plan, p) {
            let next = local_after(plan, turn, &self.registers, &self.objects);
            share(plan, turn, &mut self.registers, &mut self.objects);
            self.locals[usize::from(p)] = next;
        }
    }

    /// Process `p` crashes: it loses its local state, and begins again with its input, at its first
    /// place. The objects and the registers keep their contents. A process that has decided may
    /// crash too.
    pub fn crash(&mut self, plan: &RecordingPlan, p: u8)
        requires of_plan { LiveBy plan.now (world_of self.old) }
        requires process { p < processes_of plan.now.plan }
        // promise: step-of-lives (after_crash)
        ensures world { world_of self.new ≡ after_crash p (world_of self.old) }
        // promise: step-of-lives (AreLivesOf)
        ensures of_plan { (events : List Event) → AreLivesOf plan.now events (world_of self.old)
            → AreLivesOf plan.now (events ++ Crash p ∷ []) (world_of self.new) }
    {
        recording_plans_are_sound(plan);
        self.locals[usize::from(p)] = Local::first(self.inputs[usize::from(p)]);
    }

    /// The local state of process `p`.
    pub fn local(&self, p: u8) -> Local
        requires { p < length (world_of self.now).locals }
        // promise: world-of-lives
        ensures { result ≡ local_at (world_of self.now) p }
    {
        self.locals[usize::from(p)]
    }

    /// The state of the object of a node.
    pub fn object(&self, node: u8) -> State
        requires { node < length (world_of self.now).objects }
        // promise: world-of-lives
        ensures { result.0 ≡ state_at (world_of self.now).objects node }
    {
        self.objects[usize::from(node)]
    }

    /// The value in the register of a team at a node, if it holds one.
    pub fn register(&self, node: u8, team: Team) -> Option<u64>
        requires { register_number node team < length (world_of self.now).registers }
        // promise: world-of-lives
        ensures { result ≡ held_at (world_of self.now).registers node team }
    {
        self.registers[register_of(node, team)]
    }

    /// The decision of process `p`, if it has one. A crash takes it away, and the process decides
    /// the same value again.
    pub fn decision(&self, p: u8) -> Option<u64>
        requires { p < length (world_of self.now).locals }
        // promise: world-of-lives
        ensures { result ≡ decision_at (world_of self.now) p }
    {
        match self.locals[usize::from(p)] {
            Local::Active { .. } => None,
            Local::Decided(value) => Some(value),
        }
    }
}

fn first_locals(alloc: Global, inputs: &[u64]) -> Result<Vec<Local>, AllocError>
    ensures { IfOk result (λ locals. locals.items ≡ map (λ x. Active 0 x Write) inputs.now) }
{
    let mut locals = Vec::new(alloc);
    for value in inputs {
        locals.push(Local::first(*value))?;
    }
    Ok(locals)
}
