//! One instance of consensus, one atomic step at a time.
ghost use Rattle.std.specs.Prelude.{◌≡◌, ◌<◌, ◌≤◌, ◌*◌, ◌↔◌, ◌++◌, ◌∷◌, [], ℕ, List, length, replicate, IfOk, IfSome, IsNone, IsSome, None, Some};
ghost use Rattle.cn_proto.specs.Plan.{Plan as PlanOf, protocol_of, processes_of, nodes_of};
ghost use Rattle.cn_agree.specs.Actions.{IsOfTable, action_of};
ghost use Rattle.cn_agree.specs.Consensus.{IsParticipant, occurrences};
ghost use Rattle.cn_agree.specs.Reached.{first_world, HasBegun};
ghost use Rattle.cn_agree.specs.Rounds.{decision_at, fixed_value, IsAppliedAtRoot, IsRoundOf, RunsBy};
ghost use Rattle.cn_agree.specs.Steps.{after_begin, after_step};
ghost use Rattle.cn_agree.specs.declared.local.Local.TheVariants.{NotBegun};
ghost use Rattle.cn_agree.specs.World.{local_at, input_at};

use crate::action::{Turn, act, first_after};
use crate::local::{Local, Stage};
use crate::next_action::{Action, action_at};
use crate::node::Node;
use cn_choice::Team;
use cn_proto::Plan;
use cn_proto::laws::plans_are_sound;
use std::alloc::{AllocError, Global};
use std::marker::Model;

/// One instance of consensus among the processes of a plan, over values of type `V`.
///
/// It has an object and two registers for each node of the plan, and a local state for each
/// process. It also keeps the value that each process began with and the team of the first
/// application at the root, which no action reads. `new` makes all vectors at full length, and no
/// other call takes memory.
///
/// Under every schedule, all processes that decide choose the fixed value. That is a value that a
/// process began with, and this process has taken a step. A process with k places on its path
/// decides at its step 4k.
#[derive(Debug, Drop)]
pub struct Round<V: Copy> {
    nodes: Vec<Node<V>>,
    locals: Vec<Local<V>>,
    inputs: Vec<Option<V>>,
    pub(crate) first: Option<Team>,
}

impl<V: Copy> Model for Round<V> {
    ghost use Rattle.cn_agree.specs.World.{World};
    ghost use Rattle.cn_agree.specs.Rounds.{IsRound};

    ghost Value = { World V };

    ghost view = { λ r. record {
      nodes = r.nodes.items;
      locals = r.locals.items;
      inputs = r.inputs.items;
      first = r.first;
    } };

    ghost invariant = { λ r. IsRound (record {
      nodes = r.nodes.items;
      locals = r.locals.items;
      inputs = r.inputs.items;
      first = r.first;
    }) };
}

impl<V: Copy> Round<V> {
    /// A round of the plan in which nothing has happened.
    ///
    /// # Errors
    ///
    /// `AllocError` if memory runs out.
    pub fn new(alloc: Global, plan: &Plan) -> Result<Round<V>, AllocError>
        // promise: steps-of-a-round
        ensures world { IfOk result (λ round. round
            ≡ first_world (protocol_of plan.now) (processes_of plan.now) (nodes_of plan.now)) }
        // promise: steps-of-a-round
        ensures of_plan { IfOk result (IsRoundOf plan.now []) }
    {
        plans_are_sound(plan);
        let fresh_node = Node {
            state: plan.start(),
            register_a: None,
            register_b: None,
        };
        let processes = usize::from(plan.processes());
        Ok(Round {
            nodes: copies(alloc, fresh_node, usize::from(plan.nodes()))?,
            locals: copies(alloc, Local::NotBegun, processes)?,
            inputs: copies(alloc, None, processes)?,
            first: None,
        })
    }

    /// Process `p`, which has not begun, begins with its value. This is no step.
    pub fn begin(&mut self, p: u8, value: V)
        requires process { p < length self.old.locals }
        requires not_begun { local_at self.old p ≡ NotBegun }
        // promise: steps-of-a-round
        ensures world { self.new ≡ after_begin p value self.old }
        // promise: steps-of-a-round
        ensures of_plan { (plan : PlanOf) (schedule : List ℕ) → IsRoundOf plan schedule self.old
            → IsRoundOf plan schedule self.new }
        // promise: fixed-value
        ensures fixed { fixed_value self.new ≡ fixed_value self.old }
    {
        self.locals[usize::from(p)] = Local::Active {
            place: 0,
            value,
            stage: Stage::Write,
        };
        self.inputs[usize::from(p)] = Some(value);
    }

    /// One atomic step of process `p`, which has begun and not decided, in a round of this plan.
    /// Answers the value if `p` decides by this step.
    #[inline(always)]
    pub fn step(&mut self, plan: &Plan, p: u8) -> Option<V>
        requires of_plan { RunsBy plan.now self.old }
        requires process { p < processes_of plan.now }
        requires begun { HasBegun self.old p }
        requires undecided { decision_at self.old p ≡ None }
        // promise: steps-of-a-round
        ensures world { self.new ≡ after_step (protocol_of plan.now) p self.old }
        // promise: decision-of-a-round
        ensures decision { result ≡ decision_at self.new p }
        // promise: steps-of-a-round
        ensures of_plan { (schedule : List ℕ) → IsRoundOf plan.now schedule self.old
            → IsRoundOf plan.now (schedule ++ p ∷ []) self.new }
        // promise: fixed-value
        ensures fixed { (x : V) → fixed_value self.old ≡ Some x → fixed_value self.new ≡ Some x }
    {
        plans_are_sound(plan);
        match self.locals[usize::from(p)] {
            Local::Active { place, stage, .. } => {
                let path = plan.path(p);
                let here = path[place];
                let turn = Turn {
                    here,
                    place,
                    places: path.len(),
                    stage,
                };
                let node = &mut self.nodes[usize::from(here.node)];
                let local = &mut self.locals[usize::from(p)];
                act(plan, turn, node, local);
                self.first = first_after(self.first, here, stage);
                local.decision()
            }
            // The process has begun and not decided.
            Local::NotBegun | Local::Decided(_) => unreachable!(),
        }
    }

    /// The action of the next step of process `p`, which has begun, in a round of this plan. None
    /// if `p` has decided.
    pub fn next_action(&self, plan: &Plan, p: u8) -> Option<Action<V>>
        requires of_plan { RunsBy plan.now self.now }
        requires process { p < processes_of plan.now }
        requires begun { HasBegun self.now p }
        // promise: next-action-of-a-round (action_of)
        ensures action { result ≡ action_of plan.now self.now p }
        // promise: next-action-of-a-round
        ensures decided { IsNone result ↔ IsSome (decision_at self.now p) }
        // promise: next-action-of-a-round (IsOfTable)
        ensures table { IfSome result (IsOfTable plan.now.table) }
    {
        plans_are_sound(plan);
        match self.locals[usize::from(p)] {
            Local::Active {
                place,
                value,
                stage,
            } => {
                let path = plan.path(p);
                let here = path[place];
                let turn = Turn {
                    here,
                    place,
                    places: path.len(),
                    stage,
                };
                let node = &self.nodes[usize::from(here.node)];
                action_at(plan, turn, value, node)
            }
            Local::NotBegun | Local::Decided(_) => None,
        }
    }

    /// The decision of process `p`, if it has one.
    pub fn decision(&self, p: u8) -> Option<V>
        requires { p < length self.now.locals }
        // promise: decision-of-a-round
        ensures value { result ≡ decision_at self.now p }
        // promise: decision-of-a-round
        ensures fixed { IfSome result (λ x. fixed_value self.now ≡ Some x) }
        // promise: decision-of-a-round
        ensures in_time { (plan : PlanOf) (schedule : List ℕ) → IsRoundOf plan schedule self.now
            → IsSome result ↔ (4 * length ((protocol_of plan).path p) ≤ occurrences schedule p) }
    {
        self.locals[usize::from(p)].decision()
    }

    /// The value that the round has fixed: that of the team that came first at the root. It is
    /// there from the first application at the root on.
    pub fn fixed(&self) -> Option<V>
        // promise: fixed-value
        ensures value { result ≡ fixed_value self.now }
        // promise: fixed-value
        ensures valid { (plan : PlanOf) (schedule : List ℕ) → IsRoundOf plan schedule self.now
            → IfSome result (λ x. (q : ℕ) × IsParticipant schedule q
            × (input_at self.now q ≡ Some x)) }
        // promise: fixed-value
        ensures since { (plan : PlanOf) (schedule : List ℕ) → IsRoundOf plan schedule self.now
            → IsSome result ↔ IsAppliedAtRoot (protocol_of plan) (processes_of plan) self.now }
    {
        let root = &self.nodes[0];
        *root.register(self.first?)
    }
}

fn copies<T: Copy>(alloc: Global, value: T, count: usize) -> Result<Vec<T>, AllocError>
    ensures { IfOk result (λ values. values.items ≡ replicate count value) }
{
    let mut values = Vec::with_capacity(alloc, count)?;
    for _i in 0..count {
        values.push_reserved(value);
    }
    Ok(values)
}
