//! Laws of plan trees. A law is a function that does nothing: its contract is the law.
//!
//! Everywhere `V` are the values of the processes.
ghost use Rattle.std.specs.Prelude.{ℕ, List, ◌≡◌, Bool, ◌+◌, ◌-◌, ◌*◌, ◌<◌, ◌≤◌, length, true};
ghost use Rattle.std.specs.Prelude.{false, Some, None};
ghost use Rattle.cn_table.specs.TypeTable.{TypeTable};
ghost use Rattle.cn_agree.specs.Consensus.{IsSchedule};
ghost use Rattle.cn_choice.specs.Canonical.{Choice, raw_choice_of};
ghost use Rattle.cn_choice.specs.Discerning.{IsWitness};
ghost use Rattle.cn_choice.specs.RawChoices.{IsRawChoice};
ghost use Rattle.cn_proto.specs.Tournament.{tournament};
ghost use Rattle.cn_meetings.specs.Meeting.{Meeting};
ghost use Rattle.cn_meetings.specs.Parting.{ArePart, Parting};
ghost use Rattle.cn_trees.specs.Consensus.{IsConsensus, decision, steps_of};
ghost use Rattle.cn_trees.specs.Examples.{four_of_a_sticky_bit, one_compare_and_swap};
ghost use Rattle.cn_trees.specs.Examples.{last_goes_first};
ghost use Rattle.cn_trees.specs.FullTrees.{full, parting_tree, power};
ghost use Rattle.cn_trees.specs.Seats.{Fits, HasRoles, seated_tree, tournament_teams};
ghost use Rattle.cn_trees.specs.Seats.{tournament_tree};
ghost use Rattle.cn_trees.specs.Steps.{looks_at, world_after};
ghost use Rattle.cn_meetings.specs.Witness.{Has, IsTeamWitness};
ghost use Rattle.cn_trees.specs.Tree.{AreWitnesses, IsOfType, IsPlace, IsPlanTree, PlanTree, Teams};
ghost use Rattle.cn_trees.specs.Tree.{comes_to, levels};
ghost use Rattle.cn_trees.specs.Tree.{nodes_of, path_of, place_of, processes_of, team_in};

use cn_meetings::laws::{
    examples_of_parting_operations, parting_operations_are_told, witnesses_are_judged,
    witnesses_are_kept, witnesses_of_choices,
};

/// In every schedule of the processes of a plan tree, or of the first n of them, all decisions are
/// equal, and the input of a process that has taken a step. A process has decided exactly when it
/// has taken the steps of its path.
pub fn plan_trees_agree<V>()
    // promise: plan-trees-agree (IsPlanTree, IsConsensus: agreement, validity, in_time)
    ensures { (T : PlanTree) (n : ℕ) → IsPlanTree T → n ≤ processes_of T → (inputs : ℕ → V)
        (schedule : List ℕ) → IsSchedule n schedule → IsConsensus T n inputs schedule }
{}

/// The steps of a process: three for each node of its path, or four for each if it looks at each.
/// No path has more nodes than the tree has levels, and no node has another number than those of
/// the tree.
pub fn steps_of_plan_trees()
    // promise: steps-of-plan-trees (steps_of)
    ensures three { (T : PlanTree) (p : ℕ) → ((node : ℕ) → looks_at T node p ≡ false)
        → steps_of T p ≡ 3 * length (path_of T p) }
    // promise: steps-of-plan-trees
    ensures four { (T : PlanTree) (p : ℕ) → ((node : ℕ) → looks_at T node p ≡ true)
        → steps_of T p ≡ 4 * length (path_of T p) }
    // promise: steps-of-plan-trees
    ensures most { (T : PlanTree) (p : ℕ) → steps_of T p ≤ 4 * length (path_of T p) }
    // promise: steps-of-plan-trees (levels)
    ensures levels { (T : PlanTree) (p : ℕ) → length (path_of T p) ≤ levels T.teams }
    // promise: steps-of-plan-trees (nodes_of)
    ensures nodes { (T : PlanTree) (p i : ℕ) → IsPlace T p i
        → (place_of T p i).node < nodes_of T }
{}

/// A tree whose nodes are witnesses has judgements with which it is a plan tree, and a plan tree
/// has no others at its nodes than witnesses.
pub fn witnesses_make_plan_trees()
    // promise: witnesses-make-plan-trees (AreWitnesses)
    ensures judgement { (T : PlanTree) → AreWitnesses T
        → (judge : ℕ → ℕ → ℕ → ℕ → ℕ) × IsPlanTree (record T { judge = judge }) }
    // promise: witnesses-make-plan-trees
    ensures witnesses { (T : PlanTree) → IsPlanTree T → AreWitnesses T }
{
    witnesses_are_judged();
}

/// Operations of k teams that part have a plan tree for every number of processes, with as many
/// levels as the logarithm to the base k says, rounded up:
///
/// - `tree`, `teams`: a tree with k teams at each node is a plan tree;
/// - `levels`, `processes`: with h + 1 levels it has k to the power of h + 1 processes.
///
/// New here.
pub fn parting_operations_make_plan_trees()
    // promise: parting-plan-trees (ArePart)
    ensures tree { (t : TypeTable) (k h : ℕ) (w : Parting) → ArePart t k w
        → IsPlanTree (parting_tree t (full k h) w) }
    // promise: parting-plan-trees (full)
    ensures processes { (t : TypeTable) (k h : ℕ) (w : Parting)
        → processes_of (parting_tree t (full k h) w) ≡ power k (h + 1) }
    // promise: parting-plan-trees (team_in)
    ensures teams { (k h node p : ℕ) → Has (comes_to (full k h) node) p
        → team_in (full k h) node p < k }
    // promise: parting-plan-trees (levels)
    ensures levels { (k h : ℕ) → levels (full k h) ≤ h + 1 }
{
    parting_operations_are_told();
}

/// So the first n processes agree along such a tree, if n is at most k to the power of its levels,
/// each within four steps for each level.
pub fn parting_operations_agree<V>()
    // promise: parting-plan-trees (IsConsensus)
    ensures consensus { (t : TypeTable) (k h n : ℕ) (w : Parting) → ArePart t k w
        → n ≤ power k (h + 1) → (inputs : ℕ → V) (schedule : List ℕ) → IsSchedule n schedule
        → IsConsensus (parting_tree t (full k h) w) n inputs schedule }
    // promise: parting-plan-trees (steps_of)
    ensures steps { (t : TypeTable) (k h p : ℕ) (w : Parting)
        → steps_of (parting_tree t (full k h) w) p ≤ 4 * (h + 1) }
{
    plan_trees_agree::<V>();
    steps_of_plan_trees();
    parting_operations_make_plan_trees();
}

/// One witness serves all nodes of a tree whose teams fit it: at each node each process takes a
/// role of its team. So the tournament of a witness of two teams (Ruppert, 2000) is a tree of
/// witnesses:
///
/// - `one_witness`: a tree with one meeting at all nodes;
/// - `tournament`: the tournament of the witness of a choice;
/// - `of_type`: it is of the type, if the choice is;
/// - `processes`, `levels`: it has all processes of the choice, and fewer levels than processes;
/// - `paths`, `steps`, `bound`: each process has a path as long as in rounds, and as many steps.
pub fn tournaments_are_trees_of_witnesses()
    // promise: tournaments-are-plan-trees (Fits)
    ensures one_witness { (t : TypeTable) (s : Teams) (M : Meeting) (processes : ℕ → Bool)
        (team room : ℕ → ℕ) (role : ℕ → ℕ → ℕ) → HasRoles processes team room role
        → Fits room 0 s → IsTeamWitness t M processes team → AreWitnesses (seated_tree t s M role) }
    // promise: tournaments-are-plan-trees (IsWitness)
    ensures tournament { (t : TypeTable) (c : Choice) → 1 ≤ length c.a → 1 ≤ length c.b
        → IsWitness t (raw_choice_of c) → AreWitnesses (tournament_tree t c) }
    // promise: tournaments-are-plan-trees (IsOfType)
    ensures of_type { (t : TypeTable) (n : ℕ) (c : Choice) → 1 ≤ length c.a → 1 ≤ length c.b
        → IsRawChoice t n (raw_choice_of c) → IsOfType (tournament_tree t c) }
    // promise: tournaments-are-plan-trees
    ensures processes { (t : TypeTable) (c : Choice) → 1 ≤ length c.a → 1 ≤ length c.b
        → processes_of (tournament_tree t c) ≡ length c.a + length c.b }
    // promise: tournaments-are-plan-trees (tournament)
    ensures paths { (t : TypeTable) (c : Choice) (p : ℕ) → 1 ≤ length c.a → 1 ≤ length c.b
        → p < length c.a + length c.b → length (path_of (tournament_tree t c) p)
        ≡ length (tournament (length c.a) (length c.b) p) }
    // promise: tournaments-are-plan-trees (steps_of)
    ensures steps { (t : TypeTable) (c : Choice) (p : ℕ) → 1 ≤ length c.a → 1 ≤ length c.b
        → p < length c.a + length c.b → steps_of (tournament_tree t c) p
        ≡ 4 * length (tournament (length c.a) (length c.b) p) }
    // promise: tournaments-are-plan-trees
    ensures bound { (t : TypeTable) (c : Choice) (p : ℕ) → 1 ≤ length c.a → 1 ≤ length c.b
        → steps_of (tournament_tree t c) p ≤ 4 * (length c.a + length c.b - 1) }
    // promise: tournaments-are-plan-trees (tournament_teams)
    ensures levels { (a b : ℕ) → 1 ≤ a → 1 ≤ b → levels (tournament_teams a b) ≤ a + b - 1 }
{
    steps_of_plan_trees();
    witnesses_are_kept();
    witnesses_of_choices();
}

/// A sticky bit for four processes, as a balanced tree: three bits, and six steps of each process.
/// In a run in which process 3 goes first, process 0 decides its input too, and process 1 has not
/// decided after five steps.
pub fn four_processes_of_a_sticky_bit()
    // promise: examples-of-plan-trees
    ensures tree { IsPlanTree four_of_a_sticky_bit }
    // promise: examples-of-plan-trees
    ensures processes { processes_of four_of_a_sticky_bit ≡ 4 }
    // promise: examples-of-plan-trees
    ensures nodes { nodes_of four_of_a_sticky_bit ≡ 3 }
    // promise: examples-of-plan-trees
    ensures steps { (p : ℕ) → p < 4 → steps_of four_of_a_sticky_bit p ≡ 6 }
    // promise: examples-of-plan-trees
    ensures decided { decision (world_after four_of_a_sticky_bit (λ p. 10 + p) last_goes_first) 3
        ≡ Some 13 }
    // promise: examples-of-plan-trees
    ensures follows { decision (world_after four_of_a_sticky_bit (λ p. 10 + p) last_goes_first) 0
        ≡ Some 13 }
    // promise: examples-of-plan-trees
    ensures undecided { decision (world_after four_of_a_sticky_bit (λ p. 10 + p) last_goes_first) 1
        ≡ None }
{
    examples_of_parting_operations();
    parting_operations_make_plan_trees();
    steps_of_plan_trees();
}

/// Compare-and-swap from one value to k others, as one node with k teams: one object, and three
/// steps of each of k processes.
pub fn one_node_of_compare_and_swap()
    // promise: examples-of-plan-trees
    ensures tree { (k : ℕ) → IsPlanTree (one_compare_and_swap k) }
    // promise: examples-of-plan-trees
    ensures processes { (k : ℕ) → processes_of (one_compare_and_swap k) ≡ k }
    // promise: examples-of-plan-trees
    ensures nodes { (k : ℕ) → nodes_of (one_compare_and_swap k) ≡ 1 }
    // promise: examples-of-plan-trees
    ensures steps { (k p : ℕ) → p < k → steps_of (one_compare_and_swap k) p ≡ 3 }
{
    examples_of_parting_operations();
    parting_operations_make_plan_trees();
    steps_of_plan_trees();
}
