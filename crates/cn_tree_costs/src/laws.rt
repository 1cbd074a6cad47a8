//! Laws of the costs of plan trees. A law is a function that does nothing: its contract is the law.
//!
//! Everywhere `allowed` are the ways to look that a tree may use at its nodes.
ghost use Rattle.std.specs.Prelude.{ℕ, List, ◌≡◌, ◌↔◌, Bool, ◌+◌, ◌-◌, ◌*◌, ◌<◌, ◌≤◌, Some, None};
ghost use Rattle.std.specs.Prelude.{◌∷◌, length, map, nat_lt, sum, slice_index_or, true, IsPermutation};
ghost use Rattle.std.specs.Option.{IsSome};
ghost use Rattle.cn_table.specs.TypeTable.{TypeTable};
ghost use Rattle.cn_meetings.specs.Examples.{compare_and_swap, sticky_bit};
ghost use Rattle.cn_meetings.specs.Meeting.{IsSightOf, Meeting, Sight};
ghost use Rattle.cn_meetings.specs.Meeting.Sight.{State};
ghost use Rattle.cn_meetings.specs.Witness.{Has, IsTeamWitness};
ghost use Rattle.cn_trees.specs.Examples.{four_of_a_sticky_bit, one_compare_and_swap};
ghost use Rattle.cn_trees.specs.FullTrees.{power};
ghost use Rattle.cn_trees.specs.Seats.{HasRoles};
ghost use Rattle.cn_trees.specs.Tree.{PlanTree, Teams, comes_to, members, team_in};
ghost use Rattle.cn_tree_costs.specs.Branches.{AreBranches, Branch, branches_of, joined_cost};
ghost use Rattle.cn_tree_costs.specs.Branches.{size_of};
ghost use Rattle.cn_tree_costs.specs.Cost.{IsLeastPlan, IsTreeFor, cost};
ghost use Rattle.cn_tree_costs.specs.Least.{AreRoots, IsAtMost, IsLoadTable, Load, LoadTable, Root};
ghost use Rattle.cn_tree_costs.specs.Nodes.{IsAmong, node_at, tree_at};
ghost use Rattle.cn_tree_costs.specs.Outline.{AreGroups, Outline, groups_in, members_in, steps_in};
ghost use Rattle.cn_tree_costs.specs.Outline.{sum_in};
ghost use Rattle.cn_tree_costs.specs.Outline.Outline.{End, Group};
ghost use Rattle.cn_tree_costs.specs.Sizes.{HasSizes, IsDivision, block, price, sizes_of};
ghost use Rattle.cn_tree_costs.specs.Sizes.{team_sizes};

use cn_meetings::laws::examples_are_of_types;
use cn_trees::laws::{
    four_processes_of_a_sticky_bit, one_node_of_compare_and_swap,
    parting_operations_make_plan_trees, witnesses_make_plan_trees,
};

/// The nodes of a plan tree are trees again. New here.
///
/// - `processes`, `teams`: the processes that come to a node have numbers from its first one on, and
///   are in teams of the sizes of the node, one after the other;
/// - `sub_tree`: the tree at a node is a tree of witnesses for these processes;
/// - `sizes`: so a witness of the type has teams of the sizes of the node.
pub fn nodes_are_trees()
    // promise: nodes-are-trees (IsAmong)
    ensures processes { (s : Teams) (v p : ℕ) → Has (comes_to s v) p ↔ IsAmong (node_at s v) p }
    // promise: nodes-are-trees
    ensures teams { (s : Teams) (v p : ℕ) → Has (comes_to s v) p
        → team_in s v p ≡ block (sizes_of (node_at s v).teams) (p - (node_at s v).first) }
    // promise: nodes-are-trees (tree_at)
    ensures sub_tree { (t : TypeTable) (allowed : Sight → Bool) (n v : ℕ) (T : PlanTree)
        → IsTreeFor t allowed n T
        → IsTreeFor t allowed (members (node_at T.teams v).teams) (tree_at T v) }
    // promise: nodes-are-trees (HasSizes)
    ensures sizes { (t : TypeTable) (allowed : Sight → Bool) (n v p : ℕ) (T : PlanTree)
        → IsTreeFor t allowed n T → Has (comes_to T.teams v) p
        → HasSizes t ((T.meeting v).sight p) (sizes_of (node_at T.teams v).teams) }
{}

/// A tree is a root with a tree for each team of it, or a process alone. New here.
///
/// - `split`: the trees of the teams of the root are trees of witnesses, with as many processes as the
///   teams have, and the root has a witness with teams of these sizes. The tree costs the price of the
///   root and the greatest number of steps of the trees; one node and those of the trees; and the price
///   of the root for each process, and the sums of the trees;
/// - `joined`: a witness, and a tree or a process alone for each team, make a tree, at this cost;
/// - `from_nodes`: a witness for each node that has a process, with teams of its sizes, makes a tree
///   with these teams, whose processes look as those of the witnesses.
pub fn trees_are_joined()
    // promise: trees-are-joined (branches_of)
    ensures split { (t : TypeTable) (allowed : Sight → Bool) (n : ℕ) (T : PlanTree) → 1 ≤ n
        → IsTreeFor t allowed n T → AreBranches t allowed (branches_of T)
        × (map size_of (branches_of T) ≡ sizes_of T.teams)
        × (sight : Sight) × (allowed sight ≡ true) × HasSizes t sight (sizes_of T.teams)
        × (cost T ≡ joined_cost sight (branches_of T)) }
    // promise: trees-are-joined (joined_cost)
    ensures joined { (t : TypeTable) (allowed : Sight → Bool) (sight : Sight)
        (branches : List Branch) → allowed sight ≡ true → HasSizes t sight (map size_of branches)
        → 1 ≤ sum (map size_of branches) → AreBranches t allowed branches
        → (T : PlanTree) × IsTreeFor t allowed (sum (map size_of branches)) T
        × (cost T ≡ joined_cost sight branches) }
    // promise: trees-are-joined
    ensures from_nodes { (t : TypeTable) (allowed : Sight → Bool) (s : Teams) (sights : ℕ → Sight)
        → 1 ≤ members s
        → ((v p : ℕ) → IsAmong (node_at s v) p → (allowed (sights v) ≡ true)
        × HasSizes t (sights v) (sizes_of (node_at s v).teams))
        → (T : PlanTree) × IsTreeFor t allowed (members s) T × (T.teams ≡ s)
        × ((v p : ℕ) → Has (comes_to s v) p → (T.meeting v).sight p ≡ sights v) }
{}

/// A tree of witnesses is a root with trees below it, and its cost follows from the sizes of teams
/// and from how the processes look, at each node. New here.
///
/// - `tree`: if witnesses of the type have the sizes of an outline, there is a tree with its cost:
///   the price of the root and the greatest number of steps below; one node and those below; and
///   the price of the root for each process, and the sum below;
/// - `outline`: each tree has an outline that costs no more: it has no empty teams, and no nodes with
///   a single team.
pub fn outlines_are_trees()
    // promise: outlines-are-trees (AreGroups)
    ensures tree { (t : TypeTable) (allowed : Sight → Bool) (sight : Sight) (o : Outline)
        → AreGroups t allowed (Group sight o End)
        → (T : PlanTree) × IsTreeFor t allowed (members_in o) T
        × (cost T ≡ record {
          steps = steps_in o + price sight;
          nodes = 1 + groups_in o;
          sum = sum_in o + members_in o * price sight;
        }) }
    // promise: outlines-are-trees
    ensures outline { (t : TypeTable) (allowed : Sight → Bool) (n : ℕ) (T : PlanTree) → 2 ≤ n
        → IsTreeFor t allowed n T
        → (sight : Sight) × (o : Outline) × AreGroups t allowed (Group sight o End)
        × (members_in o ≡ n) × (steps_in o + price sight ≤ (cost T).steps)
        × (1 + groups_in o ≤ (cost T).nodes)
        × (sum_in o + members_in o * price sight ≤ (cost T).sum) }
{}

/// So the least cost depends on the sizes of teams alone: a table with the least load of objects and
/// steps, for each number of processes and each bound on own steps, has the costs of least plans.
/// New here.
///
/// - `tree`: a load in the table is that of a tree within the bound;
/// - `least`: and no tree within the bound has less;
/// - `plan`, `costs`: with the least bound for which n processes have a load, it is the cost of a
///   least plan, and of each;
/// - `some_tree`: there is a tree exactly if there is a load within four steps for each process but
///   one.
pub fn loads_are_least_costs()
    // promise: loads-are-least-costs (IsLoadTable)
    ensures tree { (t : TypeTable) (allowed : Sight → Bool) (most top n b : ℕ) (best : LoadTable)
        (x : Load) (roots : ℕ → List Root) → AreRoots t allowed most roots
        → IsLoadTable roots most top best → 2 ≤ n → n ≤ most → b ≤ top
        → best n b ≡ Some x
        → (T : PlanTree) × IsTreeFor t allowed n T × ((cost T).steps ≤ b)
        × ((cost T).nodes ≡ x.nodes) × ((cost T).sum ≡ x.sum) }
    // promise: loads-are-least-costs (IsAtMost)
    ensures least { (t : TypeTable) (allowed : Sight → Bool) (most top n b : ℕ) (best : LoadTable)
        (T : PlanTree) (roots : ℕ → List Root) → AreRoots t allowed most roots
        → IsLoadTable roots most top best → 1 ≤ n → n ≤ most → b ≤ top
        → IsTreeFor t allowed n T → (cost T).steps ≤ b
        → (x : Load) × (best n b ≡ Some x)
        × IsAtMost x (record { nodes = (cost T).nodes; sum = (cost T).sum }) }
    // promise: loads-are-least-costs (IsLeastPlan)
    ensures plan { (t : TypeTable) (allowed : Sight → Bool) (most top n b : ℕ) (best : LoadTable)
        (x : Load) (roots : ℕ → List Root) → AreRoots t allowed most roots
        → IsLoadTable roots most top best → 2 ≤ n → n ≤ most → b ≤ top
        → best n b ≡ Some x → ((c : ℕ) → c < b → best n c ≡ None)
        → (T : PlanTree) × IsLeastPlan t allowed n T
        × (cost T ≡ record { steps = b; nodes = x.nodes; sum = x.sum }) }
    // promise: loads-are-least-costs
    ensures costs { (t : TypeTable) (allowed : Sight → Bool) (most top n b : ℕ) (best : LoadTable)
        (x : Load) (T : PlanTree) (roots : ℕ → List Root)
        → AreRoots t allowed most roots → IsLoadTable roots most top best → 2 ≤ n → n ≤ most
        → b ≤ top → best n b ≡ Some x → ((c : ℕ) → c < b → best n c ≡ None)
        → IsLeastPlan t allowed n T
        → cost T ≡ record { steps = b; nodes = x.nodes; sum = x.sum } }
    // promise: loads-are-least-costs
    ensures some_tree { (t : TypeTable) (allowed : Sight → Bool) (most top n : ℕ) (best : LoadTable)
        (roots : ℕ → List Root) → AreRoots t allowed most roots
        → IsLoadTable roots most top best → 2 ≤ n → n ≤ most → 4 * (n - 1) ≤ top
        → IsSome (best n (4 * (n - 1))) ↔ ((T : PlanTree) × IsTreeFor t allowed n T) }
{}

/// What keeps the sizes of a witness:
///
/// - `counted`, `all_counted`: a witness for n processes has the sizes of its teams, however its
///   processes are numbered;
/// - `any_numbers`: a witness with roles for teams of these sizes has them;
/// - `any_order`: and in any order;
/// - `merged`: merging two teams keeps a witness;
/// - `smaller`: so does leaving out processes, of any teams;
/// - `read`: and so does a read by each process.
pub fn sizes_are_kept()
    // promise: sizes-are-kept (team_sizes)
    ensures counted { (t : TypeTable) (sight : Sight) (M : Meeting) (n k : ℕ) (team : ℕ → ℕ)
        → M.start < length t.states → ((p : ℕ) → p < n → M.operation p < length t.operations)
        → ((p : ℕ) → p < n → M.sight p ≡ sight) → IsSightOf t sight
        → IsTeamWitness t M (λ p. nat_lt p n) team → HasSizes t sight (team_sizes team n k) }
    // promise: sizes-are-kept
    ensures all_counted { (team : ℕ → ℕ) (n k : ℕ) → ((p : ℕ) → p < n → team p < k)
        → sum (team_sizes team n k) ≡ n }
    // promise: sizes-are-kept (HasRoles)
    ensures any_numbers { (t : TypeTable) (sight : Sight) (M : Meeting) (processes : ℕ → Bool)
        (team : ℕ → ℕ) (sizes : List ℕ) (role : ℕ → ℕ → ℕ)
        → HasRoles processes team (λ g. slice_index_or sizes g 0) role
        → M.start < length t.states
        → ((p : ℕ) → Has processes p → M.operation p < length t.operations)
        → ((p : ℕ) → Has processes p → M.sight p ≡ sight) → IsSightOf t sight
        → IsTeamWitness t M processes team → HasSizes t sight sizes }
    // promise: sizes-are-kept
    ensures any_order { (t : TypeTable) (sight : Sight) (sizes others : List ℕ)
        → IsPermutation sizes others → HasSizes t sight sizes → HasSizes t sight others }
    // promise: sizes-are-kept
    ensures merged { (t : TypeTable) (sight : Sight) (a b : ℕ) (sizes : List ℕ)
        → HasSizes t sight (a ∷ b ∷ sizes) → HasSizes t sight ((a + b) ∷ sizes) }
    // promise: sizes-are-kept
    ensures smaller { (t : TypeTable) (sight : Sight) (sizes fewer : List ℕ)
        → ((g : ℕ) → slice_index_or fewer g 0 ≤ slice_index_or sizes g 0)
        → HasSizes t sight sizes → HasSizes t sight fewer }
    // promise: sizes-are-kept
    ensures read { (t : TypeTable) (sight : Sight) (sizes : List ℕ) → HasSizes t sight sizes
        → HasSizes t State sizes }
{}

/// Lower bounds, for trees of this kind. Other protocols may do with fewer steps.
///
/// - `teams`: a witness for three processes or more has at most a team for each operation;
/// - `steps`: so in a tree of a type with k operations, two or more, for more than k to the power of h
///   processes, some process takes 3(h + 1) own steps or more.
pub fn operations_bound_steps()
    // promise: operations-bound-steps
    ensures teams { (t : TypeTable) (sight : Sight) (n : ℕ) (sizes : List ℕ)
        → HasSizes t sight sizes → IsDivision n sizes → 3 ≤ n
        → length sizes ≤ length t.operations }
    // promise: operations-bound-steps (power)
    ensures steps { (t : TypeTable) (allowed : Sight → Bool) (n h : ℕ) (T : PlanTree)
        → 2 ≤ length t.operations → 2 ≤ n → IsTreeFor t allowed n T
        → power (length t.operations) h < n → 3 * (h + 1) ≤ (cost T).steps }
{}

/// A tree of one node at which nobody looks is least: three steps, one object. So compare-and-swap
/// from one value to k others has a least plan of one node for k processes. The balanced tree of three
/// sticky bits is a least plan of a sticky bit for four processes.
pub fn examples_are_least()
    // promise: examples-are-least
    ensures one_node { (t : TypeTable) (allowed : Sight → Bool) (n : ℕ) (T : PlanTree) → 2 ≤ n
        → IsTreeFor t allowed n T → cost T ≡ record { steps = 3; nodes = 1; sum = n * 3 }
        → IsLeastPlan t allowed n T }
    // promise: examples-are-least (IsLeastPlan)
    ensures compare_and_swap { (k : ℕ) → 2 ≤ k
        → IsLeastPlan (compare_and_swap k) (λ sight. true) k (one_compare_and_swap k) }
    // promise: examples-are-least
    ensures sticky_bit { IsLeastPlan sticky_bit (λ sight. true) 4 four_of_a_sticky_bit }
{
    examples_are_of_types();
    four_processes_of_a_sticky_bit();
    one_node_of_compare_and_swap();
    parting_operations_make_plan_trees();
    witnesses_make_plan_trees();
}
