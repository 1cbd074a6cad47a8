//! Laws of plan trees in the model of all protocols. A law is a function that does nothing: its
//! contract is the law.
ghost use Rattle.std.specs.Prelude.{ℕ, ◌≢◌, ◌≤◌, ◌↔◌};
ghost use Rattle.cn_table.specs.TypeTable.{IsClosed, TypeTable};
ghost use Rattle.cn_choice.specs.Discerning.{IsDiscerning};
ghost use Rattle.cn_consensus.specs.Consensus.{IsConsensusProtocol};
ghost use Rattle.cn_consensus.specs.Protocol.{IsProtocolOf};
ghost use Rattle.cn_consensus.specs.Types.{all_of};
ghost use Rattle.cn_solvable.specs.Solving.{SolvesConsensus};
ghost use Rattle.cn_unread_laws.specs.Reads.{IsWithoutReads};
ghost use Rattle.cn_unread_laws.specs.Solving.{SolvesWithoutReads};
ghost use Rattle.cn_meetings.specs.Examples.{compare_and_swap, quiet_bit, sticky_bit};
ghost use Rattle.cn_meetings.specs.Meeting.Sight.{State};
ghost use Rattle.cn_meetings.specs.Parting.{ArePart, IsPartingOf, Parting};
ghost use Rattle.cn_trees.specs.Tree.{AreWitnesses, IsOfType, IsPlanTree, PlanTree, processes_of};
ghost use Rattle.cn_tree_laws.specs.TreeProtocol.{HasTreeOfWitnesses, ReadsNoState, tree_protocol};

use cn_choice::laws::coverage;
use cn_meetings::laws::{examples_are_of_types, examples_of_parting_operations};
use cn_solvable::laws::solving_is_discerning;
use cn_trees::laws::{
    parting_operations_make_plan_trees, plan_trees_agree, steps_of_plan_trees,
    tournaments_are_trees_of_witnesses, witnesses_make_plan_trees,
};

/// The protocol of every plan tree, for its processes or the first n of them, is one of its type,
/// and solves consensus. Where no process reads a state, it reads no object.
pub fn plan_trees_are_protocols()
    // promise: plan-trees-in-the-model
    ensures of_type { (T : PlanTree) (n : ℕ) → IsOfType T → n ≤ processes_of T
        → IsProtocolOf (all_of T.table) n (tree_protocol T) }
    // promise: plan-trees-in-the-model
    ensures consensus { (T : PlanTree) (n : ℕ) → IsClosed T.table → IsOfType T → IsPlanTree T
        → n ≤ processes_of T → IsConsensusProtocol (all_of T.table) n (tree_protocol T) }
    // promise: plan-trees-in-the-model (ReadsNoState)
    ensures unread { (T : PlanTree) (n : ℕ) → ReadsNoState T → n ≤ processes_of T
        → IsWithoutReads n (tree_protocol T) }
{
    plan_trees_agree::<bool>();
    steps_of_plan_trees();
}

/// Trees of witnesses are enough: a type solves consensus for the processes of a tree whose nodes
/// are witnesses, and for fewer; with no read where no process reads a state. Ruppert, 2000, has
/// one witness of two teams at all nodes.
pub fn trees_are_enough()
    // promise: trees-are-enough (AreWitnesses, SolvesConsensus)
    ensures reads { (T : PlanTree) (n : ℕ) → IsClosed T.table → IsOfType T → AreWitnesses T
        → n ≤ processes_of T → SolvesConsensus T.table n }
    // promise: trees-are-enough (SolvesWithoutReads)
    ensures unread { (T : PlanTree) (n : ℕ) → IsClosed T.table → IsOfType T → AreWitnesses T
        → ReadsNoState T → n ≤ processes_of T → SolvesWithoutReads T.table n }
{
    plan_trees_are_protocols();
    witnesses_make_plan_trees();
}

/// Plan trees are as good as any protocol: a type has a tree of witnesses for n processes, 2 or
/// more, exactly if it is n-discerning, so exactly if it solves consensus for n. One is the
/// tournament of a witness (Ruppert, 2000).
pub fn plan_trees_are_general()
    // promise: plan-trees-are-general (IsDiscerning, AreWitnesses)
    ensures { (t : TypeTable) (n : ℕ) → IsClosed t → 2 ≤ n
        → IsDiscerning t n ↔ HasTreeOfWitnesses t n }
{
    coverage();
    tournaments_are_trees_of_witnesses();
    trees_are_enough();
    solving_is_discerning();
}

/// Two or more operations that part are enough for any number of processes; with no read where they
/// are told by the responses, or by a silent operation. New here.
pub fn parting_operations_are_enough()
    // promise: parting-operations-are-enough (ArePart, SolvesConsensus)
    ensures reads { (t : TypeTable) (k : ℕ) (w : Parting) → IsClosed t → 2 ≤ k → ArePart t k w
        → IsPartingOf t k w → (n : ℕ) → SolvesConsensus t n }
    // promise: parting-operations-are-enough (SolvesWithoutReads)
    ensures unread { (t : TypeTable) (k : ℕ) (w : Parting) → IsClosed t → 2 ≤ k → ArePart t k w
        → IsPartingOf t k w → w.sight ≢ State → (n : ℕ) → SolvesWithoutReads t n }
{
    plan_trees_are_protocols();
    parting_operations_make_plan_trees();
}

/// Examples: sticky bits solve consensus for any number of processes, with no read. So do bits that
/// answer nothing, by a silent operation, and with reads alone; and compare-and-swap on three
/// values or more.
pub fn examples_solve_consensus()
    // promise: examples-of-plan-trees
    ensures sticky_bit { (n : ℕ) → SolvesWithoutReads sticky_bit n }
    // promise: examples-of-plan-trees
    ensures quiet_bit { (n : ℕ) → SolvesConsensus quiet_bit n }
    // promise: examples-of-plan-trees
    ensures silent_operation { (n : ℕ) → SolvesWithoutReads quiet_bit n }
    // promise: examples-of-plan-trees
    ensures compare_and_swap { (k n : ℕ) → 2 ≤ k → SolvesWithoutReads (compare_and_swap k) n }
{
    examples_are_of_types();
    examples_of_parting_operations();
    parting_operations_are_enough();
}
