//! Protocols that are known to fail, with the runs that show it.
ghost use Rattle.std.specs.Prelude.{◌++◌, ℕ, [], true, false};
ghost use Rattle.cn_table.specs.TypeTable.{TypeTable};
ghost use Rattle.cn_consensus.specs.Consensus.{HasDecided, IsConsensusProtocol};
ghost use Rattle.cn_consensus.specs.Types.{all_of};
ghost use Rattle.cn_crashes.specs.Execution.{HasDecidedIn};
ghost use Rattle.cn_crashes.specs.RecoverableConsensus.{HasRecoverableAgreement};
ghost use Rattle.cn_crashes.specs.RecoverableConsensus.{IsRecoverableConsensusProtocol};
ghost use Rattle.cn_runs.specs.Races.{all_false, always_true, answer, both_decide, both_write};
ghost use Rattle.cn_runs.specs.Races.{comes_back, first_answer, one_false, own_input, race};
ghost use Rattle.cn_runs.specs.Races.{second_answer, wrong_register};
ghost use Rattle.cn_runs.specs.TestAndSet.{plan};

/// Where each process decides its own input, two decide differently, with objects of any types.
pub fn own_input_fails()
    // promise: protocols-that-fail
    ensures low { (t : ℕ → TypeTable) → HasDecided t own_input one_false both_write 0 false }
    // promise: protocols-that-fail
    ensures high { (t : ℕ → TypeTable) → HasDecided t own_input one_false both_write 1 true }
    // promise: protocols-that-fail
    ensures fails { (t : ℕ → TypeTable) → ¬ IsConsensusProtocol t 2 own_input }
{}

/// Where each process decides true, a decision is the input of no process.
pub fn always_true_fails()
    // promise: protocols-that-fail
    ensures decides { (t : ℕ → TypeTable) → HasDecided t always_true all_false [] 0 true }
    // promise: protocols-that-fail
    ensures fails { (t : ℕ → TypeTable) → ¬ IsConsensusProtocol t 2 always_true }
{}

/// The race for a test-and-set bit fails for three processes: a loser does not know who won.
pub fn race_of_three_fails()
    // promise: protocols-that-fail
    ensures winner { HasDecided (all_of plan.table) race one_false wrong_register 1 true }
    // promise: protocols-that-fail
    ensures loser { HasDecided (all_of plan.table) race one_false wrong_register 2 false }
    // promise: protocols-that-fail
    ensures fails { ¬ IsConsensusProtocol (all_of plan.table) 3 race }
{}

/// The race for a test-and-set bit fails for two processes that crash and come back: the winner,
/// back from a crash behind its decision, takes the other for the winner.
pub fn race_with_crashes_fails()
    // promise: crashes-in-the-model
    ensures before { HasDecidedIn (all_of plan.table) race one_false both_decide 0 false }
    // promise: crashes-in-the-model
    ensures after { HasDecidedIn (all_of plan.table) race one_false
        (both_decide ++ comes_back) 0 true }
    // promise: crashes-in-the-model
    ensures other { HasDecidedIn (all_of plan.table) race one_false
        (both_decide ++ comes_back) 1 false }
    // promise: crashes-in-the-model
    ensures fails { ¬ IsRecoverableConsensusProtocol (all_of plan.table) 2 race }
{}

/// Agreement binds the decisions of one process before and after a crash, where no other decides.
pub fn second_decision_fails()
    // promise: crashes-in-the-model
    ensures before { HasDecidedIn (all_of plan.table) answer one_false first_answer 0 false }
    // promise: crashes-in-the-model
    ensures after { HasDecidedIn (all_of plan.table) answer one_false
        (first_answer ++ second_answer) 0 true }
    // promise: crashes-in-the-model
    ensures fails { ¬ HasRecoverableAgreement (all_of plan.table) 2 answer }
{}
