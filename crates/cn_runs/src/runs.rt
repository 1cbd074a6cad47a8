//! Laws of runs. A law is a function that does nothing: its contract is the law.
ghost use Rattle.std.specs.Prelude.{◌≡◌, length, map};
ghost use Rattle.cn_runs.specs.Runs.{model_decisions};
ghost use Rattle.cn_runs.specs.StickyBit.{plan as plan_of_sticky_bit, runs as runs_of_sticky_bit};
ghost use Rattle.cn_runs.specs.TestAndSet.{plan as plan_of_test_and_set};
ghost use Rattle.cn_runs.specs.TestAndSet.{runs as runs_of_test_and_set};
ghost use Rattle.cn_runs.specs.ThreeShot.{plan as plan_of_three_shot, runs as runs_of_three_shot};

/// Under 500 schedules the protocol of test-and-set for two processes decides in the model what the
/// program's `agree` prints.
pub fn runs_of_the_test_and_set_protocol()
    // promise: runs-in-the-model
    ensures count { length runs_of_test_and_set ≡ 500 }
    // promise: runs-in-the-model
    ensures decisions { map (model_decisions plan_of_test_and_set) runs_of_test_and_set
        ≡ map (λ run. run.decisions) runs_of_test_and_set }
{}

/// The same for the protocol of `three_shot` for three processes.
pub fn runs_of_the_three_shot_protocol()
    // promise: runs-in-the-model
    ensures count { length runs_of_three_shot ≡ 500 }
    // promise: runs-in-the-model
    ensures decisions { map (model_decisions plan_of_three_shot) runs_of_three_shot
        ≡ map (λ run. run.decisions) runs_of_three_shot }
{}

/// The same for the protocol of a sticky bit for three processes.
pub fn runs_of_the_sticky_bit_protocol()
    // promise: runs-in-the-model
    ensures count { length runs_of_sticky_bit ≡ 500 }
    // promise: runs-in-the-model
    ensures decisions { map (model_decisions plan_of_sticky_bit) runs_of_sticky_bit
        ≡ map (λ run. run.decisions) runs_of_sticky_bit }
{}
