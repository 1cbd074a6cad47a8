//! Pairs of runs that the program tells for one process more than the number, made by a protocol
//! in the model.
ghost use Rattle.std.specs.Prelude.{◌≡◌, ℕ, List, length};
ghost use Rattle.cn_consensus.specs.Protocol.{Action};
ghost use Rattle.cn_runs.specs.Plays.{AreMade, TwoRuns, play_protocol};
ghost use Rattle.cn_runs.specs.Steps.{ReadsObject};
ghost use Rattle.cn_runs.specs.ToldPlays.{cas_3_bool, plays_of_cas_3_bool, plays_of_queue_1};
ghost use Rattle.cn_runs.specs.ToldPlays.{plays_of_queue_2, plays_of_test_and_set, queue_1};
ghost use Rattle.cn_runs.specs.ToldPlays.{queue_2, test_and_set};

/// For each choice for three processes at a queue with one place, one protocol makes in the model
/// both runs that the program tells. Some process gets the same in both, and the queue comes to
/// one state.
pub fn plays_of_queue_1_are_runs<V>()
    // promise: plays-in-the-model
    ensures count { length plays_of_queue_1 ≡ 8 }
    // promise: plays-in-the-model
    ensures made { AreMade V queue_1 plays_of_queue_1 }
{}

/// The same for three processes at a queue with two places.
pub fn plays_of_queue_2_are_runs<V>()
    // promise: plays-in-the-model
    ensures count { length plays_of_queue_2 ≡ 46 }
    // promise: plays-in-the-model
    ensures made { AreMade V queue_2 plays_of_queue_2 }
{}

/// The same for four processes at a compare-and-swap on three values that answers whether it
/// swapped.
pub fn plays_of_cas_3_bool_are_runs<V>()
    // promise: plays-in-the-model
    ensures count { length plays_of_cas_3_bool ≡ 42 }
    // promise: plays-in-the-model
    ensures made { AreMade V cas_3_bool plays_of_cas_3_bool }
{}

/// The same for three processes at a test-and-set bit, where the runs are those of a collision.
pub fn plays_of_test_and_set_are_runs<V>()
    // promise: plays-in-the-model
    ensures count { length plays_of_test_and_set ≡ 1 }
    // promise: plays-in-the-model
    ensures made { AreMade V test_and_set plays_of_test_and_set }
{}

/// The protocol of two runs reads no object, if no process does where the runs tell no next step.
pub fn play_protocols_read_no_object<V>()
    // promise: plays-in-the-model
    ensures { (held : ℕ → V) (rest : ℕ → List ℕ → Action (List ℕ) V) (p : TwoRuns)
        → ((j : ℕ) (got : List ℕ) → ¬ ReadsObject (rest j got))
        → (j : ℕ) (got : List ℕ) → ¬ ReadsObject ((play_protocol held rest p).action j got) }
{}
