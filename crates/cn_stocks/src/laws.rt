//! The laws by which no teams are needed.
//!
//! A law is a function that does nothing: its contract is the law.
ghost use Rattle.std.specs.Prelude.{◌<◌, ◌≤◌, ◌↔◌, ℕ, length};
ghost use Rattle.cn_table.specs.TypeTable.{TypeTable};
ghost use Rattle.cn_choice.specs.Discerning.{IsDiscerning, IsWitness};
ghost use Rattle.cn_choice.specs.RawChoices.{IsRawChoice, RawChoice};
ghost use Rattle.cn_stocks.specs.Splits.{SomeSplits, SplitsFrom};

/// For n of at least 3 a type is n-discerning exactly where some stock of n of its operations
/// splits from some state. Two processes with one operation are in one team of each witness, so
/// that teams are teams of operations, and an order of the processes is a word within the stock.
pub fn splits_decide()
    // promise: splits-decide (SomeSplits)
    ensures { (t : TypeTable) (n : ℕ) → 3 ≤ n → IsDiscerning t n ↔ SomeSplits t n }
{}

/// The start state of a witness for n processes, n at least 3, is one from which some stock of n
/// operations splits: the operations of the witness do.
pub fn starts_of_witnesses()
    // promise: splits-decide (SplitsFrom)
    ensures { (t : TypeTable) (n : ℕ) (c : RawChoice) → 3 ≤ n → IsRawChoice t n c → IsWitness t c
        → (c.state < length t.states) × SplitsFrom t n c.state }
{}
