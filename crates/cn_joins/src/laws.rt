//! The laws of joins.
//!
//! A law is a function that does nothing: its contract is the law.
ghost use Rattle.std.specs.Prelude.{◌<◌, ◌≤◌, ◌↔◌, ◌⊎◌, ℕ, List, All, length};
ghost use Rattle.cn_table.specs.TypeTable.{TypeTable};
ghost use Rattle.cn_choice.specs.Discerning.{IsDiscerning};
ghost use Rattle.cn_stocks.specs.Splits.{SomeSplits, StockSplits};
ghost use Rattle.cn_stocks.specs.Words.{IsKnown};
ghost use Rattle.cn_joins.specs.Evidence.{IsEvidenceAgainst, SomeNotices};
ghost use Rattle.cn_joins.specs.Joins.{Connect, IsJoin, Join};

/// Whether a stock splits is a matter of joins:
///
/// - `connected`: a stock whose operations joins connect does not split;
/// - `joined`: the operations of a stock that does not split are connected by some joins.
pub fn joins_decide_splits()
    // promise: joins (Connect, IsJoin)
    ensures connected { (t : TypeTable) (start : ℕ) (stock : List ℕ) (joins : List Join)
        → All (IsJoin t) joins → Connect joins start stock → ¬ StockSplits t start stock }
    // promise: joins (Connect, IsJoin)
    ensures joined { (t : TypeTable) (start : ℕ) (stock : List ℕ) → start < length t.states
        → IsKnown (length t.operations) stock → ¬ StockSplits t start stock
        → (joins : List Join) × All (IsJoin t) joins × Connect joins start stock }
{}

/// A type is 2-discerning exactly if some stock of two of its operations splits, or some operation
/// notices itself: for two processes, and no more, one operation can be in both teams.
pub fn two_processes()
    // promise: joins (SomeSplits, SomeNotices)
    ensures { (t : TypeTable) → IsDiscerning t 2 ↔ (SomeSplits t 2 ⊎ SomeNotices t) }
{}

/// What is no n-discerning type has evidence against n, and no other:
///
/// - `sound`: a type with evidence against n is m-discerning for no m from n on;
/// - `complete`: a type that is not n-discerning has evidence against n.
pub fn joins_decide()
    // promise: joins (IsEvidenceAgainst)
    ensures sound { (t : TypeTable) (n m : ℕ) (joins : List Join) → 2 ≤ n → n ≤ m
        → IsEvidenceAgainst t n joins → ¬ IsDiscerning t m }
    // promise: joins (IsEvidenceAgainst)
    ensures complete { (t : TypeTable) (n : ℕ) → 2 ≤ n → ¬ IsDiscerning t n
        → (joins : List Join) × IsEvidenceAgainst t n joins }
{}
