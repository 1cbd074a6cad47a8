//! The laws of numbers without a limit.
//!
//! A law is a function that does nothing: its contract is the law.
ghost use Rattle.std.specs.Prelude.{◌≤◌, ◌<◌, ℕ, length};
ghost use Rattle.cn_table.specs.TypeTable.{IsClosed, TypeTable};
ghost use Rattle.cn_choice.specs.Discerning.{IsDiscerning};
ghost use Rattle.cn_stocks.specs.Lasting.{IsAlwaysDiscerning, Lasts, NoneLast};

/// A type is n-discerning for every n exactly if two of its operations last from some state:
///
/// - `always`: a type with two operations that last is n-discerning for every n;
/// - `never`: any other type is not n-discerning for some n.
pub fn lasting_operations_decide()
    // promise: infinite-numbers (Lasts, IsAlwaysDiscerning)
    ensures always { (t : TypeTable) (start many single : ℕ) → Lasts t start many single
        → IsAlwaysDiscerning t }
    // promise: infinite-numbers (NoneLast)
    ensures never { (t : TypeTable) → NoneLast t → (n : ℕ) × (2 ≤ n) × ¬ IsDiscerning t n }
{}

/// A finite number is at most the number of states: a closed type of which no two operations last
/// is n-discerning for no n above both 2 and the number of its states.
pub fn finite_numbers_are_few()
    // promise: finite-numbers (NoneLast, IsDiscerning)
    ensures { (t : TypeTable) → IsClosed t → NoneLast t → (n : ℕ) → 3 ≤ n → length t.states < n
        → ¬ IsDiscerning t n }
{}
