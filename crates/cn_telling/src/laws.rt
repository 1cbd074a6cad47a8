//! The laws of stocks that tell.
//!
//! A law is a function that does nothing: its contract is the law.
ghost use Rattle.std.specs.Prelude.{◌≢◌, ◌≤◌, ◌<◌, ◌+◌, ℕ, List, Option, length};
ghost use Rattle.cn_table.specs.TypeTable.{IsClosed, TypeTable};
ghost use Rattle.cn_choice.specs.Discerning.{IsDiscerning};
ghost use Rattle.cn_stocks.specs.Lasting.{NoneLast};
ghost use Rattle.cn_stocks.specs.Splits.{SomeSplits, SplitsFrom, StockSplits};
ghost use Rattle.cn_stocks.specs.Words.{times};
ghost use Rattle.cn_telling.specs.LastSearches.{HaveSameNexts, IsLastSearch};
ghost use Rattle.cn_telling.specs.Rows.{HaveOneRow, SplitsByRows, replaced};
ghost use Rattle.cn_telling.specs.Telling.{SomeTells};
ghost use Rattle.cn_telling.specs.declared.exact.LastSearch.{LastSearch};

/// The states tell all but one operation. The greatest number of operations of which some stock
/// splits is the greatest of which some stock tells, or one more:
///
/// - `splits`: a stock that tells splits, since a process sees a state beside its response;
/// - `tells`: what is left of a stock that splits tells, for some operation that is left out. Where
///   words that begin in both parts left one state, that operation, done last, would see the same
///   behind both;
/// - `fewer`: where a stock tells, so does some smaller one.
pub fn states_tell_all_but_one()
    // promise: states-tell-all-but-one (SomeTells)
    ensures splits { (t : TypeTable) (n : ℕ) → SomeTells t n → SomeSplits t n }
    // promise: states-tell-all-but-one (SomeSplits)
    ensures tells { (t : TypeTable) (n : ℕ) → 2 ≤ n → SomeSplits t (n + 1) → SomeTells t n }
    // promise: states-tell-all-but-one (SomeTells)
    ensures fewer { (t : TypeTable) (m n : ℕ) → 2 ≤ m → m ≤ n → SomeTells t n → SomeTells t m }
{}

/// The same of processes: for n of at least 3 a type of which some stock of n operations tells is
/// n-discerning, and of a type that is (n+1)-discerning some stock of n operations tells. So the
/// greatest n of stocks that tell is the number of the type, or one less.
pub fn states_tell_all_but_one_process()
    // promise: states-tell-all-but-one (SomeTells, IsDiscerning)
    ensures discerning { (t : TypeTable) (n : ℕ) → 3 ≤ n → SomeTells t n → IsDiscerning t n }
    // promise: states-tell-all-but-one (SomeTells, IsDiscerning)
    ensures tells { (t : TypeTable) (n : ℕ) → 2 ≤ n → IsDiscerning t (n + 1) → SomeTells t n }
{}

/// Of a closed type no two of whose operations last, no stock tells of more operations than it has
/// states, nor of more than 2: with up to 16 states, stocks of 16 operations are enough.
pub fn finite_stocks_that_tell_are_small()
    // promise: states-tell-all-but-one (NoneLast, SomeTells)
    ensures { (t : TypeTable) → IsClosed t → NoneLast t → (n : ℕ) → 3 ≤ n → length t.states < n
        → ¬ SomeTells t n }
{}

/// Of the operations that lead from each state to the same one a stock needs one alone, whatever
/// their responses are:
///
/// - `replaced`: let a stock of three operations or more have two of these. If it splits, so does
///   the stock with the first one in place of the second. The two are in one part, since behind
///   either a third operation sees the same. What a word of the new stock shows, a word of the old
///   one shows too: the second operation stands at some places of the first, but not at the place
///   of the operation that is asked;
/// - `rows`: so where some stock of at least 3 operations splits, one of as many operations does in
///   which no two different ones lead from each state to the same one.
pub fn one_operation_of_a_row_is_enough()
    // promise: one-operation-of-a-row (HaveOneRow, StockSplits)
    ensures replaced { (t : TypeTable) (start a b : ℕ) (stock : List ℕ) → a ≢ b → HaveOneRow t a b
        → 3 ≤ length stock → 1 ≤ times a stock → 1 ≤ times b stock → StockSplits t start stock
        → StockSplits t start (replaced a b stock) }
    // promise: one-operation-of-a-row (SplitsByRows)
    ensures rows { (t : TypeTable) (n start : ℕ) → 3 ≤ n → SplitsFrom t n start
        → SplitsByRows t n start }
{}

/// A search for stocks that tell looks at no response. So the search of a table serves for every
/// table of as many states and operations in which each operation leads from each state to the same
/// one.
pub fn searches_serve_other_responses()
    // promise: exact-split (HaveSameNexts, IsLastSearch)
    ensures { (t u : TypeTable) (most : ℕ) (last : Option LastSearch) → HaveSameNexts t u
        → IsLastSearch t most last → IsLastSearch u most last }
{}
