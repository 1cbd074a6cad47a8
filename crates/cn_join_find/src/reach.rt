//! The operations that joins connect with one of a stock.
ghost use Rattle.std.specs.Prelude.{◌≡◌, ◌≤◌, ◌<◌, ◌↔◌, ℕ, All, Bool, IsBitSet, IsTrue, length};
ghost use Rattle.cn_joins.specs.Joins.{IsJoinWithin, beginning};
ghost use Rattle.cn_join_find.specs.Reached.{AreReached, Covers, HasAllOf, IsJoinFrom};
ghost use Rattle.cn_stocks.specs.Words.{IsKnown, IsWithin, times};

use cn_joins::{Join, PlacedWord};
use cn_outcomes::bits::{contains, with};
use cn_table::Table;

/// How often the operation stands in the list.
pub(crate) fn count(list: &[u8], operation: u8) -> usize
    ensures { result ≡ times operation list.now }
{
    list.iter().filter(|o| **o == operation).count()
}

/// Whether the word is within the stock.
fn is_within(stock: &[u8], word: &[u8]) -> bool
    ensures { IsTrue result ↔ IsWithin stock.now word.now }
{
    for operation in word {
        if count(word, *operation) > count(stock, *operation) {
            return false;
        }
    }
    true
}

/// The operation with which the word begins.
pub(crate) fn first_operation(placed: &PlacedWord) -> u8
    requires { 1 ≤ length placed.now.word }
    ensures { result ≡ beginning placed.now }
{
    placed.word[0]
}

/// Whether the word with a place is within the stock.
fn is_word_of(stock: &[u8], placed: &PlacedWord) -> bool
    ensures { IsTrue result ↔ IsWithin stock.now placed.now.word }
{
    is_within(stock, placed.word.as_slice())
}

/// Whether both words of the join are within the stock.
fn has_words_of(stock: &[u8], join: &Join) -> bool
    ensures { IsTrue result
        ↔ (IsWithin stock.now join.now.first.word × IsWithin stock.now join.now.second.word) }
{
    let first = is_word_of(stock, &join.first);
    let second = is_word_of(stock, &join.second);
    first && second
}

/// The set with the second operation, if it has the first one.
fn with_next(set: u16, first: u8, second: u8) -> u16
    requires first { first < 16 }
    requires second { second < 16 }
    ensures larger { HasAllOf result set }
    ensures joined { (chosen : ℕ → Bool) (one : ℕ) → chosen first ≡ chosen second
        → ((g : ℕ) → IsBitSet set g → chosen g ≡ chosen one)
        → (g : ℕ) → IsBitSet result g → chosen g ≡ chosen one }
{
    if contains(set, first) {
        return with(set, second);
    }
    set
}

/// The set with the operations with which the words of the join begin, if it has one of them and
/// the words are within the stock; else the set.
fn with_join(table: &Table, start: u8, join: &Join, stock: &[u8], set: u16) -> u16
    requires { IsJoinFrom table.now start join.now }
    ensures larger { HasAllOf result set }
    ensures joined { (chosen : ℕ → Bool) (first : ℕ)
        → (IsJoinWithin start stock.now join.now
        → chosen (beginning join.now.first) ≡ chosen (beginning join.now.second))
        → ((g : ℕ) → IsBitSet set g → chosen g ≡ chosen first)
        → (g : ℕ) → IsBitSet result g → chosen g ≡ chosen first }
{
    let _operations = table.operations();
    let _start = start;
    let f = first_operation(&join.first);
    let g = first_operation(&join.second);
    let has_f = contains(set, f);
    let has_g = contains(set, g);
    if has_f == has_g {
        return set;
    }
    let is_there = has_words_of(stock, join);
    if is_there {
        let with_g = with_next(set, f, g);
        return with_next(with_g, g, f);
    }
    set
}

/// The set with what the joins connect with it in one pass over them.
fn grown(table: &Table, start: u8, joins: &[Join], stock: &[u8], set: u16) -> u16
    requires { All (IsJoinFrom table.now start) joins.now }
    ensures larger { HasAllOf result set }
    ensures reached { (first : ℕ) → AreReached joins.now start stock.now first set
        → AreReached joins.now start stock.now first result }
{
    let mut grown = set;
    for join in joins {
        grown = with_join(table, start, join, stock, grown);
    }
    grown
}

/// The set with all operations of the stock that the joins connect with it.
pub(crate) fn reached(table: &Table, start: u8, joins: &[Join], stock: &[u8], from: u16) -> u16
    requires { All (IsJoinFrom table.now start) joins.now }
    ensures larger { HasAllOf result from }
    ensures reached { (first : ℕ) → AreReached joins.now start stock.now first from
        → AreReached joins.now start stock.now first result }
{
    let mut set = from;
    let mut next = grown(table, start, joins, stock, set);
    while next != set {
        set = next;
        next = grown(table, start, joins, stock, set);
    }
    set
}

/// Whether each operation of the stock is in the set.
pub(crate) fn covers(table: &Table, stock: &[u8], set: u16) -> bool
    requires { IsKnown (length table.now.operations) stock.now }
    ensures { IsTrue result ↔ Covers set stock.now }
{
    let _operations = table.operations();
    for operation in stock {
        if !contains(set, *operation) {
            return false;
        }
    }
    true
}
