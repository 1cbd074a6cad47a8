//! The laws of the numbers of sets of operations.
//!
//! A law is a function that does nothing: its contract is the law.
ghost use Rattle.std.specs.Prelude.{◌≡◌, ◌↔◌, ℕ, All, List, false, length, map, take, true};
ghost use Rattle.std.specs.List.{filter};
ghost use Rattle.cn_table.specs.Restriction.{with_operations};
ghost use Rattle.cn_table.specs.TypeTable.{TypeTable};
ghost use Rattle.cn_choice.specs.Discerning.{IsDiscerning};
ghost use Rattle.cn_search.specs.Numbers.{HasNumber};
ghost use Rattle.cn_search.specs.declared.exact.ConsensusNumber.{ConsensusNumber};
ghost use Rattle.cn_pairs.specs.SetNumbers.{AreSetNumbers, set_of};
ghost use Rattle.cn_pairs.specs.Smallest.{AreSmallest, HasNumberWith, IsWithin, NoneHas, same_number};
ghost use Rattle.cn_pairs.specs.declared.restricted.SetNumber.{SetNumber};
ghost use Rattle.cn_pairs.specs.declared.smallest.TheConstants.{MOST_SETS};

/// A type has only one number.
pub fn one_number()
    // promise: one-exact-number (HasNumber)
    ensures { (t : TypeTable) (a b : ConsensusNumber) → HasNumber t a → HasNumber t b
        → same_number a b ≡ true }
{}

/// The set of all operations has the number of the type.
pub fn whole_type_has_its_number()
    // promise: one-exact-number (NoneHas, HasNumber)
    ensures { (t : TypeTable) (number : ConsensusNumber) → HasNumber t number
        → ¬ NoneHas t (length t.operations) number }
{}

/// A type with more operations has no lesser number: with a larger set of operations it is
/// n-discerning for each n for which it is with the set alone.
pub fn more_operations()
    // promise: more-operations (IsWithin, with_operations, IsDiscerning)
    ensures { (t : TypeTable) (set larger : List ℕ) → IsWithin set larger → (n : ℕ)
        → IsDiscerning (with_operations t set) n → IsDiscerning (with_operations t larger) n }
{}

/// A set of operations between two with one number has this number too.
pub fn sets_between()
    // promise: more-operations (IsWithin, HasNumberWith)
    ensures { (t : TypeTable) (number : ConsensusNumber) (few set many : List ℕ)
        → IsWithin few set → IsWithin set many
        → HasNumberWith t number few → HasNumberWith t number many → HasNumberWith t number set }
{}

/// The numbers of all sets of one size tell which of them are the smallest with a number, and
/// whether one of them has it.
pub fn numbers_tell_smallest_sets()
    // promise: smallest-sets-by-numbers (AreSmallest, AreSetNumbers)
    ensures first { (t : TypeTable) (number : ConsensusNumber) (sets : List (List ℕ))
        (smallest : AreSmallest t number sets) (all : List SetNumber)
        → AreSetNumbers t smallest.size all → sets
        ≡ map set_of (take MOST_SETS (filter (λ s. same_number s.number number) all)) }
    // promise: smallest-sets-by-numbers (NoneHas)
    ensures none { (t : TypeTable) (size : ℕ) (number : ConsensusNumber) (all : List SetNumber)
        → AreSetNumbers t size all
        → NoneHas t size number ↔ All (λ s. same_number s.number number ≡ false) all }
{}
