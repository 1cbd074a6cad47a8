//! The laws of changes.
//!
//! A law is a function that does nothing: its contract is the law.
ghost use Rattle.std.specs.Prelude.{List, All};
ghost use Rattle.cn_table.specs.TypeTable.{TypeTable};
ghost use Rattle.cn_unread_number.specs.declared.bounds.NumberBounds.{NumberBounds};
ghost use Rattle.cn_changes.specs.Changes.{IsChange, IsTarget};
ghost use Rattle.cn_changes.specs.Pairs.{ArePairNumbers};
ghost use Rattle.cn_changes.specs.Told.{AreAllNumbers};
ghost use Rattle.cn_changes.specs.declared.kind.NumberKind.{NumberKind};
ghost use Rattle.cn_changes.specs.declared.numbers.NextNumbers.{NextNumbers};
ghost use Rattle.cn_changes.specs.declared.pairs.PairNumbers.{PairNumbers};

/// The changes that are told are changes of the type.
pub fn told_changes_are_known()
    // promise: numbers-of-changes (IsChange)
    ensures nexts { (kind : NumberKind) (t : TypeTable) (told : List NextNumbers)
        → AreAllNumbers kind t told
        → All (λ x. IsTarget t x.target × All (λ r. IsChange t r.change) x.numbers.items) told }
    // promise: numbers-of-changes (IsChange)
    ensures pairs { (kind : NumberKind) (t : TypeTable) (number : NumberBounds) (told : PairNumbers)
        → ArePairNumbers kind t number told
        → All (λ x. IsChange t x.pair.first × IsChange t x.pair.second) told.raising.items }
{}
