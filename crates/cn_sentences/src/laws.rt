//! The law that the cells of a triangle are right.
//!
//! A law is a function that does nothing: its contract is the law.
ghost use Rattle.std.specs.Prelude.{◌<◌, ℕ, [], ◌∷◌, length};
ghost use Rattle.cn_table.specs.TypeTable.{TypeTable};
ghost use Rattle.cn_pairs.specs.SetNumbers.{AreSetNumbers};
ghost use Rattle.cn_pairs.specs.declared.pairs.Pairs.{Pairs};
ghost use Rattle.cn_sentences.specs.Triangle.{cell, TellsNumber};

/// The cell of an operation with itself tells the number of the type with this operation alone, and
/// the cell of two operations tells the number of the type with both alone. The numbers are those
/// that [`pairs_of`](cn_pairs::pairs_of) answers.
pub fn cells_tell_numbers()
    // promise: cells-tell-numbers
    ensures alone { (t : TypeTable) (p : Pairs) (i : ℕ) → AreSetNumbers t 1 p.alone.items
        → i < length t.operations → TellsNumber t (i ∷ []) (cell p i i) }
    // promise: cells-tell-numbers (TellsNumber: HasNumber, with_operations)
    ensures pairs { (t : TypeTable) (p : Pairs) (i j : ℕ) → AreSetNumbers t 2 p.pairs.items
        → i < j → j < length t.operations → TellsNumber t (i ∷ j ∷ []) (cell p i j) }
{}
