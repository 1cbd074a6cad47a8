//! The laws of copies. A law is a function that does nothing: its contract is the law.
ghost use Rattle.std.specs.Prelude.{◌≡◌, ◌<◌, ◌↔◌, ℕ, List, All, length};
ghost use Rattle.cn_table.specs.Restriction.{with_operations};
ghost use Rattle.cn_table.specs.TypeTable.{IsClosed, TypeTable};
ghost use Rattle.cn_choice.specs.Discerning.{IsDiscerning};
ghost use Rattle.cn_copies.specs.Copies.{HasCopies, IsWithoutCopies};

/// A type is n-discerning exactly if it is so with some of its operations, where each other one is a
/// copy of one of these; so, if it is so without copies.
pub fn copies_tell_nothing()
    // promise: copies (HasCopies, IsDiscerning)
    ensures some { (t : TypeTable) (operations : List ℕ) → IsClosed t
        → All (λ o. o < length t.operations) operations → HasCopies t operations → (n : ℕ)
        → IsDiscerning t n ↔ IsDiscerning (with_operations t operations) n }
    // promise: copies (IsWithoutCopies, IsDiscerning)
    ensures without { (t u : TypeTable) → IsClosed t → IsWithoutCopies t u → (n : ℕ)
        → IsDiscerning t n ↔ IsDiscerning u n }
{}
