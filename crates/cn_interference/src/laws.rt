//! What interference says of the number of a type.
//!
//! A law is a function that does nothing: its contract is the law.
ghost use Rattle.std.specs.Prelude.{◌≡◌, ◌≤◌, ◌<◌, ℕ, MatchOption, None, Option, Some, length};
ghost use Rattle.cn_table.specs.TypeTable.{IsTypeTable, TypeTable};
ghost use Rattle.cn_choice.specs.Discerning.{IsDiscerning, IsNumberUpTo};
ghost use Rattle.cn_interference.specs.Interference.{AllHide, AllInterfere, NoneAnswers};
ghost use Rattle.cn_interference.specs.Rules.{most_by, Applies, IsRuleOf};
ghost use Rattle.cn_interference.specs.declared.rules.Rule.{Rule};

/// If any two operations interfere in every state, the type is n-discerning for no n of at least 3:
/// its number is at most 2.
pub fn interference_bounds()
    // promise: bounds-of-interference (AllInterfere)
    ensures refuted { (t : TypeTable) → AllInterfere t → (n : ℕ) → 3 ≤ n → ¬ IsDiscerning t n }
    // promise: bounds-of-interference
    ensures number { (t : TypeTable) (limit n : ℕ) → AllInterfere t
        → IsNumberUpTo t limit (Some n) → n ≡ 2 }
{}

/// If any two operations interfere in every state, and no operation answers anything, the type is
/// n-discerning for no n of at least 2: its number is 1.
pub fn interference_without_answers()
    // promise: bounds-of-interference (NoneAnswers)
    ensures refuted { (t : TypeTable) → IsTypeTable t → AllInterfere t → NoneAnswers t
        → (n : ℕ) → 2 ≤ n → ¬ IsDiscerning t n }
    // promise: bounds-of-interference
    ensures none { (t : TypeTable) (limit : ℕ) → IsTypeTable t → AllInterfere t → NoneAnswers t
        → IsNumberUpTo t limit None }
{}

/// On two states any two operations interfere. So the number of a type with two states is at most
/// 2.
pub fn two_states()
    // promise: bounds-of-interference
    ensures interfere { (t : TypeTable) → IsTypeTable t → length t.states ≡ 2 → AllInterfere t }
    // promise: bounds-of-interference
    ensures refuted { (t : TypeTable) → IsTypeTable t → length t.states ≡ 2
        → (n : ℕ) → 3 ≤ n → ¬ IsDiscerning t n }
{}

/// A type is 2-discerning exactly if, in some state, two operations each tell something of the
/// other:
///
/// - `refuted`: if of any two operations one tells nothing of the other, in every state, the type
///   is n-discerning for no n of at least 2;
/// - `none`: so its number is 1;
/// - `hides`: in a type that is not 2-discerning, of any two operations one tells nothing of the
///   other, in every state.
pub fn hidden_operations()
    // promise: hidden-operations (AllHide)
    ensures refuted { (t : TypeTable) → AllHide t → (n : ℕ) → 2 ≤ n → ¬ IsDiscerning t n }
    // promise: hidden-operations
    ensures none { (t : TypeTable) (limit : ℕ) → AllHide t → IsNumberUpTo t limit None }
    // promise: hidden-operations
    ensures hides { (t : TypeTable) → ¬ IsDiscerning t 2 → AllHide t }
{}

/// A type to which a rule applies is n-discerning for no n above the number of the rule:
///
/// - `refuted`: so its number is at most that one;
/// - `one`: if the type is not 2-discerning, the first rule that applies to it exists, and says 1.
pub fn rules_bound()
    // promise: bounds-of-rules (Applies, most_by)
    ensures refuted { (t : TypeTable) (rule : Rule) → IsTypeTable t → Applies t rule
        → (n : ℕ) → most_by rule < n → ¬ IsDiscerning t n }
    // promise: bounds-of-rules (IsRuleOf)
    ensures one { (t : TypeTable) (rule : Option Rule) → IsRuleOf t rule → ¬ IsDiscerning t 2
        → MatchOption rule ⊥ (λ r. most_by r ≡ 1) }
{}
