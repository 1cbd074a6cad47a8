//! The laws that hold of findings for every type and limit.
//!
//! A law is a function that does nothing: its contract is the law.
ghost use Rattle.std.specs.Prelude.{◌≡◌, ℕ, Option};
ghost use Rattle.cn_table.specs.TypeTable.{TypeTable};
ghost use Rattle.cn_choice.specs.Discerning.{IsNumberUpTo};
ghost use Rattle.cn_finding.specs.Evidence.{IsFindingFor};
ghost use Rattle.cn_finding.specs.Finding.{Finding};

use cn_choice::laws::{DiscerningType, collision_or_witness, greatest_is_unique};

/// There is only one finding for a type and a limit.
pub fn one_finding()
    // promise: finding
    // promise: certificate-by-find
    ensures { (t : TypeTable) (limit : ℕ) (f g : Finding) → IsFindingFor t limit f
        → IsFindingFor t limit g → f ≡ g }
{
    greatest_is_unique::<DiscerningType>();
    collision_or_witness();
}

/// The number of a type up to a limit is that of its finding, with or without the evidence.
pub fn number_of_finding()
    // promise: number-of-a-finding
    ensures { (t : TypeTable) (limit : ℕ) (number : Option ℕ) (f : Finding) → IsFindingFor t limit f
        → IsNumberUpTo t limit number → number ≡ f.number }
{
    greatest_is_unique::<DiscerningType>();
}
