//! Sets of small numbers, as the bits of a number.
ghost use Rattle.std.specs.Prelude.{◌≡◌, ◌<◌, ◌⊎◌, ◌↔◌, ℕ, IsTrue};
ghost use Rattle.cn_stock_check.specs.Sets.{IsIn};

/// Whether the number is in the set.
pub(crate) fn has(set: u16, number: u8) -> bool
    requires { number < 16 }
    ensures { IsTrue result ↔ IsIn set number }
{
    set >> number & 1 == 1
}

/// The set of this number alone.
pub(crate) fn only(number: u8) -> u16
    requires { number < 16 }
    ensures { (q : ℕ) → IsIn result q ↔ (q ≡ number) }
{
    1 << number
}

/// The union of the sets.
pub(crate) fn union(set: u16, other: u16) -> u16
    ensures { (q : ℕ) → IsIn result q ↔ (IsIn set q ⊎ IsIn other q) }
{
    set | other
}

/// Whether some number is in both sets.
pub(crate) fn share(set: u16, other: u16) -> bool
    ensures { IsTrue result ↔ ((q : ℕ) × IsIn set q × IsIn other q) }
{
    set & other != 0
}
