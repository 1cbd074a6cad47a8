//! Sets of small numbers, as the bits of a number.
ghost use Rattle.std.specs.Prelude.{◌≡◌, ◌<◌, ◌⊎◌, ◌↔◌, ℕ, IsTrue};
ghost use Rattle.cn_choice.specs.declared.limits.TheConstants.{MOST_PROCESSES};
ghost use Rattle.cn_check.specs.Runs.{IsIn, with_mover};

/// Whether the process has moved.
pub(crate) fn has_moved(used: u8, process: u8) -> bool
    requires { process < MOST_PROCESSES }
    ensures { IsTrue result ↔ IsIn used process }
{
    used >> process & 1 == 1
}

/// The set of the processes that have moved, with one more.
pub(crate) fn with_moved(used: u8, process: u8) -> u8
    requires { process < MOST_PROCESSES }
    ensures with { result ≡ with_mover used process }
    ensures more { ¬ IsIn used process → used < result }
{
    used | 1 << process
}

/// The set of this number alone.
pub(crate) fn only(number: u8) -> u16
    requires { number < 16 }
    ensures { (q : ℕ) → IsIn result q ↔ (q ≡ number) }
{
    1 << number
}

/// The union of the sets.
pub(crate) fn union(set: u16, other: u16) -> u16
    ensures { (q : ℕ) → IsIn result q ↔ (IsIn set q ⊎ IsIn other q) }
{
    set | other
}

/// Whether some number is in both sets.
pub(crate) fn share(set: u16, other: u16) -> bool
    ensures { IsTrue result ↔ ((q : ℕ) × IsIn set q × IsIn other q) }
{
    set & other != 0
}
