//! Whether evidence shows the bounds of a certificate.
ghost use Rattle.std.specs.Prelude.{◌≤◌, ◌<◌, ◌↔◌, IfNone, IfOk, IfSome, IsTrue};
ghost use Rattle.cn_choice.specs.Canonical.{raw_choice_of};
ghost use Rattle.cn_choice.specs.RawChoices.{IsRawChoice};
ghost use Rattle.cn_choice.specs.declared.limits.TheConstants.{MOST_PROCESSES};
ghost use Rattle.cn_unread_cert.specs.Right.{ShowsAtLeast, ShowsAtMost, ShowsFor, ShowsForAll};
ghost use Rattle.cn_unread_check.specs.Faults.{IsByFurther};
ghost use Rattle.cn_views.specs.VisibleChoices.{SomeLooksTell};

use cn_choice::Choice;
use cn_choice::laws::choice_by_teams;
use cn_game::Trap;
use cn_table::Table;
use cn_unread_cert::LeastClaim;
use cn_views::is_visible;
use std::alloc::{AllocError, Global};

/// Whether this is a choice of the table for n processes whose teams responses, and operations that
/// change nothing, tell apart.
fn is_visible_for(table: &Table, choice: &Choice, n: u8) -> bool
    requires { n ≤ MOST_PROCESSES }
    ensures { IsTrue result ↔ (IsRawChoice table.now n (raw_choice_of choice.now)
        × SomeLooksTell table.now (raw_choice_of choice.now)) }
{
    choice_by_teams();
    choice.is_for(table, n) && is_visible(table, choice)
}

/// Whether the evidence shows that n processes can agree; `None` where there are too many scenes.
fn shows_for(
    alloc: Global,
    table: &Table,
    least: &LeastClaim,
    n: u8,
) -> Result<Option<bool>, AllocError>
    requires { n ≤ MOST_PROCESSES }
    ensures shown { IfOk result (λ shown. IfSome shown (λ answer. IsTrue answer
        ↔ ShowsFor table.now least.now n)) }
    ensures open { IfOk result (λ shown. IfNone shown (IsByFurther least.now)) }
{
    match least {
        LeastClaim::Alone => Ok(Some(n == 1)),
        LeastClaim::Visible(choice) => Ok(Some(is_visible_for(table, choice, n))),
        LeastClaim::Further(further) => further.tells(alloc, table, n),
        LeastClaim::Signs(_) => Ok(Some(false)),
    }
}

/// Whether the evidence shows that any number of processes can agree.
fn shows_for_all(table: &Table, least: &LeastClaim) -> bool
    ensures { IsTrue result ↔ ShowsForAll table.now least.now }
{
    match least {
        LeastClaim::Signs(signs) => signs.has_signs(table),
        _ => false,
    }
}

/// Whether the evidence shows the lower bound; `None` where there are too many scenes.
pub(crate) fn shows_at_least(
    alloc: Global,
    table: &Table,
    least: &LeastClaim,
    bound: Option<u8>,
) -> Result<Option<bool>, AllocError>
    requires { IfSome bound (λ n. n ≤ MOST_PROCESSES) }
    ensures shown { IfOk result (λ shown. IfSome shown (λ answer. IsTrue answer
        ↔ ShowsAtLeast table.now least.now bound)) }
    ensures open { IfOk result (λ shown. IfNone shown (IsByFurther least.now)) }
{
    match bound {
        Some(n) => shows_for(alloc, table, least, n),
        None => Ok(Some(shows_for_all(table, least))),
    }
}

/// Whether the evidence shows the upper bound.
pub(crate) fn shows_at_most(table: &Table, most: &Option<Trap>, bound: Option<u8>) -> bool
    requires { IfSome bound (λ m. (1 ≤ m) × (m < MOST_PROCESSES)) }
    ensures { IsTrue result ↔ ShowsAtMost table.now most.now bound }
{
    match (most, bound) {
        (Some(trap), Some(m)) => trap.refutes(table, m + 1),
        (None, None) => true,
        _ => false,
    }
}
