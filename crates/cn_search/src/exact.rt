//! The consensus number, with no limit.
ghost use Rattle.std.specs.Prelude.{◌≤◌, ℕ, length, IfOk};
ghost use Rattle.cn_table.specs.TypeTable.{IsClosed, TypeTable};
ghost use Rattle.cn_choice.specs.Discerning.{IsNumberUpTo};
ghost use Rattle.cn_stocks.specs.declared.limits.TheConstants.{MOST_SIZE};
ghost use Rattle.cn_stocks.specs.Lasting.{NoneLast};
ghost use Rattle.cn_search.specs.Numbers.{HasNumber};

use crate::fallback::with_fallback;
use crate::numbers::LEAST_WITHOUT_TEAMS;
use crate::up_to::{number_by_stocks, with_same_numbers};
use cn_stocks::Threading;
use cn_stocks::lasting::find_lasting;
use cn_stocks::lasting::laws::{finite_numbers_are_few, lasting_operations_decide};
use cn_table::{Table, laws};
use std::alloc::{AllocError, Global};
use std::fmt;
use std::thread::Threads;

/// For how many processes a type has a property, with no limit.
#[derive(Clone, Copy, Debug, PartialEq, Eq)]
pub enum ConsensusNumber {
    /// For this number and no more. It is 1 if the type has the property for no number from 2 on.
    Finite(u8),
    /// For every number.
    Infinite,
}

impl fmt::Display for ConsensusNumber {
    ghost use Rattle.std.specs.Prelude.{Some};
    ghost use Rattle.cn_search.specs.NumberText.{number_text};

    ghost output = { λ number. Some (number_text number) };

    fn fmt<W: fmt::Write>(&self, f: &mut fmt::Formatter<W>) -> fmt::Result {
        match self {
            ConsensusNumber::Finite(n) => write!(f, "{n}"),
            ConsensusNumber::Infinite => write!(f, "infinite"),
        }
    }
}

/// The most operations of the stocks that are searched for a table.
pub(crate) fn most_operations(table: &Table) -> u8
    ensures range { (3 ≤ result) × (result ≤ MOST_SIZE) }
    ensures all { length table.now.states ≤ result }
{
    table.states().max(LEAST_WITHOUT_TEAMS)
}

/// The number of a type no two of whose operations last, from the one up to at least as many
/// processes as it has states.
pub(crate) fn finite(found: Option<u8>) -> ConsensusNumber
    ensures { (t : TypeTable) (most : ℕ) → IsClosed t → NoneLast t → 3 ≤ most
        → length t.states ≤ most → IsNumberUpTo t most found → HasNumber t result }
{
    finite_numbers_are_few();
    match found {
        Some(n) => ConsensusNumber::Finite(n),
        None => ConsensusNumber::Finite(1),
    }
}

/// The number of a type no two of whose operations last.
fn finite_number<T: Threads + Sync>(
    rt: &T,
    alloc: Global,
    table: &Table,
    threading: Threading,
) -> Result<ConsensusNumber, AllocError>
    requires { NoneLast table.now }
    ensures { IfOk result (HasNumber table.now) }
{
    laws::tables_are_valid(table);
    laws::tables_are_closed();
    let most = most_operations(table);
    let found = number_by_stocks(rt, alloc, table, most, threading)?;
    Ok(finite(found))
}

/// The number of a type, with all its operations.
fn number_of_all<T: Threads + Sync>(
    rt: &T,
    alloc: Global,
    table: &Table,
) -> Result<ConsensusNumber, AllocError>
    ensures { IfOk result (HasNumber table.now) }
{
    lasting_operations_decide();
    if find_lasting(table).is_some() {
        return Ok(ConsensusNumber::Infinite);
    }
    with_fallback(
        alloc,
        |threading: Threading| -> Result<ConsensusNumber, AllocError>
            requires { NoneLast table.now }
            ensures { IfOk result (HasNumber table.entry.now) }
        { finite_number(rt, alloc, table, threading) },
    )
}

/// The consensus number of a type, with no limit: the greatest n for which it is n-discerning, 1 if
/// there is no such n from 2 on, or that it is n-discerning for every n.
///
/// It is infinite if two operations last
/// ([`lasting_operations_decide`](cn_stocks::lasting::laws::lasting_operations_decide)). A finite number is
/// at most the number of states
/// ([`finite_numbers_are_few`](cn_stocks::lasting::laws::finite_numbers_are_few)), and a search by stocks
/// finds it ([`exact_split`](cn_telling::exact_split)). Of operations that do the same in each state
/// one is searched ([`copies_tell_nothing`](cn_copies::laws::copies_tell_nothing)).
///
/// The search goes on in several threads, or in one if these get too little memory.
///
/// # Errors
///
/// `AllocError` if memory is too little for one thread.
// promise: number-without-limit (HasNumber: IsNumberOf)
pub fn consensus_number<T: Threads + Sync>(
    rt: &T,
    alloc: Global,
    table: &Table,
) -> Result<ConsensusNumber, AllocError>
    ensures { IfOk result (HasNumber table.now) }
{
    let searched = with_same_numbers(alloc, table)?;
    number_of_all(rt, alloc, &searched)
}
