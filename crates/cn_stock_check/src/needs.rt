//! What a stock needs to have, for the words of a join to be within it.
ghost use Rattle.std.specs.Prelude.{◌≡◌, ◌<◌, ◌≤◌, ◌+◌, ◌↔◌, IfOk, IsTrue, length, slice_index, min, All, Contains, [], ℕ};
ghost use Rattle.cn_table.specs.TypeTable.{TypeTable};
ghost use Rattle.cn_table.specs.declared.limits.TheConstants.{MOST_OPERATIONS};
ghost use Rattle.cn_stocks.specs.Words.{times};
ghost use Rattle.cn_joins.specs.Joins.{IsJoin};
ghost use Rattle.cn_stock_check.specs.Needs.{AreKnown, AreNeedsOf, HasNeed, IsNeedOf};

use crate::words::operations_of;
use cn_joins::Join;
use cn_table::MOST_OPERATIONS;
use std::alloc::{AllocError, Global};

/// How often each operation has to be in a stock; 255 stands for 255 times or more.
pub(crate) type Counts = [u8; MOST_OPERATIONS];

/// The operations with which the words of a join begin, and how often each operation has to be
/// there.
#[derive(Clone, Copy)]
pub(crate) struct Need {
    pub first: u8,
    pub second: u8,
    pub counts: Counts,
}

/// How often the operation stands in the word, at most 255 times.
pub(crate) fn count(word: &[u8], operation: u8) -> u8
    ensures { result ≡ min (times operation word.now) 255 }
{
    let found = word.iter().filter(|o| **o == operation).count();
    found.min(255) as u8
}

/// What the join needs.
fn need_of(join: &Join) -> Need
    requires { (t : TypeTable) × IsJoin t join.now × (length t.operations < MOST_OPERATIONS + 1) }
    ensures { IsNeedOf join.now result }
{
    let (first, second) = (operations_of(&join.first), operations_of(&join.second));
    let mut counts = [0; MOST_OPERATIONS];
    for operation in 0..MOST_OPERATIONS {
        let o = operation as u8;
        counts[operation] = count(first, o).max(count(second, o));
    }
    Need {
        first: first[0],
        second: second[0],
        counts,
    }
}

/// What the joins from the state need, in order.
pub(crate) fn needs_of(alloc: Global, joins: &[Join], start: u8) -> Result<Vec<Need>, AllocError>
    requires { (t : TypeTable) × (length t.operations < MOST_OPERATIONS + 1)
        × All (IsJoin t) joins.now }
    ensures needs { IfOk result (λ needs. AreNeedsOf joins.now start 0 [] needs.items) }
    ensures known { IfOk result (λ needs. AreKnown needs.items) }
{
    let mut needs = Vec::new(alloc);
    for join in joins {
        if join.start.0 == start {
            needs.push(need_of(join))?;
        }
    }
    Ok(needs)
}

/// Whether so many of the operation are enough.
fn is_met(need: &Need, operation: u8, count: u8) -> bool
    requires { operation < MOST_OPERATIONS }
    ensures { IsTrue result ↔ (slice_index need.now.counts operation ≤ count) }
{
    need.counts[operation as usize] <= count
}

/// The needs that are met by so many of the operation, in order.
pub(crate) fn met_by(
    alloc: Global,
    needs: &[Need],
    operation: u8,
    count: u8,
) -> Result<Vec<Need>, AllocError>
    requires { operation < MOST_OPERATIONS }
    ensures met { IfOk result (λ met. (need : Need) → Contains met.items need
        ↔ (Contains needs.now need × (slice_index need.counts operation ≤ count))) }
    ensures known { IfOk result (λ met. AreKnown needs.now → AreKnown met.items) }
{
    let mut met = Vec::new(alloc);
    for need in needs {
        if is_met(need, operation, count) {
            met.push(*need)?;
        }
    }
    Ok(met)
}

/// Whether the counts have what is needed.
pub(crate) fn has_need(counts: &Counts, need: &Need) -> bool
    ensures { IsTrue result ↔ HasNeed counts.now need.now }
{
    for operation in 0..MOST_OPERATIONS {
        if need.counts[operation] > counts[operation] {
            return false;
        }
    }
    true
}
