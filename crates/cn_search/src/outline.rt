//! A finding without its collisions.
ghost use Rattle.std.specs.Prelude.{◌≡◌, ◌≤◌, IfOk, IfSome, IsSomeAnd, MatchOption, None, Some};
ghost use Rattle.cn_choice.specs.Discerning.{IsDiscerning};
ghost use Rattle.cn_choice.specs.Live.{live_choices};
ghost use Rattle.cn_choice.specs.declared.limits.TheConstants.{MOST_PROCESSES};
ghost use Rattle.cn_finding.specs.Evidence.{IsFirstWitness};
ghost use Rattle.cn_finding.specs.declared.limits.TheConstants.{GREATEST_LIMIT, LEAST_LIMIT};
ghost use Rattle.cn_search.specs.Outlines.{IsOutlineFor};
ghost use Rattle.cn_search.specs.Search.{IsKnownAt};

use crate::kind::{DiscerningWitness, first_of_blocks};
use crate::numbers::{Greatest, greatest_number};
use crate::starts::blocks_with_starts;
use cn_choice::{Choice, laws};
use cn_stocks::Threading;
use cn_table::Table;
use std::alloc::{AllocError, Global};
use std::thread::Threads;

/// The number of a type up to a limit, and a witness for it.
#[derive(Drop)]
pub struct Outline {
    /// The limit that the search was given.
    pub limit: u8,
    /// The greatest n from 2 to the limit for which the type is n-discerning, if there is one.
    pub number: Option<u8>,
    /// The first canonical witness at that number.
    pub witness: Option<Choice>,
}

/// The first witness at the number that was found, if one was. If stocks showed the number, it is
/// searched among the blocks whose start states a witness can have.
fn witness_at<T: Threads + Sync>(
    rt: &T,
    alloc: Global,
    table: &Table,
    found: Greatest,
    threading: Threading,
) -> Result<Option<Choice>, AllocError>
    requires number { IfSome found.number (λ n. (n ≤ MOST_PROCESSES) × IsDiscerning table.now n) }
    requires witness { MatchOption found.number (found.witness ≡ None)
        (λ n. IsKnownAt table.now n found.witness) }
    ensures { IfOk result (λ witness. MatchOption found.number (witness ≡ None)
        (λ n. IsSomeAnd witness (IsFirstWitness table.now (live_choices table.now n)))) }
{
    laws::block_list();
    laws::live_choices_decide();
    let Some(n) = found.number else {
        return Ok(None);
    };
    if found.witness.is_some() {
        return Ok(found.witness);
    }
    let blocks = blocks_with_starts(rt, alloc, table, n, threading)?;
    first_of_blocks::<DiscerningWitness, T>(rt, alloc, table, n, blocks.as_slice(), threading)
}

/// The number up to the limit, and the first witness at it.
pub(crate) fn outline_up_to<T: Threads + Sync>(
    rt: &T,
    alloc: Global,
    table: &Table,
    limit: u8,
    threading: Threading,
) -> Result<Outline, AllocError>
    requires some { LEAST_LIMIT ≤ limit }
    requires few { limit ≤ GREATEST_LIMIT }
    ensures { IfOk result (IsOutlineFor table.now limit) }
{
    let found = greatest_number(rt, alloc, table, limit, threading)?;
    let number = found.number;
    let witness = witness_at(rt, alloc, table, found, threading)?;
    Ok(Outline {
        limit,
        number,
        witness,
    })
}
