//! The blocks whose start states a witness can have.
ghost use Rattle.std.specs.Prelude.{◌≡◌, ◌≤◌, All, IfOk};
ghost use Rattle.cn_choice.specs.Live.{live_blocks};
ghost use Rattle.cn_choice.specs.declared.limits.TheConstants.{MOST_PROCESSES};
ghost use Rattle.cn_search.specs.Search.{HaveFirstOf, IsListedBlock};

use cn_choice::{Block, Blocks, laws};
use cn_outcomes::bits::contains;
use cn_stocks::{Threading, splitting_starts};
use cn_table::Table;
use std::alloc::{AllocError, Global};
use std::thread::Threads;

/// The blocks of the live canonical choices for n processes, in order, without those whose start
/// states no witness has. n is from 3 to [`MOST_PROCESSES`](cn_choice::MOST_PROCESSES).
///
/// # Errors
///
/// `AllocError` if memory runs out.
pub(crate) fn blocks_with_starts<T: Threads + Sync>(
    rt: &T,
    alloc: Global,
    table: &Table,
    n: u8,
    threading: Threading,
) -> Result<Vec<Block>, AllocError>
    requires some { 3 ≤ n }
    requires few { n ≤ MOST_PROCESSES }
    ensures listed { IfOk result (λ blocks. All (IsListedBlock table.now) blocks.items) }
    ensures first { IfOk result (λ blocks. HaveFirstOf table.now (live_blocks table.now n)
        blocks.items) }
{
    laws::block_list();
    laws::choices_of_block();
    cn_stocks::laws::starts_of_witnesses();
    let _states = table.states();
    let starts = splitting_starts(rt, alloc, table, n, threading)?;
    let mut blocks = Vec::new(alloc);
    for block in Blocks::new(table, n) {
        if contains(starts, block.state.0) {
            blocks.push(block)?;
        }
    }
    Ok(blocks)
}
