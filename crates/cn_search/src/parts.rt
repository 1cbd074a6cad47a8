//! The evidence of many blocks, made part by part by several threads.
ghost use Rattle.std.specs.Prelude.{All, IfOk, IfSome};
ghost use Rattle.cn_choice.specs.Live.{live_in};
ghost use Rattle.cn_search.specs.Search.{choices_of_all};
ghost use Rattle.cn_search.specs.Kept.{KeepsFor};
ghost use Rattle.cn_search.specs.Parts.{AreSlots, IsPartOf};
ghost use Rattle.cn_search.specs.Refuted.{IsRefutedWith};

use crate::Evidence;
use crate::search::add_block;
use cn_choice::Block;
use cn_collisions::Sets;
use cn_stocks::Threading;
use cn_table::Table;
use rayon::current_num_threads;
use rayon::prelude::*;
use std::alloc::{AllocError, Global};
use std::sync::atomic::{AtomicU64, Ordering};
use std::thread::Threads;

/// The evidence of one block, and the place of the block.
#[derive(Drop)]
pub(crate) struct Part<E> {
    pub place: usize,
    pub evidence: E,
}

/// The recorded collision of each choice of a block, none of which is a witness.
fn evidence_of<E: Evidence>(
    alloc: Global,
    table: &Table,
    sets: &Sets<'_>,
    block: &Block,
) -> Result<E, AllocError>
    requires { IsRefutedWith table.now sets.now block.now }
    ensures { IfOk result (KeepsFor E.keeps table.now (live_in table.now block.now)) }
{
    let mut evidence = E::none(alloc);
    add_block(table, sets, block, &mut evidence)?;
    Ok(evidence)
}

/// The parts that one thread makes. It takes the next block that no thread has taken, until there
/// is none.
fn parts_of_thread<E: Evidence>(
    alloc: Global,
    table: &Table,
    sets: &Sets<'_>,
    blocks: &[Block],
    taken: &AtomicU64,
) -> Result<Vec<Part<E>>, AllocError>
    requires { All (IsRefutedWith table.now sets.now) blocks.now }
    ensures { IfOk result (λ parts. All (IsPartOf E.keeps table.now blocks.now) parts.items) }
{
    let mut parts = Vec::new(alloc);
    for _turn in 0..blocks.len() {
        let place = taken.fetch_add(1, Ordering::Relaxed) as usize;
        let Some(block) = blocks.get(place) else {
            break;
        };
        let evidence = evidence_of(alloc, table, sets, block)?;
        parts.push(Part { place, evidence })?;
    }
    Ok(parts)
}

/// The parts that each thread makes.
fn parts_by_thread<T: Threads + Sync, E: Evidence + Send>(
    rt: &T,
    alloc: Global,
    table: &Table,
    sets: &Sets<'_>,
    blocks: &[Block],
    threading: Threading,
) -> Result<Vec<Vec<Part<E>>>, AllocError>
    requires { All (IsRefutedWith table.now sets.now) blocks.now }
    ensures { IfOk result (λ all. All (λ parts. All (IsPartOf E.keeps table.now blocks.now)
        parts.items) all.items) }
{
    let taken = &AtomicU64::new(0);
    (0..current_num_threads(rt))
        .into_par_iter()
        .with_min_len(threading.least_piece())
        .map(
            |_thread: usize| -> Result<Vec<Part<E>>, AllocError>
                requires { All (IsRefutedWith table.now sets.now) blocks.now }
                ensures { IfOk result
                    (λ parts. All (IsPartOf E.keeps table.entry.now blocks.entry.now)
                    parts.items) }
            { parts_of_thread(alloc, table, sets, blocks, taken) },
        )
        .collect::<Result<Vec<Vec<Part<E>>>, AllocError>>(rt, alloc)?
}

/// Puts each part into the slot of its block.
fn fill<E: Evidence>(
    slots: &mut Vec<Option<E>>,
    table: &Table,
    blocks: &[Block],
    parts: Vec<Part<E>>,
)
    requires slots { AreSlots E.keeps table.now blocks.now slots.old.items }
    requires parts { All (IsPartOf E.keeps table.now blocks.now) parts.items }
    ensures { AreSlots E.keeps table.now blocks.now slots.new.items }
{
    let (_table, _blocks) = (table, blocks);
    for part in parts {
        let Part { place, evidence } = part;
        slots[place] = Some(evidence);
    }
}

/// The slots of the blocks, each with the evidence of its block, if a thread has made it.
fn slots_of<E: Evidence>(
    alloc: Global,
    table: &Table,
    blocks: &[Block],
    all: Vec<Vec<Part<E>>>,
) -> Result<Vec<Option<E>>, AllocError>
    requires { All (λ parts. All (IsPartOf E.keeps table.now blocks.now) parts.items) all.items }
    ensures { IfOk result (λ slots. AreSlots E.keeps table.now blocks.now slots.items) }
{
    let mut slots = Vec::with_capacity(alloc, blocks.len())?;
    for _block in blocks {
        slots.push(None)?;
    }
    for parts in all {
        fill(&mut slots, table, blocks, parts);
    }
    Ok(slots)
}

/// The evidence of a block from its slot. If no thread has made it, it is made here.
fn evidence_in<E: Evidence>(
    alloc: Global,
    table: &Table,
    sets: &Sets<'_>,
    block: &Block,
    slot: Option<E>,
) -> Result<E, AllocError>
    requires block { IsRefutedWith table.now sets.now block.now }
    requires slot { IfSome slot (KeepsFor E.keeps table.now (live_in table.now block.now)) }
    ensures { IfOk result (KeepsFor E.keeps table.now (live_in table.now block.now)) }
{
    match slot {
        Some(evidence) => Ok(evidence),
        None => evidence_of(alloc, table, sets, block),
    }
}

/// The evidence of the slots, block by block.
fn joined<E: Evidence>(
    alloc: Global,
    table: &Table,
    sets: &Sets<'_>,
    blocks: &[Block],
    slots: Vec<Option<E>>,
) -> Result<E, AllocError>
    requires blocks { All (IsRefutedWith table.now sets.now) blocks.now }
    requires slots { AreSlots E.keeps table.now blocks.now slots.items }
    ensures { IfOk result (KeepsFor E.keeps table.now (choices_of_all table.now blocks.now)) }
{
    let mut evidence = E::none(alloc);
    let mut place = 0;
    for slot in slots {
        let part = evidence_in(alloc, table, sets, &blocks[place], slot)?;
        evidence.append(part)?;
        place += 1;
    }
    Ok(evidence)
}

/// The recorded collision of each choice of the blocks, none of which is a witness, in the order of
/// the choices.
pub(crate) fn whole_evidence<T: Threads + Sync, E: Evidence + Send>(
    rt: &T,
    alloc: Global,
    table: &Table,
    sets: &Sets<'_>,
    blocks: &[Block],
    threading: Threading,
) -> Result<E, AllocError>
    requires { All (IsRefutedWith table.now sets.now) blocks.now }
    ensures { IfOk result (KeepsFor E.keeps table.now (choices_of_all table.now blocks.now)) }
{
    let parts = parts_by_thread(rt, alloc, table, sets, blocks, threading)?;
    let slots = slots_of(alloc, table, blocks, parts)?;
    joined(alloc, table, sets, blocks, slots)
}
