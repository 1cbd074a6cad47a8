//! Kinds of witnesses, and the first witness of a kind.
ghost use Rattle.std.specs.Prelude.{◌≡◌, ◌<◌, ◌≤◌, ◌↔◌, All, IfOk, IfSome, IsTrue, None};
ghost use Rattle.std.specs.List.{AllZip};
ghost use Rattle.cn_choice.specs.Canonical.{raw_choice_of};
ghost use Rattle.cn_choice.specs.Discerning.{IsWitness};
ghost use Rattle.cn_choice.specs.Live.{live_blocks, live_choices, live_in};
ghost use Rattle.cn_choice.specs.RawChoices.{IsRawChoice};
ghost use Rattle.cn_choice.specs.declared.limits.TheConstants.{MOST_PROCESSES};
ghost use Rattle.cn_finding.specs.Evidence.{IsFirst, IsFirstAmong};
ghost use Rattle.cn_search.specs.Search.{IsListedBlock, choices_of_all};
ghost use Rattle.cn_search.specs.declared.kind.TheConstants.{MOST_IN_ONE_THREAD};
ghost use Rattle.cn_stocks.specs.declared.threading.Threading.TheVariants.{One};

use crate::fallback::with_fallback;
use cn_choice::{Block, BlockChoices, Blocks, Choice, laws};
use cn_outcomes::is_witness;
use cn_stocks::Threading;
use cn_table::Table;
use rayon::prelude::*;
use std::alloc::{AllocError, Global};
use std::thread::Threads;

/// A kind of witness.
pub trait Kind {
    ghost use Rattle.std.specs.Prelude.{◌↔◌, IsTrue};
    ghost use Rattle.cn_choice.specs.Canonical.{FitsTable, raw_choice_of};
    ghost use Rattle.cn_choice.specs.RawChoices.{RawChoice};
    ghost use Rattle.cn_table.specs.TypeTable.{TypeTable};

    /// Holds of a type and of the choices that are its witnesses of this kind.
    ghost holds: { TypeTable → RawChoice → Type 0 };

    /// Whether the choice is a witness of this kind. It is for the table and for 2 to
    /// [`MOST_PROCESSES`](cn_choice::MOST_PROCESSES) processes.
    fn is_witness(table: &Table, choice: &Choice) -> bool
        requires { FitsTable table.now choice.now }
        ensures { IsTrue result ↔ holds table.now (raw_choice_of choice.now) };
}

/// The witnesses that show that a type is n-discerning.
pub(crate) struct DiscerningWitness;

impl Kind for DiscerningWitness {
    ghost holds = { IsWitness };

    fn is_witness(table: &Table, choice: &Choice) -> bool {
        is_witness(table, choice)
    }
}

/// The search among the choices for at most this number of processes ends before threads start.
const MOST_IN_ONE_THREAD: u8 = 3;

/// In which threads the choices for n processes are searched.
fn threading_for(threading: Threading, n: u8) -> Threading
    // promise: choice-of-threads
    ensures one { n ≤ MOST_IN_ONE_THREAD → result ≡ One }
    // promise: choice-of-threads
    ensures as_asked { MOST_IN_ONE_THREAD < n → result ≡ threading }
{
    if n <= MOST_IN_ONE_THREAD {
        Threading::One
    } else {
        threading
    }
}

/// The blocks of the live canonical choices for n processes, in order. n is from 2 to
/// [`MOST_PROCESSES`](cn_choice::MOST_PROCESSES).
///
/// # Errors
///
/// `AllocError` if memory runs out.
pub(crate) fn blocks_for(alloc: Global, table: &Table, n: u8) -> Result<Vec<Block>, AllocError>
    requires some { 2 ≤ n }
    requires few { n ≤ MOST_PROCESSES }
    // promise: first-of-kind (live_blocks)
    ensures { IfOk result (λ blocks. blocks.items ≡ live_blocks table.now n) }
{
    let mut blocks = Vec::new(alloc);
    for block in Blocks::new(table, n) {
        blocks.push(block)?;
    }
    Ok(blocks)
}

/// Whether the choice, which is one for n processes, is a witness of the kind.
fn is_of_kind<K: Kind>(table: &Table, choice: &Choice, n: u8) -> bool
    requires some { 2 ≤ n }
    requires few { n ≤ MOST_PROCESSES }
    requires fits { IsRawChoice table.now n (raw_choice_of choice.now) }
    ensures { IsTrue result ↔ K.holds table.now (raw_choice_of choice.now) }
{
    K::is_witness(table, choice)
}

/// The first witness of a block, if it has one.
fn first_in<K: Kind>(table: &Table, block: &Block) -> Option<Choice>
    requires { IsListedBlock table.now block.now }
    ensures { IsFirstAmong (K.holds table.now) (live_in table.now block.now) result }
{
    laws::block_list();
    let mut choices = BlockChoices::new(table, block);
    while let Some(choice) = choices.current() {
        if is_of_kind::<K>(table, choice, block.n) {
            return Some(choice.copy());
        }
        choices.advance();
    }
    None
}

/// The first witness of each block, if it has one.
fn firsts<K: Kind + Send + Sync, T: Threads + Sync>(
    rt: &T,
    alloc: Global,
    table: &Table,
    blocks: &[Block],
    threading: Threading,
) -> Result<Vec<Option<Choice>>, AllocError>
    requires { All (IsListedBlock table.now) blocks.now }
    ensures { IfOk result (λ firsts. AllZip
        (λ block first. IsFirstAmong (K.holds table.now) (live_in table.now block) first) blocks.now
        firsts.items) }
{
    blocks
        .par_iter()
        .with_min_len(threading.least_piece())
        .map(
            |block: &Block| -> Option<Choice>
                requires { IsListedBlock table.now block.now }
                ensures { IsFirstAmong (K.holds table.entry.now) (live_in table.entry.now block.now)
                    result }
            { first_in::<K>(table, block) },
        )
        .collect::<Vec<Option<Choice>>>(rt, alloc)
}

/// The first witness of some blocks, if they have one.
fn first_of_batch<K: Kind + Send + Sync, T: Threads + Sync>(
    rt: &T,
    alloc: Global,
    table: &Table,
    blocks: &[Block],
    threading: Threading,
) -> Result<Option<Choice>, AllocError>
    requires { All (IsListedBlock table.now) blocks.now }
    ensures { IfOk result
        (IsFirstAmong (K.holds table.now) (choices_of_all table.now blocks.now)) }
{
    for witness in firsts::<K, T>(rt, alloc, table, blocks, threading)? {
        if witness.is_some() {
            return Ok(witness);
        }
    }
    Ok(None)
}

/// The first witness of the blocks for n processes, if they have one. They are searched batch by
/// batch, each as long as all before it: so the search goes little beyond a witness that comes
/// early.
pub(crate) fn first_of_blocks<K: Kind + Send + Sync, T: Threads + Sync>(
    rt: &T,
    alloc: Global,
    table: &Table,
    n: u8,
    blocks: &[Block],
    threading: Threading,
) -> Result<Option<Choice>, AllocError>
    requires { All (IsListedBlock table.now) blocks.now }
    ensures { IfOk result
        (IsFirstAmong (K.holds table.now) (choices_of_all table.now blocks.now)) }
{
    let shared = threading_for(threading, n);
    let mut remaining = blocks;
    while !remaining.is_empty() {
        let searched = blocks.len() - remaining.len();
        let (batch, rest) = remaining.split_at(remaining.len().min(searched + 1));
        let witness = first_of_batch::<K, T>(rt, alloc, table, batch, shared)?;
        if witness.is_some() {
            return Ok(witness);
        }
        remaining = rest;
    }
    Ok(None)
}

/// How many of the blocks are searched: at most this number, or all.
fn count_of_blocks(most: Option<usize>, blocks: usize) -> usize
    ensures inside { result ≤ blocks }
    ensures all { most ≡ None → result ≡ blocks }
{
    match most {
        Some(most) => most.min(blocks),
        None => blocks,
    }
}

/// The first witness for n processes, if the first blocks have one: at most this number of blocks,
/// or all.
pub(crate) fn first_within<K: Kind + Send + Sync, T: Threads + Sync>(
    rt: &T,
    alloc: Global,
    table: &Table,
    n: u8,
    most: Option<usize>,
    threading: Threading,
) -> Result<Option<Choice>, AllocError>
    requires some { 2 ≤ n }
    requires few { n ≤ MOST_PROCESSES }
    ensures first { IfOk result (λ witness. IfSome witness
        (IsFirst (K.holds table.now) (live_choices table.now n))) }
    ensures all { most ≡ None
        → IfOk result (IsFirstAmong (K.holds table.now) (live_choices table.now n)) }
{
    laws::block_list();
    let blocks = blocks_for(alloc, table, n)?;
    let (first, _rest) = blocks.split_at(count_of_blocks(most, blocks.len()));
    first_of_blocks::<K, T>(rt, alloc, table, n, first, threading)
}

/// The first witness of a kind among the live canonical choices for n processes, if there is one. n
/// is from 2 to [`MOST_PROCESSES`](cn_choice::MOST_PROCESSES).
///
/// The search goes on in several threads, or in one if these get too little memory.
///
/// # Errors
///
/// `AllocError` if memory is too little for one thread.
// promise: first-of-kind (IsFirstAmong)
pub fn first_of_kind<K: Kind + Send + Sync, T: Threads + Sync>(
    rt: &T,
    alloc: Global,
    table: &Table,
    n: u8,
) -> Result<Option<Choice>, AllocError>
    requires some { 2 ≤ n }
    requires few { n ≤ MOST_PROCESSES }
    ensures { IfOk result (IsFirstAmong (K.holds table.now) (live_choices table.now n)) }
{
    with_fallback(
        alloc,
        |threading: Threading| -> Result<Option<Choice>, AllocError>
            requires some { 2 ≤ n }
            requires few { n ≤ MOST_PROCESSES }
            ensures { IfOk result
                (IsFirstAmong (K.holds table.entry.now) (live_choices table.entry.now n)) }
        { first_within::<K, T>(rt, alloc, table, n, None, threading) },
    )
}
