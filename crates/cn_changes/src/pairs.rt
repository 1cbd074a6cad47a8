//! Two changes at once.
ghost use Rattle.std.specs.Prelude.{◌≡◌, ◌<◌, ◌≤◌, ◌+◌, ◌++◌, ◌↔◌, All, IfOk, IsTrue, OnOk, flat_map, length, take};
ghost use Rattle.std.specs.List.{AllZip};
ghost use Rattle.cn_changes.specs.Changes.{IsChange};
ghost use Rattle.cn_changes.specs.Kinds.{HasNumberOf};
ghost use Rattle.cn_changes.specs.Pairs.{ArePairNumbers, ArePairsWith, change_pairs, is_before, pair_with, pairs_with, told_if, with_both};
ghost use Rattle.cn_changes.specs.declared.pairs.TheConstants.{MOST_PAIRS};

use crate::change::{Change, all_changes};
use crate::greatest::{GREATEST_RANK, Numbered, greatest_first};
use crate::kind::NumberKind;
use crate::less::is_less;
use crate::numbers::number_with;
use crate::progress::Progress;
use cn_search::{Threading, with_fallback};
use cn_table::Table;
use cn_unread_number::NumberBounds;
use rayon::prelude::*;
use std::alloc::{AllocError, Global};
use std::thread::Threads;

/// The most pairs of changes that are tried.
pub const MOST_PAIRS: usize = 50_000;

/// Changes of two entries at once.
#[derive(Clone, Copy, Debug, PartialEq, Eq)]
pub struct ChangePair {
    /// The change of the entry that stands first.
    pub first: Change,
    /// The change of the other entry.
    pub second: Change,
}

/// Changes of two entries at once, and the number of the type with both.
#[derive(Clone, Copy, Debug, PartialEq, Eq)]
pub struct PairNumber {
    /// The changes.
    pub pair: ChangePair,
    /// The number of the type with both.
    pub number: NumberBounds,
}

impl Numbered for PairNumber {
    ghost number_of = { λ x. x.number };

    fn number(&self) -> NumberBounds {
        self.number
    }
}

/// The pairs of changes that raise a number, as far as pairs were tried.
#[derive(Drop)]
pub struct PairNumbers {
    /// Those of the first [`MOST_PAIRS`] pairs that raise it, those to a greater number first.
    pub raising: Vec<PairNumber>,
    /// Whether there are more pairs than these.
    pub is_cut: bool,
}

/// Whether the entry of the first change stands before that of the second.
fn is_before(first: Change, second: Change) -> bool
    ensures { result ≡ is_before first second }
{
    let (first, second) = (first.target, second.target);
    first.operation.0 < second.operation.0
        || (first.operation.0 == second.operation.0 && first.state.0 < second.state.0)
}

/// Pushes the pair, if the entry of the first change stands before that of the second.
fn push_pair(pairs: &mut Vec<ChangePair>, first: Change, second: Change) -> Result<(), AllocError>
    ensures { OnOk result (pairs.new.items ≡ pairs.old.items ++ pair_with first second) }
{
    if is_before(first, second) {
        pairs.push(ChangePair { first, second })?;
    }
    Ok(())
}

/// Pushes the pairs of the first change, until there are more than are tried.
fn push_pairs(
    pairs: &mut Vec<ChangePair>,
    changes: &[Change],
    first: Change,
) -> Result<(), AllocError>
    requires { length pairs.old.items ≤ MOST_PAIRS + 1 }
    ensures { OnOk result (pairs.new.items
        ≡ take (MOST_PAIRS + 1) (pairs.old.items ++ pairs_with changes.now first)) }
{
    for second in changes {
        if pairs.len() > MOST_PAIRS {
            return Ok(());
        }
        push_pair(pairs, first, *second)?;
    }
    Ok(())
}

/// The pairs of these changes, by the first change, by the second: one more than are tried, if there
/// are so many.
fn pairs_among(alloc: Global, changes: &[Change]) -> Result<Vec<ChangePair>, AllocError>
    ensures { IfOk result (λ pairs. pairs.items
        ≡ take (MOST_PAIRS + 1) (flat_map (pairs_with changes.now) changes.now)) }
{
    let mut pairs = Vec::new(alloc);
    for first in changes {
        push_pairs(&mut pairs, changes, *first)?;
    }
    Ok(pairs)
}

/// The pairs of changes of a table: one more than are tried, if there are so many.
fn pairs_of(alloc: Global, table: &Table) -> Result<Vec<ChangePair>, AllocError>
    ensures { IfOk result (λ pairs. pairs.items ≡ take (MOST_PAIRS + 1) (change_pairs table.now)) }
{
    let changes = all_changes(alloc, table)?;
    pairs_among(alloc, changes.as_slice())
}

/// Whether there are more pairs than are tried.
fn are_more(count: usize) -> bool
    ensures { IsTrue result ↔ (MOST_PAIRS < count) }
{
    count > MOST_PAIRS
}

/// The pairs that are tried.
fn front_of(pairs: &[ChangePair]) -> &[ChangePair]
    ensures { result.now ≡ take MOST_PAIRS pairs.now }
{
    if pairs.len() <= MOST_PAIRS {
        return pairs;
    }
    let (front, _rest) = pairs.split_at(MOST_PAIRS);
    front
}

/// The number of the type with both changes.
fn number_with_both<T: Threads + Sync>(
    rt: &T,
    alloc: Global,
    table: &Table,
    kind: NumberKind,
    pair: ChangePair,
) -> Result<PairNumber, AllocError>
    requires { IsChange table.now pair.first × IsChange table.now pair.second }
    ensures { IfOk result (λ told. (told.pair ≡ pair)
        × HasNumberOf kind (with_both table.now told.pair) told.number) }
{
    let changed = pair.first.table(alloc, table)?;
    let number = number_with(rt, alloc, &changed, kind, pair.second)?;
    Ok(PairNumber { pair, number })
}

/// These pairs, each with the number of the type with both. The threads share them.
fn numbers_in<T: Threads + Sync, P: Progress + Sync>(
    rt: &T,
    alloc: Global,
    table: &Table,
    kind: NumberKind,
    pairs: &[ChangePair],
    progress: &P,
    threading: Threading,
) -> Result<Vec<PairNumber>, AllocError>
    requires { All (λ pair. IsChange table.now pair.first × IsChange table.now pair.second) pairs.now }
    ensures { IfOk result (λ told. AllZip (λ pair one. (one.pair ≡ pair)
        × HasNumberOf kind (with_both table.now one.pair) one.number) pairs.now told.items) }
{
    pairs
        .par_iter()
        .with_min_len(threading.least_piece())
        .map(
            |pair: &ChangePair| -> Result<PairNumber, AllocError>
                requires { IsChange table.now pair.now.first × IsChange table.now pair.now.second }
                ensures { IfOk result (λ one. (one.pair ≡ pair.now)
                    × HasNumberOf kind (with_both table.entry.now one.pair) one.number) }
            {
                let told = number_with_both(rt, alloc, table, kind, *pair);
                progress.step();
                told
            },
        )
        .collect::<Result<Vec<PairNumber>, AllocError>>(rt, alloc)?
}

/// These pairs, each with the number of the type with both, in several threads, or in one if these get
/// too little memory.
fn numbers_of<T: Threads + Sync, P: Progress + Sync>(
    rt: &T,
    alloc: Global,
    table: &Table,
    kind: NumberKind,
    pairs: &[ChangePair],
    progress: &P,
) -> Result<Vec<PairNumber>, AllocError>
    requires { All (λ pair. IsChange table.now pair.first × IsChange table.now pair.second) pairs.now }
    ensures { IfOk result (λ told. AllZip (λ pair one. (one.pair ≡ pair)
        × HasNumberOf kind (with_both table.now one.pair) one.number) pairs.now told.items) }
{
    with_fallback(
        alloc,
        |threading: Threading| -> Result<Vec<PairNumber>, AllocError>
            requires { All (λ pair. IsChange table.now pair.first
                × IsChange table.now pair.second) pairs.now }
            ensures { IfOk result (λ told. AllZip (λ pair one. (one.pair ≡ pair)
                × HasNumberOf kind (with_both table.entry.now one.pair) one.number)
                pairs.entry.now told.items) }
        {
            progress.begin(pairs.len());
            numbers_in(rt, alloc, table, kind, pairs, progress, threading)
        },
    )
}

/// Those of the pairs that raise the number.
fn raising_of(
    alloc: Global,
    number: NumberBounds,
    told: &[PairNumber],
) -> Result<Vec<PairNumber>, AllocError>
    ensures { IfOk result (λ raising. raising.items ≡ flat_map (told_if number) told.now) }
{
    let mut raising = Vec::new(alloc);
    for one in told {
        if is_less(number, one.number) {
            raising.push(*one)?;
        }
    }
    Ok(raising)
}

/// The pairs of changes of two entries that raise the number of a type: of the first [`MOST_PAIRS`]
/// pairs, by the first change, by the second. The progress is told of each pair.
///
/// # Errors
///
/// `AllocError` if memory is too little for one thread.
pub fn pair_numbers<T: Threads + Sync, P: Progress + Sync>(
    rt: &T,
    alloc: Global,
    table: &Table,
    kind: NumberKind,
    number: NumberBounds,
    progress: &P,
) -> Result<PairNumbers, AllocError>
    // promise: numbers-of-changes (ArePairNumbers)
    ensures { IfOk result (ArePairNumbers kind table.now number) }
{
    let pairs = pairs_of(alloc, table)?;
    let is_cut = are_more(pairs.len());
    let tried = front_of(pairs.as_slice());
    let told = numbers_of(rt, alloc, table, kind, tried, progress)?;
    let raising = raising_of(alloc, number, told.as_slice())?;
    let raising = greatest_first(alloc, GREATEST_RANK, raising.as_slice())?;
    Ok(PairNumbers { raising, is_cut })
}
