//! The numbers of a type with each of its changes.
ghost use Rattle.std.specs.Prelude.{◌≡◌, All, IfOk};
ghost use Rattle.std.specs.List.{AllZip};
ghost use Rattle.cn_changes.specs.Changes.{IsTarget};
ghost use Rattle.cn_changes.specs.Kinds.{HasNumberOf};
ghost use Rattle.cn_changes.specs.Told.{AreAllNumbers, AreNextNumbers};

use crate::kind::{NumberKind, number_of};
use crate::numbers::{NextNumbers, next_numbers};
use crate::progress::Progress;
use crate::targets::{Target, targets_of};
use cn_search::{Threading, with_fallback};
use cn_table::Table;
use cn_unread_number::NumberBounds;
use rayon::prelude::*;
use std::alloc::{AllocError, Global};
use std::thread::Threads;

/// The number of a type, and its numbers with each change of one entry.
#[derive(Drop)]
pub struct Changes {
    /// Which number is told.
    pub kind: NumberKind,
    /// The number of the type.
    pub number: NumberBounds,
    /// Every entry with every next state, by operation, by state, by next state, with the numbers.
    pub nexts: Vec<NextNumbers>,
}

/// These entries and next states, each with its numbers. The threads share them.
fn numbers_in<T: Threads + Sync, P: Progress + Sync>(
    rt: &T,
    alloc: Global,
    table: &Table,
    kind: NumberKind,
    targets: &[Target],
    progress: &P,
    threading: Threading,
) -> Result<Vec<NextNumbers>, AllocError>
    requires { All (IsTarget table.now) targets.now }
    ensures { IfOk result (λ nexts. AllZip
        (λ x told. (told.target ≡ x) × AreNextNumbers kind table.now told) targets.now nexts.items) }
{
    targets
        .par_iter()
        .with_min_len(threading.least_piece())
        .map(
            |target: &Target| -> Result<NextNumbers, AllocError>
                requires { IsTarget table.now target.now }
                ensures { IfOk result (λ told. (told.target ≡ target.now)
                    × AreNextNumbers kind table.entry.now told) }
            {
                let told = next_numbers(rt, alloc, table, kind, *target);
                progress.step();
                told
            },
        )
        .collect::<Result<Vec<NextNumbers>, AllocError>>(rt, alloc)?
}

/// These entries and next states, each with its numbers, in several threads, or in one if these get
/// too little memory.
fn numbers_of<T: Threads + Sync, P: Progress + Sync>(
    rt: &T,
    alloc: Global,
    table: &Table,
    kind: NumberKind,
    targets: &[Target],
    progress: &P,
) -> Result<Vec<NextNumbers>, AllocError>
    requires { All (IsTarget table.now) targets.now }
    ensures { IfOk result (λ nexts. AllZip
        (λ x told. (told.target ≡ x) × AreNextNumbers kind table.now told) targets.now nexts.items) }
{
    with_fallback(
        alloc,
        |threading: Threading| -> Result<Vec<NextNumbers>, AllocError>
            requires { All (IsTarget table.now) targets.now }
            ensures { IfOk result (λ nexts. AllZip
                (λ x told. (told.target ≡ x) × AreNextNumbers kind table.entry.now told)
                targets.entry.now nexts.items) }
        {
            progress.begin(targets.len());
            numbers_in(rt, alloc, table, kind, targets, progress, threading)
        },
    )
}

/// The number of a type, and its numbers with each change of one entry. The progress is told of each
/// entry with each next state.
///
/// # Errors
///
/// `AllocError` if memory is too little for one thread.
pub fn changes_of<T: Threads + Sync, P: Progress + Sync>(
    rt: &T,
    alloc: Global,
    table: &Table,
    kind: NumberKind,
    progress: &P,
) -> Result<Changes, AllocError>
    // promise: numbers-of-changes
    ensures kind { IfOk result (λ c. c.kind ≡ kind) }
    // promise: numbers-of-changes (HasNumberOf)
    ensures number { IfOk result (λ c. HasNumberOf kind table.now c.number) }
    // promise: numbers-of-changes (AreAllNumbers)
    ensures nexts { IfOk result (λ c. AreAllNumbers kind table.now c.nexts.items) }
{
    let number = number_of(rt, alloc, table, kind)?;
    let targets = targets_of(alloc, table)?;
    let nexts = numbers_of(rt, alloc, table, kind, targets.as_slice(), progress)?;
    Ok(Changes {
        kind,
        number,
        nexts,
    })
}
