//! Bounds that are found step by step.
ghost use Rattle.std.specs.Prelude.{◌≡◌, ℕ, ◌≤◌, IfOk, IfSome};
ghost use Rattle.cn_choice.specs.declared.limits.TheConstants.{MOST_PROCESSES};
ghost use Rattle.cn_search.specs.Numbers.{HasNumber};
ghost use Rattle.cn_unread_number.specs.Bounds.{most_with_reads};
ghost use Rattle.cn_unread_number.specs.Evidence.{AreAtLeast, AreAtMost, AreShown, IsVisibleUpTo};
ghost use Rattle.cn_unread_number.specs.Steps.{IsShown, IsStepFor, IsWithin};

use crate::bounds::{NumberBounds, most_with_reads};
use crate::evidence::{Evidence, LeastEvidence, MostEvidence};
use cn_choice::MOST_PROCESSES;
use cn_choice::laws::live_choices_decide;
use cn_further::{Further, find_further};
use cn_game::{Trap, find_trap};
use cn_search::ConsensusNumber;
use cn_table::Table;
use cn_views::find_visible;
use std::alloc::{AllocError, Global};

/// So many choices for each number of processes are looked at for one that is visible.
pub const MOST_CHOICES: u32 = 100_000;

/// The most attempts of a search for further operations, for two processes.
const MOST_ATTEMPTS: usize = 32_768;

/// The most positions of a search for a trap.
const MOST_POSITIONS: usize = 60_000;

/// What is shown of a number so far.
#[derive(Drop)]
pub(crate) struct Shown {
    /// It is not less.
    pub least: u8,
    /// Why it is not.
    pub by: LeastEvidence,
    /// It is not more, if there is a bound.
    pub most: Option<u8>,
    /// Why it is not.
    pub why: MostEvidence,
}

/// The greatest number that is searched.
fn greatest(most: Option<u8>) -> u8
    ensures few { result ≤ MOST_PROCESSES }
    ensures within { IfSome most (λ n. result ≤ n) }
    ensures all { (n : ℕ) → n ≤ MOST_PROCESSES → IfSome most (λ m. n ≤ m) → n ≤ result }
{
    most.unwrap_or(MOST_PROCESSES as u8)
        .min(MOST_PROCESSES as u8)
}

/// What choices show that are visible, for more and more processes.
fn most_visible(table: &Table, number: ConsensusNumber) -> Shown
    requires { HasNumber table.now number }
    ensures shown { IsShown table.now result }
    ensures most { result.most ≡ most_with_reads number }
    ensures visible { (n : ℕ) → n ≤ MOST_PROCESSES → IsVisibleUpTo table.now n
        → n ≤ result.least }
{
    live_choices_decide();
    let most = most_with_reads(number);
    let why = match most {
        Some(_) => MostEvidence::WithReads,
        None => MostEvidence::Open,
    };
    let mut shown = Shown {
        least: 1,
        by: LeastEvidence::Alone,
        most,
        why,
    };
    for least in 1..greatest(most) {
        let Some(choice) = find_visible(table, least + 1, MOST_CHOICES) else {
            return shown;
        };
        shown.least = least + 1;
        shown.by = LeastEvidence::Visible(choice);
    }
    shown
}

/// What one process more makes of a bound.
#[derive(Drop)]
enum Step {
    /// No choice for so many processes is defended.
    Bounded(Trap),
    /// A further operation tells for so many.
    Raised(Further),
    /// Neither is found.
    Open,
}

/// The most attempts for n processes. One for a process more meets some four times as many scenes, so
/// a quarter as many take as long.
fn most_attempts(n: u8) -> usize
    requires some { 2 ≤ n }
    requires few { n ≤ MOST_PROCESSES }
{
    MOST_ATTEMPTS >> (2 * (n - 2))
}

/// The next step, for n processes.
fn next_step(alloc: Global, table: &Table, n: u8) -> Result<Step, AllocError>
    requires some { 2 ≤ n }
    requires few { n ≤ MOST_PROCESSES }
    ensures { IfOk result (IsStepFor table.now n) }
{
    if let Some(trap) = find_trap(alloc, table, n, MOST_POSITIONS)? {
        return Ok(Step::Bounded(trap));
    }
    match find_further(alloc, table, n, most_attempts(n))? {
        Some(further) => Ok(Step::Raised(further)),
        None => Ok(Step::Open),
    }
}

/// What is shown once a trap is looked for that bounds the number by this one, by the next one, and so
/// on.
fn bounded_from(alloc: Global, table: &Table, shown: Shown, first: u8) -> Result<Shown, AllocError>
    requires shown { IsShown table.now shown }
    requires least { shown.least ≤ first }
    ensures shown { IfOk result (IsShown table.now) }
    ensures least { IfOk result (λ all. all.least ≡ shown.least) }
    ensures within { IfOk result (λ all. IfSome shown.most (IsWithin all.most)) }
{
    let mut all = shown;
    for most in first..greatest(all.most) {
        if let Some(trap) = find_trap(alloc, table, most + 1, MOST_POSITIONS)? {
            all.most = Some(most);
            all.why = MostEvidence::Trap(trap);
            return Ok(all);
        }
    }
    Ok(all)
}

/// What is shown once traps and further operations are looked for, for more and more processes.
fn raised(alloc: Global, table: &Table, shown: Shown) -> Result<Shown, AllocError>
    requires { IsShown table.now shown }
    ensures shown { IfOk result (IsShown table.now) }
    ensures least { IfOk result (λ all. shown.least ≤ all.least) }
    ensures within { IfOk result (λ all. IfSome shown.most (IsWithin all.most)) }
{
    let mut all = shown;
    for least in all.least..greatest(all.most) {
        match next_step(alloc, table, least + 1)? {
            Step::Bounded(trap) => {
                all.most = Some(least);
                all.why = MostEvidence::Trap(trap);
                return Ok(all);
            }
            Step::Raised(further) => {
                all.least = least + 1;
                all.by = LeastEvidence::Further(further);
            }
            Step::Open => return bounded_from(alloc, table, all, least + 1),
        }
    }
    Ok(all)
}

/// What is shown, as bounds.
fn bounds_of(table: &Table, shown: &Shown) -> NumberBounds
    requires { IsShown table.now shown.now }
    ensures shown { AreShown table.now shown.now.by shown.now.why result }
    ensures least { AreAtLeast result shown.now.least }
    ensures within { IfSome shown.now.most (AreAtMost result) }
{
    match shown.most {
        None => NumberBounds::AtLeast(shown.least),
        Some(most) if shown.least == most => NumberBounds::Exactly(most),
        Some(most) => NumberBounds::Between(shown.least, most),
    }
}

/// The bounds of the number of a table with this number with reads, by what is found.
pub(crate) fn found_bounds(
    alloc: Global,
    table: &Table,
    number: ConsensusNumber,
) -> Result<Evidence, AllocError>
    requires { HasNumber table.now number }
    ensures shown { IfOk result (λ e. AreShown table.now e.least e.most e.bounds) }
    ensures within { IfOk result (λ e. IfSome (most_with_reads number) (AreAtMost e.bounds)) }
    ensures visible { IfOk result (λ e. (n : ℕ) → n ≤ MOST_PROCESSES → IsVisibleUpTo table.now n
        → AreAtLeast e.bounds n) }
{
    let shown = raised(alloc, table, most_visible(table, number))?;
    let bounds = bounds_of(table, &shown);
    Ok(Evidence {
        bounds,
        least: shown.by,
        most: shown.why,
    })
}
