//! Twins: neighbours with the same operation in the same team, which are interchangeable.
ghost use Rattle.std.specs.Prelude.{◌≡◌, ◌-◌, ◌<◌, ◌≤◌, ◌↔◌, ℕ, length, IsBitSet, IsTrue};
ghost use Rattle.cn_outcomes.specs.Twins.{AreTwinLinks, AreTwins, IsMover, IsPacked, IsRun};
ghost use Rattle.cn_choice.specs.declared.limits.TheConstants.{MOST_PROCESSES};

use crate::bits::Bits;
use cn_choice::RawChoice;

/// Whether the process has the same operation and team as the one before it.
fn is_linked(choice: &RawChoice, process: usize) -> bool
    requires some { 1 ≤ process }
    requires operation { process < length choice.now.operations }
    requires team { process < length choice.now.marks }
    ensures { IsTrue result → AreTwins choice.now (process - 1) }
{
    choice.operations[process] == choice.operations[process - 1]
        && choice.marks[process] == choice.marks[process - 1]
}

/// The processes that have the operation and the team of the one before them.
pub(crate) fn links(choice: &RawChoice) -> Bits
    requires few { length choice.now.operations ≤ MOST_PROCESSES }
    requires teams { length choice.now.marks ≡ length choice.now.operations }
    ensures { AreTwinLinks choice.now result }
{
    let mut links = Bits::new();
    for process in 1..choice.operations.len() {
        if is_linked(choice, process) {
            links.insert(process as u8);
        }
    }
    links
}

/// Whether the subset contains, for each linked process in it, the process before it.
pub(crate) fn is_packed(links: Bits, subset: Bits) -> bool
    ensures { IsTrue result ↔ IsPacked links subset }
{
    links
        .common_predecessors(subset)
        .difference(subset)
        .is_empty()
}

/// The processes of the subset that no linked process of it follows.
pub(crate) fn movers(links: Bits, subset: Bits) -> Bits
    ensures { (p : ℕ) → IsBitSet result p ↔ IsMover links subset p }
{
    subset.difference(links.common_predecessors(subset))
}

/// The last process of the subset in the run of linked processes from j on.
pub(crate) fn last_twin(links: Bits, subset: Bits, j: u8) -> u8
    requires known { j < 16 }
    requires member { IsBitSet subset j }
    ensures from { j ≤ result }
    ensures range { result < 16 }
    ensures member { IsBitSet subset result }
    ensures mover { IsMover links subset result }
    ensures run { IsRun links j result }
{
    let followed = links.common_predecessors(subset);
    let mut last = j;
    while followed.has(last) {
        last += 1;
    }
    last
}

/// The first process of the run of linked processes that contains j.
pub(crate) fn first_twin(links: Bits, j: u8) -> u8
    requires known { j < 16 }
    requires links { ¬ IsBitSet links 0 }
    ensures upto { result ≤ j }
    ensures first { ¬ IsBitSet links result }
    ensures run { IsRun links result j }
{
    let mut first = j;
    while links.has(first) {
        first -= 1;
    }
    first
}
