//! How many teams there are of each size.
ghost use Rattle.std.specs.Prelude.{◌≡◌, ◌<◌, ◌≤◌, ◌+◌, ◌↔◌, ◌∷◌, ℕ, List, All, IfOk, IfSome, IsTrue, length, sum, slice_index};
ghost use Rattle.std.specs.Option.{IsSome};
ghost use Rattle.cn_choice.specs.declared.limits.TheConstants.{MOST_PROCESSES};
ghost use Rattle.cn_stocks.specs.Words.{HaveSame};
ghost use Rattle.cn_meetings.specs.Meeting.{Sight};
ghost use Rattle.cn_table.specs.TypeTable.{TypeTable};
ghost use Rattle.cn_shortest.specs.Examples.{IsExample};
ghost use Rattle.cn_shortest.specs.Sizes.{AreCounts, AreMerged, AreOf, HasBoth, times_of_both};

use crate::examples::{Example, merged};
use cn_choice::MOST_PROCESSES;

/// The sizes of the teams of up to [`MOST_PROCESSES`] processes, with an example.
#[derive(Clone, Copy, Drop)]
pub(crate) struct Sizes {
    /// For each size the number of teams of it.
    pub counts: [u8; MOST_PROCESSES + 1],
    /// Teams of these sizes.
    pub example: Example,
}

/// For each size how often it stands in the list.
pub(crate) fn count(list: &[u8]) -> [u8; MOST_PROCESSES + 1]
    requires few { length list.now ≤ MOST_PROCESSES }
    requires sizes { All (λ m. (1 ≤ m) × (m ≤ MOST_PROCESSES)) list.now }
    ensures { AreCounts list.now result }
{
    let mut counts = [0; MOST_PROCESSES + 1];
    for size in list {
        counts[*size as usize] += 1;
    }
    counts
}

/// The counts where a team of the one size and a team of the other one become one team, if there are
/// two such teams, and they are not all.
fn merged_counts(
    old: &[u8; MOST_PROCESSES + 1],
    a: u8,
    b: u8,
    n: u8,
) -> Option<[u8; MOST_PROCESSES + 1]>
    requires n { n ≤ MOST_PROCESSES }
    requires a { (1 ≤ a) × (a < n) }
    requires b { (1 ≤ b) × (b < n) }
    requires few { (x : ℕ) → 1 ≤ x → x ≤ MOST_PROCESSES
        → slice_index old.now x ≤ MOST_PROCESSES }
    ensures merged { IfSome result (AreMerged old.now a b) }
    ensures has { IfSome result (λ _. HasBoth old.now a b × (a + b < n)) }
    ensures all { HasBoth old.now a b → a + b < n → IsSome result }
{
    if a + b >= n {
        return None;
    }
    let mut counts = *old;
    if counts[a as usize] == 0 {
        return None;
    }
    counts[a as usize] -= 1;
    if counts[b as usize] == 0 {
        return None;
    }
    counts[b as usize] -= 1;
    counts[(a + b) as usize] += 1;
    Some(counts)
}

/// The sizes where a team of the one size and a team of the other one become one team, if there are
/// two such teams, and they are not all.
pub(crate) fn merge(sizes: &Sizes, a: u8, b: u8, n: u8) -> Option<Sizes>
    requires n { n ≤ MOST_PROCESSES }
    requires a { (1 ≤ a) × (a < n) }
    requires b { (1 ≤ b) × (b < n) }
    requires few { (x : ℕ) → 1 ≤ x → x ≤ MOST_PROCESSES
        → slice_index sizes.now.counts x ≤ MOST_PROCESSES }
    ensures merged { IfSome result (λ s. AreMerged sizes.now.counts a b s.counts
        × HasBoth sizes.now.counts a b × (a + b < n)) }
    ensures all { HasBoth sizes.now.counts a b → a + b < n → IsSome result }
    ensures example { IfSome result (λ s. (t : TypeTable) (sight : Sight)
        → IsExample t sight n sizes.now.counts sizes.now.example
        → IsExample t sight n s.counts s.example) }
{
    let counts = merged_counts(&sizes.counts, a, b, n)?;
    Some(Sizes {
        counts,
        example: merged(&sizes.example, n, a, b),
    })
}
