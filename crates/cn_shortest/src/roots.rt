//! The roots that a plan tree may have: how the processes look, and the sizes of the teams.
ghost use Rattle.std.specs.Prelude.{◌≡◌, ◌<◌, ◌≤◌, ◌+◌, ◌↔◌, ℕ, IfOk, IsTrue, Some, length, slice_get};
ghost use Rattle.cn_choice.specs.declared.limits.TheConstants.{MOST_PROCESSES};
ghost use Rattle.cn_divisions.specs.Divisions.{IsDivision};
ghost use Rattle.cn_divisions.specs.declared.search.SightDivisions.{SightDivisions};
ghost use Rattle.cn_meetings.specs.Meeting.{Sight as MeetingSight};
ghost use Rattle.cn_table.specs.TypeTable.{TypeTable};
ghost use Rattle.cn_shortest.specs.Roots.{AreAll, AreFound, AreRootsBy, AreRootsFrom, AreSizesOf, AreWitnesses, Has, HasAllMerged, HasAllWithin, HasCounts, HasMerged, HasSizesOf, HaveSizes, IsAdded, IsExtended, IsFound, StayFound};
ghost use Rattle.cn_shortest.specs.Examples.{IsExample};
ghost use Rattle.cn_shortest.specs.Sizes.{AreCounts, AreOf};
ghost use Rattle.cn_shortest.specs.declared.sizes.Sizes.{Sizes};

use crate::examples::example_of;
use crate::sizes::{Sizes, count, merge};
use cn_choice::MOST_PROCESSES;
use cn_divisions::{Division, Divisions, SightDivisions};
use cn_meetings::Sight;
use cn_tree_costs::laws::sizes_are_kept;
use std::alloc::{AllocError, Global};

/// The sizes of all divisions of one number of processes, where all have one sight.
#[derive(Drop)]
pub(crate) struct SightRoots {
    pub sight: Sight,
    pub sizes: Vec<Sizes>,
}

/// The roots of one number of processes.
#[derive(Drop)]
pub(crate) struct Roots {
    /// Those by each of the sights, in their order.
    pub by_sight: Vec<SightRoots>,
}

/// Whether the list has these sizes.
fn has(list: &[Sizes], sizes: &Sizes) -> bool
    ensures { IsTrue result ↔ HasCounts list.now sizes.now.counts }
{
    for place in 0..list.len() {
        if list[place].counts == sizes.counts {
            return true;
        }
    }
    false
}

/// Puts the sizes behind the others, if they are not there.
fn add(list: &mut Vec<Sizes>, sizes: Sizes) -> Result<(), AllocError>
    ensures added { IfOk result (λ _. IsAdded list.old.items sizes list.new.items) }
    ensures has { IfOk result (λ _. Has list.new.items sizes.counts) }
{
    if has(list.as_slice(), &sizes) {
        return Ok(());
    }
    list.push(sizes)?;
    Ok(())
}

/// Adds the sizes where a team of this size and another one become one team.
fn add_merged_with(list: &mut Vec<Sizes>, sizes: &Sizes, a: u8, n: u8) -> Result<(), AllocError>
    requires n { n ≤ MOST_PROCESSES }
    requires sizes { AreOf n sizes.now.counts }
    requires list { AreAll n list.now.items }
    requires a { (1 ≤ a) × (a < n) }
    ensures kept { IfOk result (λ _. IsExtended list.old.items list.new.items) }
    ensures of_n { IfOk result (λ _. AreAll n list.new.items) }
    ensures found { IfOk result (λ _. (t : TypeTable) (sight : MeetingSight)
        → IsFound t sight n sizes.now → AreFound t sight n list.old.items
        → AreFound t sight n list.new.items) }
    ensures all { IfOk result (λ _. (b : ℕ) → HasMerged n sizes.now.counts list.new.items a b) }
{
    sizes_are_kept();
    for b in 1..n {
        if let Some(merged) = merge(sizes, a, b, n) {
            add(list, merged)?;
        }
    }
    Ok(())
}

/// Adds the sizes where two teams become one.
fn add_merged(list: &mut Vec<Sizes>, sizes: &Sizes, n: u8) -> Result<(), AllocError>
    requires n { n ≤ MOST_PROCESSES }
    requires sizes { AreOf n sizes.now.counts }
    requires list { AreAll n list.now.items }
    ensures kept { IfOk result (λ _. IsExtended list.old.items list.new.items) }
    ensures of_n { IfOk result (λ _. AreAll n list.new.items) }
    ensures found { IfOk result (λ _. (t : TypeTable) (sight : MeetingSight)
        → IsFound t sight n sizes.now → AreFound t sight n list.old.items
        → AreFound t sight n list.new.items) }
    ensures all { IfOk result (λ _. HasAllMerged n sizes.now.counts list.new.items) }
{
    for a in 1..n {
        add_merged_with(list, sizes, a, n)?;
    }
    Ok(())
}

/// Adds the sizes where two teams of a division in the list become one.
fn coarsen(list: &mut Vec<Sizes>, n: u8) -> Result<(), AllocError>
    requires n { n ≤ MOST_PROCESSES }
    requires list { AreAll n list.now.items }
    ensures kept { IfOk result (λ _. IsExtended list.old.items list.new.items) }
    ensures of_n { IfOk result (λ _. AreAll n list.new.items) }
    ensures found { IfOk result (λ _. StayFound n list.old.items list.new.items) }
    ensures all { IfOk result (λ _. (i : ℕ) (s : Sizes) → slice_get list.old.items i ≡ Some s
        → HasAllMerged n s.counts list.new.items) }
{
    for place in 0..list.len() {
        let sizes = list[place];
        add_merged(list, &sizes, n)?;
    }
    Ok(())
}

/// The sizes of this division, with it as their example.
fn sizes_of_division(division: &Division, n: u8) -> Sizes
    requires n { n ≤ MOST_PROCESSES }
    requires division { HasSizesOf n division.now }
    ensures counts { AreCounts division.now.sizes.items result.counts }
    ensures example { (t : TypeTable) (sight : MeetingSight) → IsDivision t sight n division.now
        → IsExample t sight n result.counts result.example }
{
    Sizes {
        counts: count(division.sizes.as_slice()),
        example: example_of(division, n),
    }
}

/// The sizes of these divisions.
fn finest_sizes(alloc: Global, divisions: &[Division], n: u8) -> Result<Vec<Sizes>, AllocError>
    requires n { n ≤ MOST_PROCESSES }
    requires divisions { HaveSizes n divisions.now }
    ensures of_n { IfOk result (λ list. AreAll n list.items) }
    ensures found { IfOk result (λ list. (t : TypeTable) (sight : MeetingSight)
        → AreWitnesses t sight n divisions.now → AreFound t sight n list.items) }
    ensures all { IfOk result (λ list. HasAllWithin n 0 divisions.now list.items) }
{
    sizes_are_kept();
    let mut list = Vec::new(alloc);
    for place in 0..divisions.len() {
        add(&mut list, sizes_of_division(&divisions[place], n))?;
    }
    Ok(list)
}

/// The sizes of these divisions and of all coarser ones.
fn all_sizes(alloc: Global, divisions: &[Division], n: u8) -> Result<Vec<Sizes>, AllocError>
    requires n { n ≤ MOST_PROCESSES }
    requires divisions { HaveSizes n divisions.now }
    ensures { IfOk result (λ list. AreSizesOf n divisions.now list.items) }
{
    let mut list = finest_sizes(alloc, divisions, n)?;
    for _merges in 0..MOST_PROCESSES {
        coarsen(&mut list, n)?;
    }
    Ok(list)
}

/// The roots of n processes by one sight.
fn roots_of_sight(
    alloc: Global,
    divisions: &SightDivisions,
    n: u8,
) -> Result<SightRoots, AllocError>
    requires n { n ≤ MOST_PROCESSES }
    requires sizes { HaveSizes n divisions.now.list.items }
    ensures { IfOk result (AreRootsBy n divisions.now) }
{
    let sizes = all_sizes(alloc, divisions.list.as_slice(), n)?;
    Ok(SightRoots {
        sight: divisions.sight,
        sizes,
    })
}

/// The roots of n processes.
pub(crate) fn find_roots(alloc: Global, divisions: &Divisions, n: u8) -> Result<Roots, AllocError>
    requires n { n ≤ MOST_PROCESSES }
    requires sizes { (i : ℕ) (d : SightDivisions)
        → slice_get divisions.now.by_sight.items i ≡ Some d → HaveSizes n d.list.items }
    ensures { IfOk result (AreRootsFrom n divisions.now) }
{
    let from = divisions.by_sight.as_slice();
    let mut by_sight = Vec::with_capacity(alloc, from.len())?;
    for place in 0..from.len() {
        let here = roots_of_sight(alloc, &from[place], n)?;
        by_sight.push(here)?;
    }
    Ok(Roots { by_sight })
}
