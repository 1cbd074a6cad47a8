//! The roots and the loads of each number of processes.
ghost use Rattle.std.specs.Prelude.{◌≡◌, ◌<◌, ◌≤◌, ◌+◌, IfOk, length};
ghost use Rattle.cn_choice.specs.declared.limits.TheConstants.{MOST_PROCESSES};
ghost use Rattle.cn_divisions.specs.Divisions.{AreDivisions};
ghost use Rattle.cn_stocks.specs.Each.{EachAt};
ghost use Rattle.cn_tree_costs.specs.Least.{AreRoots};
ghost use Rattle.cn_shortest.specs.Loads.{AreAllOf, all_roots};
ghost use Rattle.cn_shortest.specs.Looks.{AreSights, allowed};
ghost use Rattle.cn_shortest.specs.Searches.{HaveExamples, IsSearch};

use crate::loads::{Row, rows};
use crate::looks::{Looks, sights};
use crate::roots::{Roots, find_roots};
use cn_choice::MOST_PROCESSES;
use cn_divisions::laws::finest_divisions_are_witnesses;
use cn_divisions::{Divisions, find_divisions};
use cn_meetings::Sight;
use cn_table::Table;
use cn_tree_costs::laws::sizes_are_kept;
use std::alloc::{AllocError, Global};

/// The roots and the loads of each number of processes, up to some number.
#[derive(Drop)]
pub(crate) struct Search {
    /// The roots of 2 processes, of 3 and so on.
    pub roots: Vec<Roots>,
    /// The loads of 1 process, of 2 and so on.
    pub rows: Vec<Row>,
}

/// The roots of 2 processes, of 3 and so on.
fn roots_of_all(
    alloc: Global,
    table: &Table,
    looks: Looks,
    sights: &[Sight],
    divisions: &[Divisions],
) -> Result<Vec<Roots>, AllocError>
    requires sights { AreSights table.now looks sights.now }
    requires few { length divisions.now < MOST_PROCESSES }
    requires divisions { EachAt (λ i d. AreDivisions table.now sights.now (i + 2) d)
        (length divisions.now) divisions.now }
    ensures each { IfOk result (λ roots. EachAt (λ i r. AreAllOf (i + 2) r) (length divisions.now)
        roots.items) }
    ensures are { IfOk result (λ roots. AreRoots table.now (allowed looks)
        (length divisions.now + 1) (all_roots roots.items)) }
    ensures examples { IfOk result (λ roots. HaveExamples table.now (allowed looks)
        roots.items) }
{
    sizes_are_kept();
    finest_divisions_are_witnesses();
    let _table = table;
    let _looks = looks;
    let _sights = sights;
    let mut all = Vec::new(alloc);
    for place in 0..divisions.len() {
        let here = find_roots(alloc, &divisions[place], place as u8 + 2)?;
        all.push(here)?;
    }
    Ok(all)
}

impl Search {
    ghost use Rattle.std.specs.Prelude.{◌≡◌, ◌≤◌, ◌+◌, IfOk, length};
    ghost use Rattle.cn_choice.specs.declared.limits.TheConstants.{MOST_PROCESSES};
    ghost use Rattle.cn_tree_costs.specs.Least.{AreRoots};
    ghost use Rattle.cn_shortest.specs.Loads.{all_roots};
    ghost use Rattle.cn_shortest.specs.Looks.{allowed};
    ghost use Rattle.cn_shortest.specs.Searches.{HaveExamples, IsSearch};

    /// The roots and the loads of up to n processes.
    pub(crate) fn new(
        alloc: Global,
        table: &Table,
        looks: Looks,
        n: u8,
    ) -> Result<Search, AllocError>
        requires some { 2 ≤ n }
        requires few { n ≤ MOST_PROCESSES }
        ensures found { IfOk result (λ s. IsSearch s × (length s.roots.items + 1 ≡ n)) }
        ensures roots { IfOk result (λ s. AreRoots table.now (allowed looks)
            (length s.roots.items + 1) (all_roots s.roots.items)) }
        ensures examples { IfOk result (λ s. HaveExamples table.now (allowed looks)
            s.roots.items) }
    {
        let sights = sights(alloc, table, looks)?;
        let divisions = find_divisions(alloc, table, sights.as_slice(), n)?;
        let roots = roots_of_all(alloc, table, looks, sights.as_slice(), divisions.as_slice())?;
        let rows = rows(alloc, roots.as_slice())?;
        Ok(Search { roots, rows })
    }
}
