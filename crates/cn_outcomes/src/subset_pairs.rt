//! Pairs for the subsets of the processes: what the orders of exactly one subset give to a process.
ghost use Rattle.std.specs.Prelude.{◌≡◌, ◌<◌, ◌↔◌, ℕ, length, IsBitSet};
ghost use Rattle.cn_outcomes.specs.PairSets.{Has};
ghost use Rattle.cn_choice.specs.OutcomeSets.{InOutcomeSet};
ghost use Rattle.cn_outcomes.specs.RowSettings.{HasPairs, HasRows, HasRowsBefore, IsRowSetting, subset_count};
ghost use Rattle.cn_outcomes.specs.Subsets.{GivesPair, OtherLast, OwnLast};
ghost use Rattle.cn_outcomes.specs.Twins.{IsMover};
ghost use Rattle.cn_outcomes.specs.declared.limits.TheConstants.{WIDTH};

use crate::bits::Bits;
use crate::limits::SUBSETS;
use crate::outcome_sets::OutcomeSet;
use crate::row_setting::RowSetting;
use crate::subset_rows::{found_states, operation_of};
use crate::twins::{is_packed, last_twin, movers};

/// The pairs of process j if it moves last of the packed subset.
fn own_pairs(setting: &RowSetting<'_>, j: u8, rows: &[Bits; SUBSETS], subset: Bits) -> OutcomeSet
    requires setting { IsRowSetting setting.now }
    requires j { j < length setting.now.choice.now.operations }
    requires rows { HasRowsBefore setting.now subset rows.now }
    requires member { IsBitSet subset j }
    ensures { (r q : ℕ) → Has result r q
        ↔ OwnLast setting.now.table.now setting.now.choice.now setting.now.team j subset r q }
{
    let last = last_twin(setting.links, subset, j);
    let rest = subset.without(last);
    let from = found_states(setting, rows, last, rest);
    OutcomeSet::of_answers(setting.table, operation_of(setting.choice, j), from)
}

/// The pairs of process j if this mover moves last of the packed subset, and process j before it.
fn pairs_before(
    setting: &RowSetting<'_>,
    j: u8,
    process: u8,
    rows: &[Bits; SUBSETS],
    pairs: &[OutcomeSet; SUBSETS],
    subset: Bits,
) -> OutcomeSet
    requires setting { IsRowSetting setting.now }
    requires known { process < WIDTH }
    requires mover { IsMover setting.now.links subset process }
    requires rows { HasRowsBefore setting.now subset rows.now }
    requires pairs { HasPairs setting.now j subset pairs.now }
    ensures { (r q : ℕ) → Has result r q ↔ OtherLast setting.now.table.now
        setting.now.choice.now setting.now.team j subset q process r }
{
    let _j = j;
    let rest = subset.without(process).place();
    let operation = operation_of(setting.choice, process);
    pairs[rest].moved(setting.table, operation, rows[rest])
}

/// The pairs of process j if another process moves last of the packed subset.
fn others_pairs(
    setting: &RowSetting<'_>,
    j: u8,
    rows: &[Bits; SUBSETS],
    pairs: &[OutcomeSet; SUBSETS],
    subset: Bits,
) -> OutcomeSet
    requires setting { IsRowSetting setting.now }
    requires j { j < length setting.now.choice.now.operations }
    requires rows { HasRowsBefore setting.now subset rows.now }
    requires pairs { HasPairs setting.now j subset pairs.now }
    ensures { (r q : ℕ) → Has result r q ↔ ((p : ℕ) × IsMover setting.now.links subset p
        × OtherLast setting.now.table.now setting.now.choice.now setting.now.team j subset q p r) }
{
    let mut set = OutcomeSet::none();
    for process in movers(setting.links, subset).without(j).iter() {
        set = set.union(&pairs_before(setting, j, process, rows, pairs, subset));
    }
    set
}

/// The pairs that orders of the packed subset give to process j, the first of its twins, from the
/// rows and the pairs of smaller subsets.
fn pairs_of(
    setting: &RowSetting<'_>,
    j: u8,
    rows: &[Bits; SUBSETS],
    pairs: &[OutcomeSet; SUBSETS],
    subset: Bits,
) -> OutcomeSet
    requires setting { IsRowSetting setting.now }
    requires j { j < length setting.now.choice.now.operations }
    requires first { ¬ IsBitSet setting.now.links j }
    requires rows { HasRowsBefore setting.now subset rows.now }
    requires member { IsBitSet subset j }
    requires pairs { HasPairs setting.now j subset pairs.now }
    ensures { (r q : ℕ) → Has result r q
        ↔ GivesPair setting.now.table.now setting.now.choice.now setting.now.team j subset r q }
{
    let own = own_pairs(setting, j, rows, subset);
    let others = others_pairs(setting, j, rows, pairs, subset);
    own.union(&others)
}

/// The outcome set of the setting's team for process j, the first of its twins, from the rows. It
/// makes the pairs of the subsets anew.
pub(crate) fn outcomes_from(
    setting: &RowSetting<'_>,
    j: u8,
    rows: &[Bits; SUBSETS],
    pairs: &mut [OutcomeSet; SUBSETS],
) -> OutcomeSet
    requires setting { IsRowSetting setting.now }
    requires j { j < length setting.now.choice.now.operations }
    requires first { ¬ IsBitSet setting.now.links j }
    requires rows { HasRows setting.now (subset_count setting.now) rows.now }
    ensures { (r q : ℕ) → Has result r q
        ↔ InOutcomeSet setting.now.table.now setting.now.choice.now setting.now.team j (r, q) }
{
    let choice = setting.choice;
    pairs[0] = OutcomeSet::none();
    let mut all = OutcomeSet::none();
    for number in 1..1u16 << choice.operations.len() {
        let subset = Bits::of_number(number);
        if !is_packed(setting.links, subset) {
            continue;
        }
        if !subset.has(j) {
            pairs[number as usize] = OutcomeSet::none();
            continue;
        }
        let here = pairs_of(setting, j, rows, pairs, subset);
        pairs[number as usize] = here;
        all = all.union(&here);
    }
    all
}
