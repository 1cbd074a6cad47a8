//! Whether a claim shows a lower bound.
ghost use Rattle.std.specs.Prelude.{◌≡◌, ◌≤◌, ◌⊎◌, ◌↔◌, IfErr, IfSome, IsTrue, OnOk};
ghost use Rattle.cn_table.specs.declared.limits.TheConstants.{MOST_STATES};
ghost use Rattle.cn_choice.specs.Canonical.{raw_choice_of};
ghost use Rattle.cn_choice.specs.Discerning.{IsWitness};
ghost use Rattle.cn_choice.specs.RawChoices.{IsRawChoice};
ghost use Rattle.cn_stock_cert.specs.Right.{ShowsAtLeast};
ghost use Rattle.cn_stock_check.specs.LeastFaults.{IsFirstLeastFault, IsWitnessFault};
ghost use Rattle.cn_stock_check.specs.declared.fault.StockCheckFault.TheVariants.{OutOfMemory};

use crate::fault::StockCheckFault;
use crate::lasting::are_lasting_sets;
use crate::witness::{is_choice_for, is_witness};
use cn_stock_cert::{StockClaim, TeamChoice};
use cn_table::Table;
use std::alloc::Global;

/// Checks that this is a witness of the table for n processes.
fn check_witness(
    alloc: Global,
    table: &Table,
    choice: &TeamChoice,
    n: u8,
) -> Result<(), StockCheckFault>
    requires { n ≤ MOST_STATES }
    ensures choice { OnOk result (IsRawChoice table.now n (raw_choice_of choice.now)) }
    ensures witness { OnOk result (IsWitness table.now (raw_choice_of choice.now)) }
    ensures fault { IfErr result (λ e. (e ≡ OutOfMemory)
        ⊎ IsWitnessFault table.now n choice.now e) }
{
    if !is_choice_for(table, choice, n) {
        return Err(StockCheckFault::NotAChoice);
    }
    let tells = is_witness(alloc, table, choice, n)?;
    if !tells {
        return Err(StockCheckFault::NoWitness);
    }
    Ok(())
}

/// Checks that the claim shows the lower bound.
#[tactic(auto, using(crate::proofs::Firsts::first_least_shape, crate::proofs::Firsts::first_not_lasting, crate::proofs::Firsts::first_of_witness))]
pub(crate) fn check_least(
    alloc: Global,
    table: &Table,
    claim: &StockClaim,
    bound: Option<u8>,
) -> Result<(), StockCheckFault>
    requires { IfSome bound (λ n. n ≤ MOST_STATES) }
    ensures shown { OnOk result (ShowsAtLeast table.now claim.now bound) }
    ensures fault { IfErr result (λ e. (e ≡ OutOfMemory)
        ⊎ IsFirstLeastFault table.now claim.now bound e) }
{
    match (claim, bound) {
        (StockClaim::Alone, Some(1)) => Ok(()),
        (StockClaim::Witness(choice), Some(n)) => check_witness(alloc, table, choice, n),
        (StockClaim::Lasting(sets), None) if are_lasting_sets(table, sets) => Ok(()),
        (StockClaim::Lasting(_), None) => Err(StockCheckFault::NotLasting),
        _ => Err(StockCheckFault::LeastShape),
    }
}
