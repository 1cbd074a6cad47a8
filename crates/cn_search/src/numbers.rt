//! The number alone, one number of processes after the other.
ghost use Rattle.std.specs.Prelude.{◌≡◌, ◌<◌, ◌≤◌, ◌↔◌, IfOk, IsTrue, MatchOption, None};
ghost use Rattle.cn_choice.specs.Discerning.{IsDiscerning, IsNumberUpTo};
ghost use Rattle.cn_choice.specs.declared.limits.TheConstants.{MOST_PROCESSES};
ghost use Rattle.cn_search.specs.Search.{IsKnownAt};
ghost use Rattle.cn_search.specs.declared.numbers.TheConstants.{LEAST_WITHOUT_TEAMS};
ghost use Rattle.cn_finding.specs.declared.limits.TheConstants.{GREATEST_LIMIT, LEAST_LIMIT};

use crate::kind::{DiscerningWitness, first_within};
use cn_choice::{Choice, count, laws};
use cn_stocks::Threading;
use cn_table::Table;
use std::alloc::{AllocError, Global};
use std::thread::Threads;

/// The least number of processes for which [`cn_stocks::is_discerning`] decides. With two processes
/// both teams may have one operation.
pub(crate) const LEAST_WITHOUT_TEAMS: u8 = 3;

/// A search among this number of choices of teams takes less time than one by stocks.
const FEW_CHOICES: u64 = 2_000;

/// If there are more choices, this number of blocks is searched first.
const EARLY_BLOCKS: usize = 8;

/// Whether the search goes over all choices of teams for n processes: if they are few, and for two
/// processes.
fn is_decided_by_teams(table: &Table, n: u8) -> bool
    requires some { 2 ≤ n }
    requires few { n ≤ MOST_PROCESSES }
    ensures { n < LEAST_WITHOUT_TEAMS → IsTrue result }
{
    n < LEAST_WITHOUT_TEAMS || count(table.states(), table.operations(), n) <= FEW_CHOICES
}

/// Whether a type is discerning for some number of processes, and the first witness if the choices
/// of teams show it.
#[derive(Drop)]
pub(crate) struct Decision {
    pub is_discerning: bool,
    pub witness: Option<Choice>,
}

/// The decision for n processes by all choices of teams.
fn decide_by_teams<T: Threads + Sync>(
    rt: &T,
    alloc: Global,
    table: &Table,
    n: u8,
    threading: Threading,
) -> Result<Decision, AllocError>
    requires some { 2 ≤ n }
    requires few { n ≤ MOST_PROCESSES }
    ensures decided { IfOk result (λ decision. IsTrue decision.is_discerning
        ↔ IsDiscerning table.now n) }
    ensures witness { IfOk result (λ decision. IsTrue decision.is_discerning
        → IsKnownAt table.now n decision.witness) }
{
    laws::live_choices_decide();
    let witness = first_within::<DiscerningWitness, T>(rt, alloc, table, n, None, threading)?;
    Ok(Decision {
        is_discerning: witness.is_some(),
        witness,
    })
}

/// The decision for n processes by the first choices of teams, since mostly a witness is among
/// them, and then by stocks of operations.
fn decide_by_stocks<T: Threads + Sync>(
    rt: &T,
    alloc: Global,
    table: &Table,
    n: u8,
    threading: Threading,
) -> Result<Decision, AllocError>
    requires some { LEAST_WITHOUT_TEAMS ≤ n }
    requires few { n ≤ MOST_PROCESSES }
    ensures decided { IfOk result (λ decision. IsTrue decision.is_discerning
        ↔ IsDiscerning table.now n) }
    ensures witness { IfOk result (λ decision. IsTrue decision.is_discerning
        → IsKnownAt table.now n decision.witness) }
{
    laws::live_choices_decide();
    let most = Some(EARLY_BLOCKS);
    let witness = first_within::<DiscerningWitness, T>(rt, alloc, table, n, most, threading)?;
    if witness.is_some() {
        return Ok(Decision {
            is_discerning: true,
            witness,
        });
    }
    let is_discerning = cn_stocks::is_discerning(rt, alloc, table, n, threading)?;
    Ok(Decision {
        is_discerning,
        witness: None,
    })
}

/// Whether the type is n-discerning: by the choices of teams if they are few, else by stocks.
pub(crate) fn decide<T: Threads + Sync>(
    rt: &T,
    alloc: Global,
    table: &Table,
    n: u8,
    threading: Threading,
) -> Result<Decision, AllocError>
    requires some { 2 ≤ n }
    requires few { n ≤ MOST_PROCESSES }
    // promise: greatest-discerning (IsDiscerning)
    ensures decided { IfOk result (λ decision. IsTrue decision.is_discerning
        ↔ IsDiscerning table.now n) }
    // promise: greatest-discerning (IsKnownAt)
    ensures witness { IfOk result (λ decision. IsTrue decision.is_discerning
        → IsKnownAt table.now n decision.witness) }
{
    if is_decided_by_teams(table, n) {
        decide_by_teams(rt, alloc, table, n, threading)
    } else {
        decide_by_stocks(rt, alloc, table, n, threading)
    }
}

/// The number up to a limit, and the first witness at it if the choices of teams show it.
#[derive(Drop)]
pub(crate) struct Greatest {
    pub number: Option<u8>,
    pub witness: Option<Choice>,
}

/// The greatest n up to the limit for which the type is n-discerning. It is n-discerning for no n
/// above one for which it is not, so the search ends there.
pub(crate) fn greatest_number<T: Threads + Sync>(
    rt: &T,
    alloc: Global,
    table: &Table,
    limit: u8,
    threading: Threading,
) -> Result<Greatest, AllocError>
    requires some { LEAST_LIMIT ≤ limit }
    requires few { limit ≤ GREATEST_LIMIT }
    // promise: greatest-discerning (IsNumberUpTo)
    ensures number { IfOk result (λ found. IsNumberUpTo table.now limit found.number) }
    // promise: greatest-discerning (IsKnownAt)
    ensures witness { IfOk result (λ found. MatchOption found.number (found.witness ≡ None)
        (λ n. IsKnownAt table.now n found.witness)) }
{
    laws::monotonicity();
    let mut number = None;
    let mut witness = None;
    for n in 2..limit + 1 {
        let decision = decide(rt, alloc, table, n, threading)?;
        if !decision.is_discerning {
            return Ok(Greatest { number, witness });
        }
        number = Some(n);
        witness = decision.witness;
    }
    Ok(Greatest { number, witness })
}
