//! What words show that begin with an operation of a team, within a stock.
ghost use Rattle.std.specs.Prelude.{◌≡◌, ◌≢◌, ◌<◌, ◌≤◌, ◌+◌, ◌⊎◌, ◌↔◌, ℕ, IfOk, IsTrue, length, slice_index};
ghost use Rattle.std.specs.List.{sum};
ghost use Rattle.cn_table.specs.TypeTable.{transition};
ghost use Rattle.cn_table.specs.declared.limits.TheConstants.{MOST_OPERATIONS};
ghost use Rattle.cn_stock_check.specs.Sets.{IsIn};
ghost use Rattle.cn_stock_check.specs.Seen.{AreCounts, AreFound, AreSeen, TeamsMeet, TeamsMeetAt};

use crate::needs::Counts;
use crate::sets::{has, only, share, union};
use crate::words::is_among;
use cn_table::laws::{tables_are_closed, tables_are_valid};
use cn_table::{MOST_RESPONSES, Operation, State, Table};
use std::alloc::{AllocError, Global};
use std::collections::BTreeMap;

/// For each response the set of the states that are left where it was given.
pub(crate) type Pairs = [u16; MOST_RESPONSES];

/// The states that words leave, and the pairs that they show the operation that is asked.
#[derive(Clone, Copy)]
pub(crate) struct Seen {
    pub states: u16,
    pub pairs: Pairs,
}

/// From where words go, with which operations they begin, and which operation is asked what it is
/// shown.
#[derive(Clone, Copy)]
pub(crate) struct Question<'a> {
    pub table: &'a Table,
    pub start: State,
    pub team: &'a [u8],
    pub asked: u8,
}

/// The states to which the operation leads from these.
fn after(table: &Table, operation: Operation, states: u16) -> u16
    requires { operation.0 < length table.now.operations }
    ensures { (q : ℕ) → IsIn result q ↔ ((p : ℕ) × (p < length table.now.states)
        × IsIn states p × ((transition table.now operation.0 p).1 ≡ q)) }
{
    let mut set = 0;
    for state in 0..table.states() {
        if has(states, state) {
            let (_, next) = table.apply(operation, State(state));
            set = union(set, only(next.0));
        }
    }
    set
}

/// Adds the pairs of the responses with the states to which the operation leads from these.
fn add_after(table: &Table, operation: Operation, from: &Pairs, pairs: &mut Pairs)
    requires { operation.0 < length table.now.operations }
    ensures { (r q : ℕ) → IsIn (slice_index pairs.new r) q
        ↔ (IsIn (slice_index pairs.old r) q ⊎ ((p : ℕ) × (p < length table.now.states)
        × IsIn (slice_index from.now r) p × ((transition table.now operation.0 p).1 ≡ q))) }
{
    for response in 0..MOST_RESPONSES {
        let states = after(table, operation, from[response]);
        pairs[response] = union(pairs[response], states);
    }
}

/// Adds the pairs that the operation itself is shown from these states.
fn add_answers(table: &Table, operation: Operation, states: u16, pairs: &mut Pairs)
    requires { operation.0 < length table.now.operations }
    ensures { (r q : ℕ) → IsIn (slice_index pairs.new r) q
        ↔ (IsIn (slice_index pairs.old r) q ⊎ ((p : ℕ) × (p < length table.now.states)
        × IsIn states p × (transition table.now operation.0 p ≡ (r, q)))) }
{
    // A table has at most 16 responses.
    let _responses = table.responses();
    for state in 0..table.states() {
        if has(states, state) {
            let (response, next) = table.apply(operation, State(state));
            let place = response.0 as usize;
            pairs[place] = union(pairs[place], only(next.0));
        }
    }
}

impl Seen {
    ghost use Rattle.std.specs.Prelude.{◌<◌, ◌⊎◌, ◌↔◌, ℕ, length, slice_index};
    ghost use Rattle.cn_stock_check.specs.Sets.{IsIn};
    ghost use Rattle.cn_stock_check.specs.Seen.{LeadsTo, ShowsLast};

    /// What no word shows.
    fn nothing() -> Seen
        ensures states { (q : ℕ) → ¬ IsIn result.states q }
        ensures pairs { (r q : ℕ) → ¬ IsIn (slice_index result.pairs r) q }
    {
        Seen {
            states: 0,
            pairs: [0; MOST_RESPONSES],
        }
    }

    /// Adds what words show whose last operation is this one, from what words show of one
    /// operation less.
    fn add_last(&mut self, question: &Question<'_>, operation: u8, less: &Seen)
        requires operation { operation < length question.now.table.now.operations }
        requires start { question.now.start.0 < length question.now.table.now.states }
        ensures states { (q : ℕ) → IsIn self.new.states q ↔ (IsIn self.old.states q
            ⊎ LeadsTo question.now.table.now question.now.start.0 question.now.team.now operation
            less.now.states q) }
        ensures pairs { (r q : ℕ) → IsIn (slice_index self.new.pairs r) q
            ↔ (IsIn (slice_index self.old.pairs r) q
            ⊎ ShowsLast question.now.table.now question.now.start.0 question.now.team.now
            question.now.asked operation less.now r q) }
    {
        // A table has at most 16 states.
        let _states = question.table.states();
        let (table, last) = (question.table, Operation(operation));
        let mut before = less.states;
        if is_among(question.team, operation) {
            before = union(before, only(question.start.0));
        }
        self.states = union(self.states, after(table, last, before));
        add_after(table, last, &less.pairs, &mut self.pairs);
        if operation == question.asked {
            add_answers(table, last, before, &mut self.pairs);
        }
    }
}

/// What is found so far, by how often words have each operation at most.
pub(crate) type Found = BTreeMap<Counts, Seen>;

impl Question<'_> {
    ghost use Rattle.std.specs.Prelude.{◌<◌, IfOk, length};
    ghost use Rattle.cn_stock_check.specs.Seen.{AreCounts, AreFound, AreSeen};

    /// What words show that have each operation at most so often. Adds it to what is found.
    pub fn seen(&self, found: &mut Found, counts: Counts) -> Result<Seen, AllocError>
        requires counts { AreCounts self.now.table.now counts }
        requires start { self.now.start.0 < length self.now.table.now.states }
        requires found { AreFound self.now.table.now self.now.start.0 self.now.team.now
            self.now.asked found.old }
        ensures seen { IfOk result (AreSeen self.now.table.now self.now.start.0 self.now.team.now
            counts self.now.asked) }
        ensures found { AreFound self.now.table.now self.now.start.0 self.now.team.now
            self.now.asked found.new }
    {
        tables_are_closed();
        tables_are_valid(self.table);
        if let Some(seen) = found.get(&counts) {
            return Ok(*seen);
        }
        let mut seen = Seen::nothing();
        for operation in 0..self.table.operations() {
            if counts[operation as usize] > 0 {
                let less = self.seen(found, with_one_less(counts, operation))?;
                seen.add_last(self, operation, &less);
            }
        }
        found.insert(counts, seen)?;
        Ok(seen)
    }
}

/// The counts with one less of the operation.
fn with_one_less(counts: Counts, operation: u8) -> Counts
    requires operation { operation < MOST_OPERATIONS }
    requires some { 1 ≤ slice_index counts operation }
    ensures less { sum result + 1 ≡ sum counts }
    ensures here { slice_index result operation + 1 ≡ slice_index counts operation }
    ensures others { (o : ℕ) → o ≢ operation → slice_index result o ≡ slice_index counts o }
{
    let mut less = counts;
    less[operation as usize] -= 1;
    less
}

/// Whether the two have some pair in common.
fn share_pairs(pairs: &Pairs, others: &Pairs) -> bool
    ensures { IsTrue result ↔ ((r : ℕ) × (q : ℕ) × IsIn (slice_index pairs.now r) q
        × IsIn (slice_index others.now r) q) }
{
    for response in 0..MOST_RESPONSES {
        if share(pairs[response], others[response]) {
            return true;
        }
    }
    false
}

/// What words show that have each operation at most so often.
fn seen_in_all(alloc: Global, question: &Question<'_>, counts: Counts) -> Result<Seen, AllocError>
    requires counts { AreCounts question.now.table.now counts }
    requires start { question.now.start.0 < length question.now.table.now.states }
    ensures { IfOk result (AreSeen question.now.table.now question.now.start.0
        question.now.team.now counts question.now.asked) }
{
    let mut found = BTreeMap::new(alloc);
    question.seen(&mut found, counts)
}

/// The operations of two teams.
#[derive(Clone, Copy)]
pub(crate) struct Teams<'a> {
    pub a: &'a [u8],
    pub b: &'a [u8],
}

/// Whether words that begin with an operation of the one team and words that begin with one of the
/// other show the operation some pair in common.
fn teams_meet_at(
    alloc: Global,
    table: &Table,
    start: State,
    teams: &Teams<'_>,
    counts: Counts,
    asked: u8,
) -> Result<bool, AllocError>
    requires counts { AreCounts table.now counts }
    requires start { start.0 < length table.now.states }
    ensures { IfOk result (λ yes. IsTrue yes ↔ TeamsMeetAt table.now start.0 teams.now.a.now
        teams.now.b.now counts asked) }
{
    let by_a = Question {
        table,
        start,
        team: teams.a,
        asked,
    };
    let seen_by_a = seen_in_all(alloc, &by_a, counts)?;
    let by_b = Question {
        table,
        start,
        team: teams.b,
        asked,
    };
    let seen_by_b = seen_in_all(alloc, &by_b, counts)?;
    Ok(share_pairs(&seen_by_a.pairs, &seen_by_b.pairs))
}

/// Whether words that begin with an operation of the one team and words that begin with one of the
/// other show some operation the same pair.
pub(crate) fn teams_meet(
    alloc: Global,
    table: &Table,
    start: State,
    teams: &Teams<'_>,
    counts: Counts,
) -> Result<bool, AllocError>
    requires counts { AreCounts table.now counts }
    requires start { start.0 < length table.now.states }
    ensures { IfOk result (λ yes. IsTrue yes ↔ TeamsMeet table.now start.0 teams.now.a.now
        teams.now.b.now counts) }
{
    for asked in 0..table.operations() {
        let meet = teams_meet_at(alloc, table, start, teams, counts, asked)?;
        if meet {
            return Ok(true);
        }
    }
    Ok(false)
}
