//! What the processes of a node are shown.
ghost use Rattle.std.specs.Prelude.{◌≡◌, ◌↔◌, ◌⊎◌, ◌+◌, ◌-◌, ◌++◌, ◌<◌, ◌≤◌, ℕ, [], drop, length, slice_index_or, take, IfNone, IfOk, IfSome, IsTrue, OnOk};
ghost use Rattle.cn_table.specs.declared.limits.TheConstants.{MOST_RESPONSES, MOST_STATES};
ghost use Rattle.cn_choice.specs.declared.limits.TheConstants.{MOST_PROCESSES};
ghost use Rattle.cn_meetings.specs.Meeting.{IsSightOf, sees};
ghost use Rattle.cn_meetings.specs.Sights.{sight_of};
ghost use Rattle.cn_outcomes.specs.PairSets.{Has, HaveCommonPair};
ghost use Rattle.cn_tree_costs.specs.Sizes.{IsDivision};
ghost use Rattle.cn_tree_plans.specs.Listing.{AreListed, AreShown, IsJudgedBy, IsNodeMeeting, Shows, SomeMeet};
ghost use Rattle.cn_tree_plans.specs.Turned.{role_of, turned};

use crate::sights::{see, seen_count};
use crate::{Judged, Meeting};
use arrayvec::ArrayVec;
use cn_choice::{Choice, MOST_PROCESSES, Team};
use cn_meetings::Sight;
use cn_outcomes::{OutcomeSet, outcomes};
use cn_table::{Response, State, Table};
use std::alloc::{AllocError, Global};

/// Pushes the operations of the processes of the node from one on and below another.
fn push_all(list: &mut ArrayVec<u8, MOST_PROCESSES>, meeting: &Meeting, from: u8, to: u8)
    requires from { from ≤ to }
    requires to { to ≤ length meeting.now.operations }
    requires few { length list.old.items + (to - from) ≤ MOST_PROCESSES }
    ensures { list.new.items ≡ list.old.items ++ take (to - from) (drop from meeting.now.operations) }
{
    for k in from..to {
        list.push(meeting.operation(k).0);
    }
}

/// The choice whose team A are the processes of the node from low on and below high.
fn turned(meeting: &Meeting, low: u8, high: u8) -> Choice
    requires low { low ≤ high }
    requires high { high ≤ length meeting.now.operations }
    requires few { length meeting.now.operations ≤ MOST_PROCESSES }
    ensures { result ≡ turned meeting.now low high }
{
    let size = meeting.size();
    let mut a = ArrayVec::new();
    push_all(&mut a, meeting, low, high);
    let mut b = ArrayVec::new();
    push_all(&mut b, meeting, 0, low);
    push_all(&mut b, meeting, high, size);
    Choice {
        state: meeting.start,
        a,
        b,
    }
}

/// The process of this choice that is process k of the node.
fn role_of(low: u8, high: u8, k: u8) -> u8
    requires low { low ≤ high }
    requires high { high ≤ MOST_PROCESSES }
    requires k { k < MOST_PROCESSES }
    ensures { result ≡ role_of low high k }
{
    if k < low {
        high - low + k
    } else if k < high {
        k - low
    } else {
        k
    }
}

/// Adds the pairs of the set with this state, and with what is seen in place of it.
fn add_seen(seen: &mut OutcomeSet, set: &OutcomeSet, state: u8, saw: u8, responses: u8)
    requires responses { responses ≤ MOST_RESPONSES }
    requires saw { saw < MOST_STATES }
    requires known { (r : ℕ) → Has set.now r state → r < responses }
    ensures { (r x : ℕ) → Has seen.new r x
        ↔ (Has seen.old r x ⊎ (Has set.now r state × (x ≡ saw))) }
{
    for response in 0..responses {
        if set.has(Response(response), State(state)) {
            seen.add(response, saw);
        }
    }
}

/// The pairs of the set as a process sees them by the sight: what is seen in place of each state.
fn seen_by(table: &Table, sight: Sight, set: &OutcomeSet) -> OutcomeSet
    requires sight { IsSightOf table.now (sight_of sight) }
    requires known { (r q : ℕ) → Has set.now r q
        → (r < length table.now.responses) × (q < length table.now.states) }
    ensures { (r saw : ℕ) → Has result r saw
        ↔ ((q : ℕ) × Has set.now r q × (sees table.now (sight_of sight) q ≡ saw)) }
{
    let responses = table.responses();
    let mut seen = OutcomeSet::none();
    for state in 0..table.states() {
        let saw = see(table, sight, State(state));
        add_seen(&mut seen, set, state, saw, responses);
    }
    seen
}

/// What the processes from low on and below high show process k of the node.
fn shown_by(table: &Table, meeting: &Meeting, low: u8, high: u8, k: u8) -> OutcomeSet
    requires meeting { IsNodeMeeting table.now meeting.now }
    requires team { (low < high) × (high ≤ length meeting.now.operations) }
    requires others { high < low + length meeting.now.operations }
    requires k { k < length meeting.now.operations }
    ensures { (r saw : ℕ) → Has result r saw ↔ Shows table.now meeting.now low high k r saw }
{
    let choice = turned(meeting, low, high);
    let set = outcomes(table, &choice, Team::A, role_of(low, high, k));
    seen_by(table, meeting.sight(), &set)
}

/// What each team shows process k of the node.
fn all_shown(
    alloc: Global,
    table: &Table,
    meeting: &Meeting,
    sizes: &[u8],
    k: u8,
) -> Result<Vec<OutcomeSet>, AllocError>
    requires meeting { IsNodeMeeting table.now meeting.now }
    requires sizes { IsDivision (length meeting.now.operations) sizes.now }
    requires k { k < length meeting.now.operations }
    ensures { IfOk result (λ sets. AreShown table.now meeting.now sizes.now k (length sizes.now)
        sets.items) }
{
    let mut sets = Vec::new(alloc);
    let mut low = 0;
    for size in sizes {
        let high = low + *size;
        sets.push(shown_by(table, meeting, low, high, k))?;
        low = high;
    }
    Ok(sets)
}

/// Whether the set has a common pair with one of these from this place on.
fn meets_one(set: &OutcomeSet, sets: &[OutcomeSet], from: usize) -> bool
    ensures { IsTrue result ↔ ((h : ℕ) × (from ≤ h) × (h < length sets.now)
        × HaveCommonPair set.now (slice_index_or sets.now h [])) }
{
    for h in from..sets.len() {
        if set.meets(&sets[h]) {
            return true;
        }
    }
    false
}

/// Whether two of the sets have a common pair.
fn some_meet(sets: &[OutcomeSet]) -> bool
    ensures { IsTrue result ↔ SomeMeet sets.now }
{
    for g in 0..sets.len() {
        if meets_one(&sets[g], sets, g + 1) {
            return true;
        }
    }
    false
}

/// The first set that has the pair.
fn team_of(sets: &[OutcomeSet], response: Response, saw: u8) -> Option<usize>
    ensures none { IfNone result ((g : ℕ) → g < length sets.now
        → ¬ Has (slice_index_or sets.now g []) response.0 saw) }
    ensures some { IfSome result (λ g. (g < length sets.now)
        × Has (slice_index_or sets.now g []) response.0 saw) }
{
    for g in 0..sets.len() {
        if sets[g].has(response, State(saw)) {
            return Some(g);
        }
    }
    None
}

/// Pushes the entries of the sets with this response.
fn push_entries(
    judged: &mut Vec<Judged>,
    sets: &[OutcomeSet],
    response: u8,
    limit: u8,
) -> Result<(), AllocError>
    requires few { length sets.now ≤ MOST_PROCESSES }
    requires apart { ¬ SomeMeet sets.now }
    requires listed { AreListed sets.now limit response 0 judged.old.items }
    ensures { OnOk result (AreListed sets.now limit (response + 1) 0 judged.new.items) }
{
    for saw in 0..limit {
        match team_of(sets, Response(response), saw) {
            Some(team) => judged.push(Judged {
                response: Response(response),
                saw,
                team: team as u8,
            })?,
            None => {}
        }
    }
    Ok(())
}

/// The entries of the sets with responses below a number and what is seen below another.
fn entries(
    alloc: Global,
    sets: &[OutcomeSet],
    responses: u8,
    limit: u8,
) -> Result<Vec<Judged>, AllocError>
    requires few { length sets.now ≤ MOST_PROCESSES }
    requires apart { ¬ SomeMeet sets.now }
    ensures { IfOk result (λ judged. AreListed sets.now limit responses 0 judged.items) }
{
    let mut judged = Vec::new(alloc);
    for response in 0..responses {
        push_entries(&mut judged, sets, response, limit)?;
    }
    Ok(judged)
}

/// What process k of a node judges, whose teams have these sizes. None if two teams show it the
/// same.
pub(crate) fn entries_of(
    alloc: Global,
    table: &Table,
    meeting: &Meeting,
    sizes: &[u8],
    k: u8,
) -> Result<Option<Vec<Judged>>, AllocError>
    requires meeting { IsNodeMeeting table.now meeting.now }
    requires sizes { IsDivision (length meeting.now.operations) sizes.now }
    requires k { k < length meeting.now.operations }
    ensures { IfOk result (IsJudgedBy table.now meeting.now sizes.now k) }
{
    let sets = all_shown(alloc, table, meeting, sizes, k)?;
    if some_meet(&sets) {
        return Ok(None);
    }
    let limit = seen_count(table, meeting.sight());
    let judged = entries(alloc, &sets, table.responses(), limit)?;
    Ok(Some(judged))
}
