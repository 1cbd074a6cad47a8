//! The states that look alike by a sight.
ghost use Rattle.std.specs.Prelude.{◌≡◌, ◌<◌, ◌↔◌, ◌⊎◌, ◌∷◌, [], ℕ, length, IfOk, IsBitSet, IsTrue};
ghost use Rattle.cn_meetings.specs.Meeting.{IsSightOf};
ghost use Rattle.cn_table.specs.TypeTable.{transition};
ghost use Rattle.cn_divisions.specs.Looks.{AreAnswers, AreLooks, AreSets, IsLook, ShareInOne, ShareResponse};
ghost use Rattle.cn_divisions.specs.Sights.{HasSmallResponses};
ghost use Rattle.cn_meetings.specs.Sights.{AreSightsOf, sight_of};

use arrayvec::ArrayVec;
use cn_meetings::Sight;
use cn_outcomes::bits::with;
use cn_stocks::pair_sets::PairSet;
use cn_table::{MOST_RESPONSES, Operation, State, Table};
use std::alloc::{AllocError, Global};

/// Sets of states.
pub(crate) type StateSets = ArrayVec<u16, MOST_RESPONSES>;

/// A sight of a type, and the states that look alike by it.
#[derive(Drop)]
pub(crate) struct Look {
    pub sight: Sight,
    /// Sets of states that look alike. Where the state is read none do, and there are no sets.
    pub alike: StateSets,
}

/// The set, with the state if the operation gets the response in it.
fn with_answer(table: &Table, operation: Operation, response: u8, set: u16, state: u8) -> u16
    requires operation { operation.0 < length table.now.operations }
    requires state { state < length table.now.states }
    ensures { (q : ℕ) → IsBitSet result q ↔ (IsBitSet set q
        ⊎ ((q ≡ state) × ((transition table.now operation.0 state).0 ≡ response))) }
{
    let _states = table.states();
    let (got, _) = table.apply(operation, State(state));
    let larger = with(set, state);
    if got.0 == response {
        return larger;
    }
    set
}

/// The states in which the operation gets the response.
fn answering(table: &Table, operation: Operation, response: u8) -> u16
    requires { operation.0 < length table.now.operations }
    ensures { (q : ℕ) → IsBitSet result q ↔ ((q < length table.now.states)
        × ((transition table.now operation.0 q).0 ≡ response)) }
{
    let mut set = 0;
    for state in 0..table.states() {
        set = with_answer(table, operation, response, set, state);
    }
    set
}

/// For each response the states in which the operation gets it.
fn answers(table: &Table, operation: Operation) -> StateSets
    requires { operation.0 < length table.now.operations }
    ensures { AreAnswers table.now operation.0 result.items }
{
    let mut sets = ArrayVec::new();
    for response in 0..table.responses() {
        sets.push(answering(table, operation, response));
    }
    sets
}

/// The set of all states.
fn all_states() -> StateSets
    ensures { result.items ≡ 65535 ∷ [] }
{
    let mut sets = ArrayVec::new();
    sets.push(u16::MAX);
    sets
}

/// The states that look alike by the sight.
fn alike(table: &Table, sight: Sight) -> StateSets
    requires { IsSightOf table.now (sight_of sight) }
    ensures { AreSets table.now sight result.items }
{
    let _states = table.states();
    match sight {
        Sight::State => ArrayVec::new(),
        Sight::Nothing => all_states(),
        Sight::Response(operation) => answers(table, operation),
    }
}

/// The look by this sight.
fn look_by(table: &Table, sight: &Sight) -> Look
    requires { IsSightOf table.now (sight_of sight.now) }
    ensures sight { result.sight ≡ sight.now }
    ensures is { IsLook table.now result }
{
    Look {
        sight: *sight,
        alike: alike(table, *sight),
    }
}

/// The looks by these sights.
pub(crate) fn looks(alloc: Global, table: &Table, sights: &[Sight]) -> Result<Vec<Look>, AllocError>
    requires { AreSightsOf table.now sights.now }
    ensures { IfOk result (λ looks. AreLooks table.now sights.now looks.items) }
{
    let mut looks = Vec::with_capacity(alloc, sights.len())?;
    for place in 0..sights.len() {
        let look = look_by(table, &sights[place]);
        looks.push(look)?;
    }
    Ok(looks)
}

/// Whether some response stands in a pair of each of the sets, with one of the states.
fn share_response(a: &PairSet, b: &PairSet, states: u16) -> bool
    requires { HasSmallResponses a.now }
    ensures { IsTrue result ↔ ShareResponse a.now b.now states }
{
    for response in 0..MOST_RESPONSES as u8 {
        if a.has_some(response, states) && b.has_some(response, states) {
            return true;
        }
    }
    false
}

/// Whether some response stands in a pair of each of the sets, with states of one of these sets.
fn share_in_one(a: &PairSet, b: &PairSet, alike: &[u16]) -> bool
    requires { HasSmallResponses a.now }
    ensures { IsTrue result ↔ ShareInOne a.now b.now alike.now }
{
    for place in 0..alike.len() {
        if share_response(a, b, alike[place]) {
            return true;
        }
    }
    false
}

impl Look {
    ghost use Rattle.std.specs.Prelude.{◌↔◌, IsTrue};
    ghost use Rattle.cn_table.specs.TypeTable.{TypeTable};
    ghost use Rattle.cn_divisions.specs.Looks.{IsLook};
    ghost use Rattle.cn_divisions.specs.Sights.{AreAlike, HasSmallResponses, IsOf};
    ghost use Rattle.cn_meetings.specs.Sights.{sight_of};

    /// Whether a pair of the one set and a pair of the other one look alike: the same response, and
    /// states of which the same is seen.
    pub fn confuses(&self, a: &PairSet, b: &PairSet) -> bool
        requires { HasSmallResponses a.now }
        ensures { (t : TypeTable) → IsLook t self.now → IsOf t a.now → IsOf t b.now
            → IsTrue result ↔ AreAlike t (sight_of self.now.sight) a.now b.now }
    {
        if self.sight.reads() {
            return a.meets(b);
        }
        share_in_one(a, b, self.alike.as_slice())
    }
}
