//! Where the operations of a table lead.
ghost use Rattle.std.specs.Prelude.{◌≡◌, ◌<◌, ℕ, MatchOption, false, get_or, length, true};
ghost use Rattle.cn_table.specs.TypeTable.{transition, IsTypeTable};
ghost use Rattle.cn_table.specs.declared.limits.TheConstants.{MOST_STATES};
ghost use Rattle.cn_table.specs.Reach.{changes_nothing, is_in_place, AreReached};

use crate::elements::{Operation, State};
use crate::limits::MOST_STATES;
use crate::table::Table;

impl Table {
    /// The state to which an operation leads.
    fn next(&self, operation: Operation, state: State) -> State
        requires operation { operation.0 < length self.now.operations }
        requires state { state.0 < length self.now.states }
        ensures value { result.0 ≡ (transition self.now operation.0 state.0).1 }
        ensures range { result.0 < length self.now.states }
        ensures small { result.0 < MOST_STATES }
    {
        // No effect at run time: from this read the proof knows what holds of every table.
        let _ = &self.name;
        self.apply(operation, state).1
    }

    /// An unmarked state to which an operation leads from this one.
    fn next_unmarked_from(&self, marked: &[bool; MOST_STATES], from: State) -> Option<State>
        requires { from.0 < length self.now.states }
        ensures { MatchOption result
            ((o : ℕ) → o < length self.now.operations
            → get_or marked.now (transition self.now o from.0).1 false ≡ true)
            (λ q. (q.0 < length self.now.states) × (q.0 < MOST_STATES)
            × (get_or marked.now q.0 false ≡ false)
            × ((o : ℕ) × (o < length self.now.operations)
            × ((transition self.now o from.0).1 ≡ q.0))) }
    {
        for o in 0..self.operations() {
            let next = self.next(Operation(o), from);
            if !marked[next.0 as usize] {
                return Some(next);
            }
        }
        None
    }

    /// An unmarked state to which an operation leads from a marked one.
    fn next_unmarked(&self, marked: &[bool; MOST_STATES]) -> Option<State>
        ensures way { MatchOption result
            ((p : ℕ) → p < length self.now.states → get_or marked.now p false ≡ true
            → (o : ℕ) → o < length self.now.operations
            → get_or marked.now (transition self.now o p).1 false ≡ true)
            (λ q. (q.0 < length self.now.states) × (q.0 < MOST_STATES)
            × (get_or marked.now q.0 false ≡ false)
            × ((p : ℕ) × (p < length self.now.states) × (get_or marked.now p false ≡ true)
            × ((o : ℕ) × (o < length self.now.operations) × ((transition self.now o p).1 ≡ q.0)))) }
        ensures table { IsTypeTable self.now }
    {
        for p in 0..self.states() {
            if marked[p as usize] {
                if let Some(q) = self.next_unmarked_from(marked, State(p)) {
                    return Some(q);
                }
            }
        }
        None
    }

    /// For each state, by its number, whether operations lead to it from the first state.
    pub fn reached_states(&self) -> [bool; MOST_STATES]
        // promise: reached-states
        ensures { AreReached self.now result }
    {
        let mut marked = [false; MOST_STATES];
        marked[0] = true;
        for _round in 0..MOST_STATES {
            match self.next_unmarked(&marked) {
                Some(q) => marked[q.0 as usize] = true,
                None => return marked,
            }
        }
        unreachable!()
    }

    /// Whether an operation leads from each state to itself.
    pub fn changes_nothing(&self, operation: Operation) -> bool
        requires { operation.0 < length self.now.operations }
        // promise: reached-states
        ensures { result ≡ changes_nothing self.now operation.0 }
    {
        is_in_place(self.operations[operation.0 as usize].next.as_slice())
    }
}

fn is_in_place(numbers: &[u8]) -> bool
    ensures { result ≡ is_in_place 0 numbers.now }
{
    for (i, number) in numbers.iter().enumerate() {
        if *number as usize != i {
            return false;
        }
    }
    true
}
