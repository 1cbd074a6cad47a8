//! The search for operations that have signs.
ghost use Rattle.std.specs.Prelude.{◌≤◌, IfSome};
ghost use Rattle.cn_table.specs.declared.limits.TheConstants.{MOST_OPERATIONS};
ghost use Rattle.cn_signs.specs.SignChoices.{HasSigns, IsKnownChoice};
ghost use Rattle.cn_signs.specs.StateSets.{AreKnownStates, AreStatesFor};

use crate::check::shows_signs;
use crate::sign_choice::SignChoice;
use crate::states::SignStates;
use arrayvec::ArrayVec;
use cn_choice::Team;
use cn_outcomes::bits::{contains, with};
use cn_table::{MOST_OPERATIONS, Operation, State, Table};

/// The lists of further operations are tried in this order.
#[derive(Clone, Copy)]
enum Lists {
    /// Those of one operation.
    OfOne,
    /// That of all useful operations.
    OfAll,
    /// All others of useful operations.
    Others,
}

impl Lists {
    /// Whether the list of this subset of the operations is one of them.
    fn have(self, subset: u16, useful: u16) -> bool {
        let is_useful = subset & useful == subset;
        let is_one = subset.count_ones() == 1;
        match self {
            Lists::OfOne => is_one && is_useful,
            Lists::OfAll => !is_one && subset == useful,
            Lists::Others => !is_one && is_useful && subset != useful,
        }
    }
}

/// The operations of the subset, ascending.
fn list_of(subset: u16, operations: u8) -> ArrayVec<u8, MOST_OPERATIONS>
    requires { operations ≤ MOST_OPERATIONS }
{
    let mut list = ArrayVec::new();
    for operation in 0..operations {
        if contains(subset, operation) {
            list.push(operation);
        }
    }
    list
}

/// The states for the choice, if it is the table's and no state can be reached whichever team was
/// first.
fn apart_states(table: &Table, choice: &SignChoice) -> Option<SignStates>
    ensures { IfSome result (λ states. IsKnownChoice table.now choice.now
        × AreStatesFor table.now choice.now states × AreKnownStates table.now states) }
{
    if !choice.is_of(table) {
        return None;
    }
    let states = SignStates::of(table, choice);
    if states.are_apart() {
        Some(states)
    } else {
        None
    }
}

/// The choice, with either team as the side, if it has signs.
fn with_signs(table: &Table, choice: SignChoice) -> Option<SignChoice>
    ensures { IfSome result (HasSigns table.now) }
{
    let states = apart_states(table, &choice)?;
    if shows_signs(table, &choice, &states) {
        return Some(choice);
    }
    let mut choice = choice;
    choice.side = Team::B;
    if shows_signs(table, &choice, &states) {
        return Some(choice);
    }
    None
}

/// Two operations from a state, of the single process and of the many.
#[derive(Clone, Copy)]
struct Pair {
    state: State,
    single: Operation,
    many: Operation,
}

impl Pair {
    /// The choice with these further operations and team A as the side.
    fn choice_with(self, further: ArrayVec<u8, MOST_OPERATIONS>) -> SignChoice {
        SignChoice {
            state: self.state,
            single: self.single,
            many: self.many,
            further,
            side: Team::A,
        }
    }

    /// The operations that alone keep the teams apart. With more further operations more states are
    /// reached, so no list with another one does.
    fn useful(self, table: &Table) -> u16 {
        let mut useful = 0;
        if apart_states(table, &self.choice_with(ArrayVec::new())).is_none() {
            return useful;
        }
        let operations = table.operations();
        for operation in 0..operations {
            let further = list_of(1 << operation, operations);
            if apart_states(table, &self.choice_with(further)).is_some() {
                useful = with(useful, operation);
            }
        }
        useful
    }

    /// Signs with some of these lists, of which as many are tried as are left.
    fn signs(self, table: &Table, lists: Lists, left: &mut u32) -> Option<SignChoice>
        ensures { IfSome result (HasSigns table.now) }
    {
        let operations = table.operations();
        let useful = self.useful(table);
        for subset in 1..1u16 << operations {
            if !lists.have(subset, useful) {
                continue;
            }
            if *left == 0 {
                return None;
            }
            *left -= 1;
            if let Some(choice) = with_signs(table, self.choice_with(list_of(subset, operations))) {
                return Some(choice);
            }
        }
        None
    }
}

/// Signs with this operation of the single process.
fn signs_with(
    table: &Table,
    lists: Lists,
    state: State,
    single: Operation,
    left: &mut u32,
) -> Option<SignChoice>
    ensures { IfSome result (HasSigns table.now) }
{
    for number in 0..table.operations() {
        if number == single.0 {
            continue;
        }
        let many = Operation(number);
        let pair = Pair {
            state,
            single,
            many,
        };
        if let Some(choice) = pair.signs(table, lists, left) {
            return Some(choice);
        }
    }
    None
}

/// Signs from this start state.
fn signs_from(table: &Table, lists: Lists, state: State, left: &mut u32) -> Option<SignChoice>
    ensures { IfSome result (HasSigns table.now) }
{
    for single in 0..table.operations() {
        if let Some(choice) = signs_with(table, lists, state, Operation(single), left) {
            return Some(choice);
        }
    }
    None
}

/// Signs with some of these lists.
fn signs_of(table: &Table, lists: Lists, left: &mut u32) -> Option<SignChoice>
    ensures { IfSome result (HasSigns table.now) }
{
    for state in 0..table.states() {
        if let Some(choice) = signs_from(table, lists, State(state), left) {
            return Some(choice);
        }
    }
    None
}

/// Operations that have signs, if some are found with `most` lists of further operations. First come
/// lists of one operation, then those of all that are of use, then all others.
///
/// The type of a table with signs solves consensus for each number of processes, without reads.
/// Where none are found there may be some. It takes no memory.
pub fn find_signs(table: &Table, most: u32) -> Option<SignChoice>
    // promise: signs-of-a-choice
    ensures { IfSome result (HasSigns table.now) }
{
    let mut left = most;
    for lists in [Lists::OfOne, Lists::OfAll, Lists::Others] {
        if let Some(choice) = signs_of(table, lists, &mut left) {
            return Some(choice);
        }
    }
    None
}
