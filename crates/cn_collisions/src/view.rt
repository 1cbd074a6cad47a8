//! A process of a choice, and the beginnings of orders.
use crate::sets::Sets;
use cn_choice::RawChoice;
use cn_stocks::pair_sets::PairSet;
use cn_table::{Operation, State};

/// A process of a choice, and the sets for the choice.
#[derive(Clone, Copy)]
pub(crate) struct View<'s> {
    pub sets: &'s Sets<'s>,
    pub raw: &'s RawChoice,
    pub process: u8,
}

/// The beginning of an order.
#[derive(Clone, Copy)]
pub(crate) struct Prefix {
    /// The processes that have moved.
    pub used: u16,
    pub state: State,
    /// The response of the process in question, if it has moved.
    pub seen: Option<u8>,
    /// How many other processes have not moved.
    pub size: u8,
    /// Where the stock of the operations of these stands.
    pub place: u32,
}

// What stands in the free places of a list of steps.
impl Default for Prefix {
    fn default() -> Prefix {
        Prefix {
            used: 0,
            state: State(0),
            seen: None,
            size: 0,
            place: 0,
        }
    }
}

impl<'s> View<'s> {
    ghost use Rattle.std.specs.Prelude.{◌≡◌, ◌≢◌, ◌≤◌, ◌<◌, ◌+◌, ◌-◌, ◌^◌, ◌⊎◌, ◌↔◌, ℕ, length, slice_index, IsBitSet, IsTrue};
    ghost use Rattle.std.specs.Int.Bits.{bit_or};
    ghost use Rattle.cn_choice.specs.Moves.{answer_of, next_of};
    ghost use Rattle.cn_stocks.specs.Pairs.{Has};
    ghost use Rattle.cn_collisions.specs.Views.{IsBegun, IsPrefix, IsView, moves_left};
    ghost use Rattle.cn_collisions.specs.Ways.{WayTo, seen_after};

    /// The operation of a process.
    pub fn operation(&self, process: u8) -> Operation
        requires view { IsView self.now }
        requires process { process < length self.now.raw.now.operations }
        ensures operation { result.0 ≡ slice_index self.now.raw.now.operations process }
        ensures known { result.0 < length self.now.sets.now.table.now.operations }
    {
        let raw = self.raw;
        Operation(raw.operations[process as usize])
    }

    /// The prefix after a move of the process, which has not moved.
    #[inline(always)]
    pub fn after(&self, prefix: Prefix, process: u8) -> Prefix
        requires view { IsView self.now }
        requires prefix { IsPrefix self.now prefix }
        requires process { process < length self.now.raw.now.operations }
        requires free { ¬ IsBitSet prefix.used process }
        ensures used { result.used ≡ bit_or prefix.used (2 ^ process) }
        ensures state { result.state.0
            ≡ next_of self.now.sets.now.table.now self.now.raw.now process prefix.state.0 }
        ensures seen { result.seen ≡ seen_after self.now.process process
            (answer_of self.now.sets.now.table.now self.now.raw.now process prefix.state.0)
            prefix.seen }
        ensures prefix { IsPrefix self.now result }
        ensures begun { IsBegun self.now result }
        ensures room { moves_left result + 1 ≡ moves_left prefix }
    {
        let _responses = self.sets.table.responses();
        let operation = self.operation(process);
        let (response, state) = self.sets.table.apply(operation, prefix.state);
        let used = prefix.used | (1 << process);
        if process == self.process {
            let seen = Some(response.0);
            return Prefix {
                used,
                state,
                seen,
                ..prefix
            };
        }
        let place = self.sets.less(prefix.size, prefix.place, operation);
        let size = prefix.size - 1;
        Prefix {
            used,
            state,
            size,
            place,
            ..prefix
        }
    }

    /// Puts the pairs with which ways to go on end, with any number of processes, into the set.
    #[inline(always)]
    pub fn add_pairs_of_ways(&self, prefix: Prefix, pairs: &mut PairSet)
        requires view { IsView self.now }
        requires prefix { IsPrefix self.now prefix }
        requires begun { IsBegun self.now prefix }
        requires room { moves_left prefix + 1 ≡ length self.now.raw.now.operations }
        ensures { (r q : ℕ) → Has pairs.new r q
            ↔ (Has pairs.old r q ⊎ ((k : ℕ) × (k < length self.now.raw.now.operations)
            × WayTo self.now.sets.now.table.now self.now.raw.now self.now.process k prefix.used
            prefix.state.0 prefix.seen r q)) }
    {
        let sets = self.sets;
        let (size, place, start) = (prefix.size, prefix.place, prefix.state.0);
        match prefix.seen {
            Some(response) => {
                let _states = sets.table.states();
                let ends = sets.at(&sets.ends, size, place);
                let set = ends.ever(start);
                pairs.add_states(response, set);
            }
            None => {
                let asked = self.operation(self.process);
                let shown = sets.at(&sets.shown, size, place);
                let all = shown.ever(asked.0, start);
                pairs.add_all(all);
            }
        }
    }

    /// Whether some way to go on with exactly this number of processes ends with a pair of the set.
    #[inline(always)]
    pub fn leads_into(&self, prefix: Prefix, left: u8, target: &PairSet) -> bool
        requires view { IsView self.now }
        requires prefix { IsPrefix self.now prefix }
        requires begun { IsBegun self.now prefix }
        requires left { left ≤ moves_left prefix }
        ensures { IsTrue result ↔ ((r : ℕ) × ((q : ℕ) × WayTo self.now.sets.now.table.now
            self.now.raw.now self.now.process left prefix.used prefix.state.0 prefix.seen r q
            × Has target.now r q)) }
    {
        let sets = self.sets;
        let (size, place, start) = (prefix.size, prefix.place, prefix.state.0);
        match prefix.seen {
            Some(response) => {
                let _states = sets.table.states();
                let ends = sets.at(&sets.ends, size, place);
                let set = ends.after(left, start);
                target.has_some(response, set)
            }
            None if left == 0 => false,
            None => {
                let asked = self.operation(self.process);
                let shown = sets.at(&sets.shown, size, place);
                let found = shown.after(left - 1, asked.0, start);
                found.meets(target)
            }
        }
    }
}
