//! Positions in canonical form: no process is lost, and the standings are in order, those of processes
//! that are ahead first. Positions that differ in the order of processes or in lost ones alone have one
//! canonical form.

use crate::board::{Board, Standing};
use arrayvec::ArrayVec;
use cn_choice::MOST_PROCESSES;

/// How many numbers there are by which positions are looked up.
pub(crate) const HASHES: usize = 16_384;

/// What standings are in order of: the kind, the operation and the response.
fn key(standing: Standing) -> (u8, u8, u8) {
    match standing {
        Standing::AheadInFirst(o, r) => (0, o.0, r.0),
        Standing::AheadInSecond(o, r) => (1, o.0, r.0),
        Standing::Poised(o) => (2, o.0, 0),
        Standing::Lost => (3, 0, 0),
    }
}

/// The standings of processes that are not lost, in order.
fn in_order(standings: &[Standing]) -> ArrayVec<Standing, MOST_PROCESSES> {
    let mut list = ArrayVec::new();
    for standing in standings {
        if !standing.is(Standing::Lost) {
            let _fits = list.try_push(*standing);
        }
    }
    list.as_mut_slice()
        .sort_unstable_by_key(|standing| key(*standing));
    list
}

/// The number, mixed with one more part of a position.
fn mixed(number: u32, part: u8) -> u32 {
    (number ^ part as u32).wrapping_mul(16_777_619)
}

/// The number, mixed with a standing.
fn with_standing(number: u32, standing: Standing) -> u32 {
    let (kind, operation, response) = key(standing);
    mixed(mixed(mixed(number, kind), operation), response)
}

impl Board {
    /// Its canonical form.
    pub(crate) fn canonical(&self) -> Board {
        Board {
            first: self.first,
            second: self.second,
            standings: in_order(self.standings.as_slice()),
        }
    }

    /// It without one of its processes.
    pub(crate) fn without(&self, process: usize) -> Board {
        let mut part = self.copy();
        if process < part.standings.len() {
            let _left_out = part.standings.remove(process);
        }
        part
    }

    /// A number below [`HASHES`] by which it is looked up.
    pub(crate) fn hash(&self) -> usize {
        let mut number = mixed(mixed(0, self.first.0), self.second.0);
        for standing in self.standings.as_slice() {
            number = with_standing(number, *standing);
        }
        (number >> 16 ^ number) as usize % HASHES
    }

    /// Whether the two, in canonical form, are the same.
    pub(crate) fn is(&self, other: &Board) -> bool {
        self.first.0 == other.first.0
            && self.second.0 == other.second.0
            && are_same(self.standings.as_slice(), other.standings.as_slice())
    }
}

/// Whether the two lists are the same.
fn are_same(standings: &[Standing], others: &[Standing]) -> bool {
    standings.len() == others.len()
        && standings
            .iter()
            .zip(others)
            .all(|(one, other)| one.is(*other))
}
