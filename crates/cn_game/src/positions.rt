//! The positions that a search has met, and what is known of them.

mod expansion;
mod verdicts;

use crate::board::Board;
use crate::form::HASHES;
use crate::moves::Move;
use std::alloc::{AllocError, Global};

/// What is known of a position.
#[derive(Clone, Copy)]
pub(crate) enum Verdict {
    /// Nothing so far.
    Open,
    /// The protocol holds out.
    Held,
    /// Both runs have one state, and somebody is poised.
    Leaf,
    /// The protocol does not hold out in the position at this place, which is a part of it.
    LostByPart(usize),
    /// The protocol does not hold out after this move, whatever it chooses.
    LostByMove(Move),
}

/// A position, and what is known of it.
#[derive(Drop)]
struct Entry {
    board: Board,
    verdict: Verdict,
    /// The entry with the same hash that was met before it.
    before: Option<usize>,
    /// The last of the uses of the position as an answer.
    last_use: Option<usize>,
    /// The number of its next move that has not been tried.
    next: u8,
    /// The record of the move that was tried last.
    tried: Option<usize>,
    /// The number of the round that looked at it last.
    round: usize,
}

/// A move of a position that was tried: the protocol held out in none of its answers, as far as was
/// known then.
#[derive(Clone, Copy)]
struct Record {
    position: usize,
    step: Move,
    /// How many of its answers are not known to be lost.
    left: usize,
    /// Whether the protocol holds out in one of its answers.
    is_met: bool,
    /// The places of its uses, from the first to behind the last.
    uses: (usize, usize),
}

/// An answer of a recorded move that was open when the move was recorded.
#[derive(Clone, Copy)]
struct Use {
    answer: usize,
    record: usize,
    /// The use of the same answer that was noted before it.
    before: Option<usize>,
}

/// All positions that a search has met, in canonical form, each at its place.
#[derive(Drop)]
pub(crate) struct Positions {
    entries: Vec<Entry>,
    records: Vec<Record>,
    uses: Vec<Use>,
    /// For each hash the last entry that has it.
    last: Vec<Option<usize>>,
    /// Positions whose verdict is new, and not yet told to the moves that use them.
    news: Vec<usize>,
}

impl Verdict {
    /// Whether the protocol does not hold out.
    pub fn is_lost(self) -> bool {
        !matches!(self, Verdict::Open | Verdict::Held)
    }

    /// Whether nothing is known.
    pub fn is_open(self) -> bool {
        matches!(self, Verdict::Open)
    }
}

impl Entry {
    /// A new position.
    fn new(board: Board, before: Option<usize>) -> Entry {
        let verdict = if board.is_leaf() {
            Verdict::Leaf
        } else {
            Verdict::Open
        };
        Entry {
            board,
            verdict,
            before,
            last_use: None,
            next: 0,
            tried: None,
            round: 0,
        }
    }
}

impl Positions {
    /// No positions.
    pub fn new(alloc: Global) -> Result<Positions, AllocError> {
        let mut last = Vec::new(alloc);
        for _hash in 0..HASHES {
            last.push(None)?;
        }
        Ok(Positions {
            entries: Vec::new(alloc),
            records: Vec::new(alloc),
            uses: Vec::new(alloc),
            last,
            news: Vec::new(alloc),
        })
    }

    /// How many there are.
    pub fn len(&self) -> usize {
        self.entries.len()
    }

    /// The last position with this hash.
    fn last_with(&self, hash: usize) -> Option<usize> {
        self.last.get(hash).copied().flatten()
    }

    /// The place of a position in canonical form, if it is there.
    pub fn find(&self, board: &Board) -> Option<usize> {
        let mut next = self.last_with(board.hash());
        for _entry in 0..self.entries.len() {
            let place = next?;
            let entry = self.entries.get(place)?;
            if entry.board.is(board) {
                return Some(place);
            }
            next = entry.before;
        }
        None
    }

    /// The place of a position in canonical form, which is added if it is not there.
    pub fn place_of(&mut self, board: Board) -> Result<usize, AllocError> {
        if let Some(place) = self.find(&board) {
            return Ok(place);
        }
        let hash = board.hash();
        let place = self.entries.len();
        let before = self.last_with(hash);
        self.entries.push(Entry::new(board, before))?;
        if let Some(last) = self.last.get_mut(hash) {
            *last = Some(place);
        }
        Ok(place)
    }

    /// The position at a place.
    pub fn board(&self, place: usize) -> Option<Board> {
        let entry = self.entries.get(place)?;
        Some(entry.board.copy())
    }

    /// What is known of the position at a place.
    pub fn verdict(&self, place: usize) -> Verdict {
        match self.entries.get(place) {
            Some(entry) => entry.verdict,
            None => Verdict::Held,
        }
    }

    /// Whether the round has looked at the position.
    pub fn is_seen(&self, place: usize, round: usize) -> bool {
        match self.entries.get(place) {
            Some(entry) => entry.round == round,
            None => true,
        }
    }

    /// Notes that the round has looked at the position.
    pub fn see(&mut self, place: usize, round: usize) {
        if let Some(entry) = self.entries.get_mut(place) {
            entry.round = round;
        }
    }

    /// The last of the uses of the position as an answer.
    fn last_use(&self, place: usize) -> Option<usize> {
        let entry = self.entries.get(place)?;
        entry.last_use
    }

    /// The use at a place.
    fn use_at(&self, place: Option<usize>) -> Option<Use> {
        self.uses.get(place?).copied()
    }

    /// The number of the next move of the position that has not been tried.
    fn next_of(&self, place: usize) -> Option<u8> {
        let entry = self.entries.get(place)?;
        Some(entry.next)
    }

    /// Whether a move of the position has been tried.
    pub fn is_begun(&self, place: usize) -> bool {
        self.next_of(place) != Some(0)
    }

    /// The record of the move of the position that is pursued: the last one that was tried, unless
    /// the protocol has an answer to it.
    fn pursued(&self, place: usize) -> Option<Record> {
        let entry = self.entries.get(place)?;
        let record = self.records.get(entry.tried?)?;
        if record.is_met { None } else { Some(*record) }
    }

    /// Whether the position is open, and no move of it is pursued.
    pub fn is_at_rest(&self, place: usize) -> bool {
        self.verdict(place).is_open() && self.pursued(place).is_none()
    }
}
