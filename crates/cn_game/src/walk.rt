//! The walk through the positions of the game, by which it is decided in which ones the protocol
//! holds out.

use crate::positions::{Positions, Verdict};
use cn_table::Table;
use std::alloc::{AllocError, Global};

/// What it takes to decide one position, the root. A round looks at the positions that can come of
/// it. Before it looks at one, further rounds decide the parts of it.
#[derive(Clone, Copy)]
struct Round {
    root: usize,
    number: usize,
    /// How many positions waited when it began.
    waiting: usize,
    /// How many positions earlier rounds that go on had looked at.
    seen: usize,
}

/// A walk that meets a number of positions at most.
#[derive(Drop)]
pub(crate) struct Walk {
    pub positions: Positions,
    most: usize,
    /// The rounds that go on, each for a part of a position of the one before.
    rounds: Vec<Round>,
    /// How many rounds there were.
    begun: usize,
    /// Positions to look at, and those that are looked at, round by round.
    waiting: Vec<usize>,
    seen: Vec<usize>,
}

impl Walk {
    /// A walk that has met none.
    pub fn new(alloc: Global, most: usize) -> Result<Walk, AllocError> {
        let positions = Positions::new(alloc)?;
        Ok(Walk {
            positions,
            most,
            rounds: Vec::new(alloc),
            begun: 0,
            waiting: Vec::new(alloc),
            seen: Vec::new(alloc),
        })
    }

    /// Whether it has met as many positions as it may.
    pub fn is_full(&self) -> bool {
        self.most <= self.positions.len()
    }

    /// Decides the position, unless the walk is full before.
    pub fn decide(&mut self, alloc: Global, table: &Table, root: usize) -> Result<(), AllocError> {
        self.begin(root)?;
        for _step in 0..u64::MAX {
            let Some(round) = self.rounds.last().copied() else {
                break;
            };
            if self.is_full() {
                break;
            }
            self.go_on(alloc, table, round)?;
        }
        Ok(())
    }

    /// Begins a round.
    fn begin(&mut self, root: usize) -> Result<(), AllocError> {
        self.begun = self.begun.saturating_add(1);
        self.rounds.push(Round {
            root,
            number: self.begun,
            waiting: self.waiting.len(),
            seen: self.seen.len(),
        })?;
        self.waiting.push(root)?;
        Ok(())
    }

    /// Ends the last round.
    fn end(&mut self, round: Round) {
        let _ended = self.rounds.pop();
        self.waiting.truncate(round.waiting);
        self.seen.truncate(round.seen);
    }

    /// Goes on with the last round: looks at one more position. If none waits, and a move of each that
    /// is open is pursued, these are lost, since these moves lead to one of them again.
    fn go_on(&mut self, alloc: Global, table: &Table, round: Round) -> Result<(), AllocError> {
        if !self.positions.verdict(round.root).is_open() {
            self.end(round);
            return Ok(());
        }
        if self.waiting.len() > round.waiting {
            if let Some(place) = self.waiting.pop() {
                return self.look(alloc, table, round, place);
            }
        }
        if self.goes_on_from_seen(alloc, table, round)? {
            return Ok(());
        }
        if let Some(seen) = self.seen.get(round.seen..) {
            self.positions.lose(seen)?;
        }
        self.end(round);
        Ok(())
    }

    /// Goes on from the seen positions whose moves so far have an answer. Answers whether there are
    /// some.
    fn goes_on_from_seen(
        &mut self,
        alloc: Global,
        table: &Table,
        round: Round,
    ) -> Result<bool, AllocError> {
        let mut goes_on = false;
        for index in round.seen..self.seen.len() {
            if let Some(place) = self.seen.get(index).copied() {
                if self.positions.is_at_rest(place) {
                    self.pursue(alloc, table, place)?;
                    goes_on = true;
                }
            }
        }
        Ok(goes_on)
    }

    /// Tries moves of the position, and goes on to the answers of one.
    fn pursue(&mut self, alloc: Global, table: &Table, place: usize) -> Result<(), AllocError> {
        if let Some(board) = self.positions.board(place) {
            self.positions.try_moves(alloc, table, place, &board)?;
            self.positions.add_open_answers(place, &mut self.waiting)?;
        }
        Ok(())
    }

    /// Looks at a position that is open, once in a round.
    fn look(
        &mut self,
        alloc: Global,
        table: &Table,
        round: Round,
        place: usize,
    ) -> Result<(), AllocError> {
        if !self.positions.verdict(place).is_open() || self.positions.is_seen(place, round.number) {
            return Ok(());
        }
        if !self.positions.is_begun(place) && self.waits_for_part(place)? {
            return Ok(());
        }
        self.positions.see(place, round.number);
        self.seen.push(place)?;
        self.pursue(alloc, table, place)
    }

    /// Whether the position is lost by one of its parts, or has to wait for a round about one.
    fn waits_for_part(&mut self, place: usize) -> Result<bool, AllocError> {
        let Some(board) = self.positions.board(place) else {
            return Ok(false);
        };
        for process in 0..board.standings.len() {
            let part = self.positions.place_of(board.without(process))?;
            if self.is_kept_by(place, part)? {
                return Ok(true);
            }
        }
        Ok(false)
    }

    /// Whether the position is lost by this part, or has to wait for a round about it.
    fn is_kept_by(&mut self, place: usize, part: usize) -> Result<bool, AllocError> {
        let verdict = self.positions.verdict(part);
        if verdict.is_lost() {
            self.positions.settle(place, Verdict::LostByPart(part))?;
            return Ok(true);
        }
        if verdict.is_open() {
            self.waiting.push(place)?;
            self.begin(part)?;
            return Ok(true);
        }
        Ok(false)
    }
}
