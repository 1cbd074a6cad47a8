//! The moves of a position are tried.

use crate::board::Board;
use crate::moves::{Move, answers};
use crate::positions::{Positions, Record, Use, Verdict};
use cn_table::Table;
use std::alloc::{AllocError, Global};

impl Positions {
    /// Tries moves of the open position at the place, one after the other, up to one that is worth to
    /// be pursued. One after which it is lost settles it, and so does it if the protocol has an answer
    /// to each.
    pub fn try_moves(
        &mut self,
        alloc: Global,
        table: &Table,
        place: usize,
        board: &Board,
    ) -> Result<(), AllocError> {
        let first = self.next_of(place).unwrap_or(0);
        for number in first..2 * board.standings.len() as u8 {
            if !self.is_at_rest(place) {
                return Ok(());
            }
            self.note_next(place, number + 1);
            self.try_move(alloc, table, place, board, Move::numbered(number))?;
        }
        if self.is_at_rest(place) {
            self.settle(place, Verdict::Held)?;
        }
        Ok(())
    }

    /// Notes the number of the next move of the position that has not been tried.
    fn note_next(&mut self, place: usize, number: u8) {
        if let Some(entry) = self.entries.get_mut(place) {
            entry.next = number;
        }
    }

    /// Records the move, if the position has it, and no answer to it is held.
    fn try_move(
        &mut self,
        alloc: Global,
        table: &Table,
        place: usize,
        board: &Board,
        step: Move,
    ) -> Result<(), AllocError> {
        if !step.is_of(board) {
            return Ok(());
        }
        let boards = answers(alloc, table, board, step)?;
        let places = self.places_of(alloc, boards)?;
        if self.may_all_be_lost(places.as_slice()) {
            self.record(place, step, places.as_slice())?;
        }
        Ok(())
    }

    /// The places of the positions.
    fn places_of(&mut self, alloc: Global, boards: Vec<Board>) -> Result<Vec<usize>, AllocError> {
        let mut places = Vec::new(alloc);
        for board in boards {
            let place = self.place_of(board)?;
            places.push(place)?;
        }
        Ok(places)
    }

    /// Whether there are such positions, and none is held.
    fn may_all_be_lost(&self, places: &[usize]) -> bool {
        for place in places {
            let verdict = self.verdict(*place);
            if !verdict.is_open() && !verdict.is_lost() {
                return false;
            }
        }
        !places.is_empty()
    }

    /// Records a move with these answers. If all are lost, it settles the position.
    fn record(&mut self, position: usize, step: Move, answers: &[usize]) -> Result<(), AllocError> {
        let record = self.records.len();
        let start = self.uses.len();
        for answer in answers {
            self.add_use(record, *answer)?;
        }
        let end = self.uses.len();
        if start == end {
            return self.settle(position, Verdict::LostByMove(step));
        }
        self.records.push(Record {
            position,
            step,
            left: end.saturating_sub(start),
            is_met: false,
            uses: (start, end),
        })?;
        if let Some(entry) = self.entries.get_mut(position) {
            entry.tried = Some(record);
        }
        Ok(())
    }

    /// Notes that the position, if it is open, is an answer of a move.
    fn add_use(&mut self, record: usize, answer: usize) -> Result<(), AllocError> {
        if !self.verdict(answer).is_open() {
            return Ok(());
        }
        let before = self.last_use(answer);
        let place = self.uses.len();
        self.uses.push(Use {
            answer,
            record,
            before,
        })?;
        if let Some(entry) = self.entries.get_mut(answer) {
            entry.last_use = Some(place);
        }
        Ok(())
    }

    /// Adds the open answers of the move of the position that is pursued.
    pub fn add_open_answers(
        &self,
        place: usize,
        waiting: &mut Vec<usize>,
    ) -> Result<(), AllocError> {
        match self.pursued(place) {
            Some(record) => self.add_open_uses(record.uses, waiting),
            None => Ok(()),
        }
    }

    /// Adds the open answers among these uses.
    fn add_open_uses(
        &self,
        (start, end): (usize, usize),
        waiting: &mut Vec<usize>,
    ) -> Result<(), AllocError> {
        for index in start..end {
            if let Some(found) = self.uses.get(index) {
                if self.verdict(found.answer).is_open() {
                    waiting.push(found.answer)?;
                }
            }
        }
        Ok(())
    }
}
