//! What follows of one verdict for other positions.

use crate::positions::{Positions, Verdict};
use std::alloc::AllocError;

impl Positions {
    /// Settles an open position, and all that follow of it.
    pub fn settle(&mut self, place: usize, verdict: Verdict) -> Result<(), AllocError> {
        self.note(place, verdict)?;
        for _news in 0..u64::MAX {
            let Some(news) = self.news.pop() else {
                break;
            };
            self.tell(news)?;
        }
        Ok(())
    }

    /// Notes the verdict of an open position.
    fn note(&mut self, place: usize, verdict: Verdict) -> Result<(), AllocError> {
        if self.verdict(place).is_open() {
            if let Some(entry) = self.entries.get_mut(place) {
                entry.verdict = verdict;
            }
            self.news.push(place)?;
        }
        Ok(())
    }

    /// Tells the verdict of a position to the moves that have it as an answer.
    fn tell(&mut self, place: usize) -> Result<(), AllocError> {
        let is_lost = self.verdict(place).is_lost();
        let mut next = self.last_use(place);
        for _use in 0..self.uses.len() {
            let Some(found) = self.use_at(next) else {
                break;
            };
            next = found.before;
            if is_lost {
                self.count_loss(found.record)?;
            } else {
                self.meet(found.record);
            }
        }
        Ok(())
    }

    /// The move has one answer less that is not lost. If all are, its position is.
    fn count_loss(&mut self, place: usize) -> Result<(), AllocError> {
        let Some(record) = self.records.get_mut(place) else {
            return Ok(());
        };
        record.left = record.left.saturating_sub(1);
        let (position, step) = (record.position, record.step);
        if record.left == 0 {
            self.note(position, Verdict::LostByMove(step))?;
        }
        Ok(())
    }

    /// The protocol has an answer to the move.
    fn meet(&mut self, place: usize) {
        if let Some(record) = self.records.get_mut(place) {
            record.is_met = true;
        }
    }

    /// Settles the open ones of these positions as lost: the move of each that is pursued leads to one
    /// of them, or to a lost position, whatever the protocol chooses.
    pub fn lose(&mut self, places: &[usize]) -> Result<(), AllocError> {
        for place in places {
            if let Some(record) = self.pursued(*place) {
                self.settle(*place, Verdict::LostByMove(record.step))?;
            }
        }
        Ok(())
    }
}
