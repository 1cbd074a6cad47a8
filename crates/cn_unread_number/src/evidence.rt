//! Evidence for the bounds of a number without reads.

use crate::bounds::NumberBounds;
use crate::telling::Telling;
use cn_choice::Choice;
use cn_further::Further;
use cn_game::Trap;
use cn_signs::SignChoice;

/// Why the number is not less than its lower bound.
#[derive(Drop)]
pub enum LeastEvidence {
    /// One process decides alone.
    Alone,
    /// The type tells its states, so that it needs no reads.
    Telling(Telling),
    /// Responses, and operations that change nothing, tell the teams of this choice apart.
    Visible(Choice),
    /// A further operation of each process tells the teams of a choice apart.
    Further(Further),
    /// Signs tell which of two operations was first, for any number of processes.
    Signs(SignChoice),
}

/// Why the number is not more than its upper bound.
#[derive(Drop)]
pub enum MostEvidence {
    /// No upper bound is known.
    Open,
    /// It is not more than with reads.
    WithReads,
    /// No choice for one process more is defended.
    Trap(Trap),
}

/// Bounds of a number, each with its evidence.
#[derive(Drop)]
pub struct Evidence {
    /// The bounds.
    pub bounds: NumberBounds,
    /// Why the number is not less.
    pub least: LeastEvidence,
    /// Why it is not more.
    pub most: MostEvidence,
}
