//! Joins as values.
use cn_table::State;
use std::marker::Model;

/// A word, and a place in it: the operation there is asked what it sees.
#[derive(Drop)]
pub struct PlacedWord {
    /// The operations, in the order in which they are applied.
    pub word: Vec<u8>,
    /// The place.
    pub place: u8,
}

impl Model for PlacedWord {
    ghost use Rattle.cn_joins.specs.Joins.{PlacedWord};

    ghost Value = { PlacedWord };

    ghost view = { λ w. record { word = w.word.items; place = w.place } };
}

/// Two words from one start state. If the operations at their places are the same, and see the same
/// response and the same last state, processes with the operations that the words begin with are in
/// one team.
///
/// Nothing here is checked: a join that was read from a text can have any words.
#[derive(Drop)]
pub struct Join {
    /// The start state.
    pub start: State,
    /// The first word.
    pub first: PlacedWord,
    /// The second word.
    pub second: PlacedWord,
}

impl Model for Join {
    ghost use Rattle.cn_joins.specs.Joins.{Join};

    ghost Value = { Join };

    ghost view = { λ j. record { start = j.start.0; first = j.first; second = j.second } };
}
