//! What a search finds.
use cn_choice::{Choice, Collision};
use std::marker::Model;

/// The number of a type up to a limit, and the evidence for it.
#[derive(Drop)]
pub struct Finding {
    /// The limit that the search was given.
    pub limit: u8,
    /// The greatest n from 2 to the limit for which the type is n-discerning, if there is one.
    pub number: Option<u8>,
    /// The first canonical witness at that number.
    pub witness: Option<Choice>,
    /// The recorded collision of each live canonical choice for one process more than the number,
    /// in the order of the choices; for two processes if there is no number; nothing if the number
    /// is the limit.
    pub collisions: Vec<Collision>,
}

impl Model for Finding {
    ghost use Rattle.cn_finding.specs.Finding.{Finding};

    ghost Value = { Finding };

    ghost view = { λ f. record {
      limit = f.limit;
      number = f.number;
      witness = f.witness;
      collisions = f.collisions.items;
    } };
}
