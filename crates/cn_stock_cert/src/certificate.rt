//! Certificates by stocks, as values.

use cn_joins::Join;
use cn_table::{Operation, State};
use std::marker::Model;

/// A start state, the operations of team A and those of team B, as many as there are.
#[derive(Drop)]
pub struct TeamChoice {
    /// The start state.
    pub state: State,
    /// The operations of team A, by process.
    pub a: Vec<u8>,
    /// The operations of team B, by process.
    pub b: Vec<u8>,
}

impl Model for TeamChoice {
    ghost use Rattle.cn_choice.specs.Canonical.{Choice};

    ghost Value = { Choice };

    ghost view = { λ c. record { state = c.state.0; a = c.a.items; b = c.b.items } };
}

/// Sets of states that show that two operations last: whatever the processes do, the state tells
/// whether the single operation came first.
#[derive(Drop)]
pub struct LastingSets {
    /// The start state.
    pub start: State,
    /// The operation of any number of processes.
    pub many: Operation,
    /// The operation of one process.
    pub single: Operation,
    /// The states while only the others have moved.
    pub alone: Vec<u8>,
    /// The states once the one has moved behind another process.
    pub behind: Vec<u8>,
    /// The states once the one has moved first.
    pub first: Vec<u8>,
}

impl Model for LastingSets {
    ghost use Rattle.cn_stock_cert.specs.LastingSets.{LastingSets};

    ghost Value = { LastingSets };

    ghost view = { λ s. record {
      start = s.start.0;
      many = s.many.0;
      single = s.single.0;
      alone = s.alone.items;
      behind = s.behind.items;
      first = s.first.items;
    } };
}

/// What a certificate gives for its lower bound.
#[derive(Drop)]
pub enum StockClaim {
    /// Nothing: one process decides alone.
    Alone,
    /// A witness.
    Witness(TeamChoice),
    /// Two operations that last, for every number of processes.
    Lasting(LastingSets),
}

/// A certificate of a type: bounds of its number, and evidence for each.
///
/// Nothing here is checked: a certificate that was read from a text can say anything.
#[derive(Drop)]
pub struct StockCertificate {
    /// The number is not less than this one; none for every number of processes.
    pub at_least: Option<u8>,
    /// The number is not more than this one, if there is a bound.
    pub at_most: Option<u8>,
    /// Why it is not less.
    pub least: StockClaim,
    /// Why it is not more: joins for one process more than the bound.
    pub most: Option<Vec<Join>>,
    /// The name of the type.
    pub type_name: String,
}

impl Model for StockCertificate {
    ghost use Rattle.std.specs.Prelude.{option_map, string_bytes};
    ghost use Rattle.cn_stock_cert.specs.Certificate.{StockCertificate};

    ghost Value = { StockCertificate };

    ghost view = { λ c. record {
      at_least = c.at_least;
      at_most = c.at_most;
      least = c.least;
      most = option_map (λ joins. joins.items) c.most;
      type_name = string_bytes c.type_name;
    } };
}
