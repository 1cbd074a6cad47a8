//! Certificates of numbers without reads, as values.

use cn_choice::Choice;
use cn_further::Further;
use cn_game::Trap;
use cn_signs::SignChoice;
use std::marker::Model;

/// What a certificate gives for its lower bound.
#[derive(Drop)]
pub enum LeastClaim {
    /// Nothing: one process decides alone.
    Alone,
    /// A choice whose teams responses, and operations that change nothing, tell apart.
    Visible(Choice),
    /// A choice whose teams one further operation of each process tells apart.
    Further(Further),
    /// Signs, for every number of processes.
    Signs(SignChoice),
}

/// A certificate of a type whose objects are not read: bounds of its number, and evidence for each.
/// The evidence speaks of the table with its states merged, as `cn_merging` merges them.
///
/// Nothing here is checked: a certificate that was read from a text can say anything.
#[derive(Drop)]
pub struct UnreadCertificate {
    /// The number is not less than this one; none for every number of processes.
    pub at_least: Option<u8>,
    /// The number is not more than this one, if there is a bound.
    pub at_most: Option<u8>,
    /// Why it is not less.
    pub least: LeastClaim,
    /// Why it is not more: a trap for one process more than the bound.
    pub most: Option<Trap>,
    /// The name of the type.
    pub type_name: String,
}

impl Model for UnreadCertificate {
    ghost use Rattle.std.specs.Prelude.{string_bytes};
    ghost use Rattle.cn_unread_cert.specs.Certificate.{UnreadCertificate};

    ghost Value = { UnreadCertificate };

    ghost view = { λ c. record {
      at_least = c.at_least;
      at_most = c.at_most;
      least = c.least;
      most = c.most;
      type_name = string_bytes c.type_name;
    } };
}
