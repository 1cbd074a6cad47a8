//! Drafts: what a text says, before any check of its numbers.
use std::marker::Model;

/// A choice before any check of its numbers.
#[derive(Drop)]
pub(crate) struct DraftChoice {
    pub state: u64,
    pub a: Vec<u64>,
    pub b: Vec<u64>,
}

impl Model for DraftChoice {
    ghost use Rattle.cn_choice.specs.Canonical.{Choice};

    ghost Value = { Choice };

    ghost view = { λ c. record { state = c.state; a = c.a.items; b = c.b.items } };
}

/// A collision before any check of its numbers.
#[derive(Drop)]
pub(crate) struct DraftCollision {
    pub choice: DraftChoice,
    pub process: u64,
    pub alpha: Vec<u64>,
    pub beta: Vec<u64>,
}

impl Model for DraftCollision {
    ghost use Rattle.cn_choice.specs.Collisions.{Collision};

    ghost Value = { Collision };

    ghost view = { λ c. record {
      choice = c.choice;
      process = c.process;
      alpha = c.alpha.items;
      beta = c.beta.items;
    } };
}

/// A certificate before any check of its version, its numbers and its name.
#[derive(Drop)]
pub(crate) struct Draft {
    pub version: u64,
    pub type_name: String,
    pub limit: u64,
    pub number: Option<u64>,
    pub witness: Option<DraftChoice>,
    pub collisions: Vec<DraftCollision>,
}

impl Model for Draft {
    ghost use Rattle.std.specs.Prelude.{string_bytes};
    ghost use Rattle.cn_cert.specs.Certificate.{Certificate};

    ghost Value = { Certificate };

    ghost view = { λ c. record {
      version = c.version;
      type_name = string_bytes c.type_name;
      limit = c.limit;
      number = c.number;
      witness = c.witness;
      collisions = c.collisions.items;
    } };
}
