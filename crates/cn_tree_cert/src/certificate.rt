//! Certificates of plan trees, as values.

use cn_meetings::Sight;
use cn_table::{Operation, State};
use std::marker::Model;

/// What a certificate says of a node.
#[derive(Drop)]
pub struct TreeNode {
    /// The state in which the object starts.
    pub start: State,
    /// What each process sees of the state behind its operation.
    pub sight: Sight,
    /// The operation of each process that comes to the node, from the first one on.
    pub operations: Vec<Operation>,
    /// The number of processes of each team, in order.
    pub teams: Vec<u8>,
}

impl Model for TreeNode {
    ghost use Rattle.cn_tree_cert.specs.Certificate.{TreeNode};

    ghost Value = { TreeNode };

    ghost view = { λ n. record {
      start = n.start.0;
      sight = n.sight;
      operations = n.operations.items;
      teams = n.teams.items;
    } };
}

/// A certificate of a plan tree: its nodes, and what it costs a process.
///
/// The nodes stand in the order of their numbers: behind a node come those below its first team,
/// then those below the second one, and so on. Each team of several processes has a node of its own.
///
/// Nothing here is checked: a certificate that was read from a text can say anything.
#[derive(Drop)]
pub struct TreeCertificate {
    /// The nodes, from the root on.
    pub nodes: Vec<TreeNode>,
    /// The number of processes.
    pub processes: u8,
    /// The greatest number of own steps of a process.
    pub steps: u8,
    /// The name of the type.
    pub type_name: String,
}

impl Model for TreeCertificate {
    ghost use Rattle.std.specs.Prelude.{string_bytes};
    ghost use Rattle.cn_tree_cert.specs.Certificate.{TreeCertificate};

    ghost Value = { TreeCertificate };

    ghost view = { λ c. record {
      nodes = c.nodes.items;
      processes = c.processes;
      steps = c.steps;
      type_name = string_bytes c.type_name;
    } };
}
