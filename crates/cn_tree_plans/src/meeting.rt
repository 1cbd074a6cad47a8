//! Meetings.
ghost use Rattle.std.specs.Prelude.{◌≡◌, ◌<◌, ◌^◌, length, slice_index};

use cn_meetings::Sight;
use cn_table::{Operation, State};
use std::marker::Model;

/// The meeting of a node.
#[derive(Drop)]
pub struct Meeting {
    /// The state in which the object starts.
    pub start: State,
    /// How the processes look at the object behind their operations.
    pub sight: Sight,
    /// The operation of each process of the node, from the first one on.
    pub operations: Vec<Operation>,
}

impl Model for Meeting {
    ghost use Rattle.std.specs.Prelude.{map};
    ghost use Rattle.cn_tree_plans.specs.Plan.{NodeMeeting};

    ghost Value = { NodeMeeting };

    ghost view = { λ m. record {
      start = m.start.0;
      sight = m.sight;
      operations = map (λ o. o.0) m.operations.items;
    } };
}

impl Meeting {
    pub(crate) fn sight(&self) -> Sight
        ensures { result ≡ self.now.sight }
    {
        self.sight
    }

    /// The number of its processes.
    pub(crate) fn size(&self) -> u8
        requires { length self.now.operations < 2 ^ 8 }
        ensures { result ≡ length self.now.operations }
    {
        self.operations.len() as u8
    }

    /// The operation of the process with this number, counted from the first one of the node.
    pub(crate) fn operation(&self, place: u8) -> Operation
        requires { place < length self.now.operations }
        ensures { result.0 ≡ slice_index self.now.operations place }
    {
        self.operations[usize::from(place)]
    }
}
