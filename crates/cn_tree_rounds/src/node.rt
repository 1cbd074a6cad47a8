//! The object and the registers that processes share at a node.
ghost use Rattle.std.specs.Prelude.{◌≡◌, ◌<◌, Some, None, slice_index_or, slice_set};
ghost use Rattle.cn_choice.specs.declared.limits.TheConstants.{MOST_PROCESSES};
ghost use Rattle.cn_tree_rounds.specs.Worlds.{fresh_node};

use cn_choice::MOST_PROCESSES;
use cn_table::State;

/// The object of a node, and registers for as many teams as a node can have, empty at first.
#[derive(Clone, Copy, Debug)]
pub(crate) struct Node {
    /// The state of its object.
    pub state: State,
    /// The value in the register of each team.
    pub registers: [Option<u64>; MOST_PROCESSES],
}

impl Node {
    pub(crate) fn new(start: State) -> Node
        ensures { result ≡ fresh_node start.0 }
    {
        Node {
            state: start,
            registers: [None; MOST_PROCESSES],
        }
    }

    pub(crate) fn register(&self, team: u8) -> Option<u64>
        requires { team < MOST_PROCESSES }
        ensures { result ≡ slice_index_or self.now.registers team None }
    {
        self.registers[usize::from(team)]
    }

    pub(crate) fn write(&mut self, team: u8, value: u64)
        requires { team < MOST_PROCESSES }
        ensures { self.new
            ≡ record self.old { registers = slice_set self.old.registers team (Some value) } }
    {
        self.registers[usize::from(team)] = Some(value);
    }
}
