//! The processes of a choice as JSON.
ghost use Rattle.std.specs.Prelude.{codes};
ghost use Rattle.cn_reasons.specs.Known.{IsKnownChoice, IsKnownGroup};
ghost use Rattle.cn_json.specs.Choices.{process_data, processes_data};
ghost use Rattle.cn_json.specs.Tokens.{Appends, member_tokens};

use crate::json_text::JsonText;
use crate::json_text::Primitive::Text;
use crate::value::{JsonValue, OfProcesses};
use cn_reasons::{ChoiceGroups, Group};
use cn_table::Table;
use std::alloc::AllocError;

impl JsonValue for Group {
    ghost IsKnown = { IsKnownGroup };

    ghost json = { process_data };

    fn write(&self, out: &mut JsonText, table: &Table) -> Result<(), AllocError> {
        out.object(&[
            ("operation", Text(table.operation_name(self.operation))),
            ("team", Text(self.team.name())),
        ])
    }
}

impl OfProcesses for Group {
    ghost count = { λ g. g.count };

    fn processes(&self) -> u8 {
        self.count
    }
}

impl JsonText {
    /// The key of the processes of a choice, and their array.
    pub(crate) fn processes_of(
        &mut self,
        table: &Table,
        choice: &ChoiceGroups,
    ) -> Result<(), AllocError>
        requires { IsKnownChoice table.now choice.now }
        ensures { Appends result self.old self.new
            (member_tokens (codes "processes") (processes_data table.now choice.now)) }
    {
        self.begin_array_at("processes")?;
        self.processes(table, &choice.a)?;
        self.last_processes(table, &choice.b)
    }
}
