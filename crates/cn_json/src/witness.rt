//! The witness of a number as JSON: its processes, and what each can see.
ghost use Rattle.cn_reasons.specs.Known.{IsKnownView, IsKnownWitness};
ghost use Rattle.cn_json.specs.Witness.{witness_data, witness_process};

use crate::json_text::JsonText;
use crate::json_text::Primitive::Text;
use crate::value::{JsonValue, OfProcesses};
use cn_reasons::{View, Witness};
use cn_table::Table;
use std::alloc::AllocError;

impl JsonValue for View {
    ghost IsKnown = { IsKnownView };

    ghost json = { witness_process };

    fn write(&self, out: &mut JsonText, table: &Table) -> Result<(), AllocError> {
        out.begin_object()?;
        out.array_at("a_first", table, &self.a_first)?;
        out.array_at("b_first", table, &self.b_first)?;
        out.last_members(&[
            (
                "operation",
                Text(table.operation_name(self.group.operation)),
            ),
            ("team", Text(self.group.team.name())),
        ])
    }
}

impl OfProcesses for View {
    ghost count = { λ v. v.group.count };

    fn processes(&self) -> u8 {
        self.group.count
    }
}

impl JsonValue for Witness {
    ghost IsKnown = { IsKnownWitness };

    ghost json = { witness_data };

    fn write(&self, out: &mut JsonText, table: &Table) -> Result<(), AllocError> {
        out.begin_object()?;
        out.begin_array_at("processes")?;
        out.last_processes(table, &self.views)?;
        out.last_members(&[("start", Text(table.state_name(self.choice.start)))])
    }
}
