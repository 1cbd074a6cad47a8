//! The choices that a certificate refutes as JSON, each with two runs.
ghost use Rattle.std.specs.Prelude.{All};
ghost use Rattle.cn_reasons.specs.Known.{IsKnownSight, IsKnownStep, IsKnownWay};
ghost use Rattle.cn_json.specs.Collisions.{collision_data, run_data, sight_data, step_data};
ghost use Rattle.cn_json.specs.Tokens.{Appends, member_tokens};

use crate::json_text::JsonText;
use crate::json_text::Primitive::{Byte, Text};
use crate::value::JsonValue;
use cn_reasons::{Sight, Step, Way};
use cn_table::Table;
use std::alloc::AllocError;

impl JsonValue for Sight {
    ghost IsKnown = { IsKnownSight };

    ghost json = { sight_data };

    fn write(&self, out: &mut JsonText, table: &Table) -> Result<(), AllocError> {
        out.object(&[
            ("response", Text(table.response_name(self.response))),
            ("state", Text(table.state_name(self.state))),
        ])
    }
}

impl JsonValue for Step {
    ghost IsKnown = { IsKnownStep };

    ghost json = { step_data };

    fn write(&self, out: &mut JsonText, table: &Table) -> Result<(), AllocError> {
        out.object(&[
            ("operation", Text(table.operation_name(self.operation))),
            ("process", Byte(self.process)),
            ("response", Text(table.response_name(self.response))),
            ("state", Text(table.state_name(self.state))),
        ])
    }
}

impl JsonText {
    /// A key and a run from the start state, with what a process sees of it.
    fn run_at(
        &mut self,
        name: &str,
        table: &Table,
        sight: Sight,
        steps: &[Step],
    ) -> Result<(), AllocError>
        requires sight { IsKnownSight table.now sight }
        requires steps { All (IsKnownStep table.now) steps.now }
        ensures { Appends result self.old self.new
            (member_tokens name.now (run_data table.now sight steps.now)) }
    {
        self.key(name)?;
        self.begin_object()?;
        self.key("pair")?;
        sight.write(self, table)?;
        self.array_at("steps", table, steps)?;
        self.end_object()
    }
}

impl JsonValue for Way {
    ghost IsKnown = { IsKnownWay };

    ghost json = { collision_data };

    fn write(&self, out: &mut JsonText, table: &Table) -> Result<(), AllocError> {
        out.begin_object()?;
        out.run_at("a_first", table, self.sight, &self.runs.a_first)?;
        out.run_at("b_first", table, self.sight, &self.runs.b_first)?;
        out.member("process", Byte(self.process))?;
        out.processes_of(table, &self.choice)?;
        out.last_members(&[("start", Text(table.state_name(self.choice.start)))])
    }
}
