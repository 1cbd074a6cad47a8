//! Operations that last as JSON, with the states that each leaves.
ghost use Rattle.cn_reasons.specs.Known.{IsKnownLasting};
ghost use Rattle.cn_json.specs.Lasting.{lasting_data};

use crate::json_text::JsonText;
use crate::json_text::Primitive::Text;
use crate::value::JsonValue;
use cn_reasons::LastingWitness;
use cn_table::Table;
use std::alloc::AllocError;

impl JsonValue for LastingWitness {
    ghost IsKnown = { IsKnownLasting };

    ghost json = { lasting_data };

    fn write(&self, out: &mut JsonText, table: &Table) -> Result<(), AllocError> {
        let lasting = self.lasting;
        out.begin_object()?;
        out.member("many", Text(table.operation_name(lasting.many)))?;
        out.array_at("many_states", table, &self.many_states)?;
        out.member("single", Text(table.operation_name(lasting.single)))?;
        out.array_at("single_states", table, &self.single_states)?;
        out.last_members(&[("start", Text(table.state_name(lasting.start)))])
    }
}
