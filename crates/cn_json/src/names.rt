//! Names of a table as JSON.
ghost use Rattle.std.specs.Prelude.{◌<◌, length};
ghost use Rattle.cn_reasons.specs.Known.{IsKnownState};
ghost use Rattle.cn_json.specs.Names.{operation_data, state_data};

use crate::json_text::JsonText;
use crate::value::JsonValue;
use cn_table::{Operation, State, Table};
use std::alloc::AllocError;

impl JsonValue for State {
    ghost IsKnown = { IsKnownState };

    ghost json = { state_data };

    fn write(&self, out: &mut JsonText, table: &Table) -> Result<(), AllocError> {
        out.text(table.state_name(*self))
    }
}

impl JsonValue for Operation {
    ghost IsKnown = { λ t o. o.0 < length t.operations };

    ghost json = { operation_data };

    fn write(&self, out: &mut JsonText, table: &Table) -> Result<(), AllocError> {
        out.text(table.operation_name(*self))
    }
}
