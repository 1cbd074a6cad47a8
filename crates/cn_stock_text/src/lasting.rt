//! Two operations that last in words.
ghost use Rattle.std.specs.Prelude.{◌≡◌, ◌<◌, ◌++◌, All, OnOk, flat_map, length, string_bytes};
ghost use Rattle.cn_stock_cert.specs.LastingSets.{AreLastingSets};
ghost use Rattle.cn_stock_text.specs.Lasting.{lasting_line, lasting_text, states_line};

use crate::names::push_states;
use cn_pieces::push_pieces;
use cn_stock_cert::LastingSets;
use cn_table::{Operation, State, Table};
use std::alloc::AllocError;

/// Appends what one process does, and what the others do.
fn push_lasting_line(
    text: &mut String,
    table: &Table,
    start: State,
    single: Operation,
    many: Operation,
) -> Result<(), AllocError>
    requires start { start.0 < length table.now.states }
    requires single { single.0 < length table.now.operations }
    requires many { many.0 < length table.now.operations }
    ensures { OnOk result (string_bytes text.new
        ≡ string_bytes text.old ++ lasting_line table.now start.0 single.0 many.0) }
{
    let start = table.state_name(start);
    let (single, many) = (table.operation_name(single), table.operation_name(many));
    push_pieces(
        text,
        &[
            "Why infinite: from state ",
            start,
            ", one process does ",
            single,
            ", and any number of others do ",
            many,
            ".\n",
        ],
    )
}

/// Appends the states in a case.
fn push_states_line(
    text: &mut String,
    table: &Table,
    case: &[&str],
    states: &[u8],
) -> Result<(), AllocError>
    requires { All (λ q. q < length table.now.states) states.now }
    ensures { OnOk result (string_bytes text.new ≡ string_bytes text.old
        ++ states_line table.now (flat_map (λ word. word.now) case.now) states.now) }
{
    push_pieces(text, case)?;
    text.push_str(": the state is one of")?;
    push_states(text, table, states)?;
    text.push_str("\n")
}

/// Appends the operations, and the states of each case: the single operation first, not done yet,
/// and done behind another one.
pub(crate) fn push_lasting(
    text: &mut String,
    table: &Table,
    sets: &LastingSets,
) -> Result<(), AllocError>
    requires { AreLastingSets table.now sets.now }
    ensures { OnOk result (string_bytes text.new
        ≡ string_bytes text.old ++ lasting_text table.now sets.now) }
{
    let (single, many) = (
        table.operation_name(sets.single),
        table.operation_name(sets.many),
    );
    push_lasting_line(text, table, sets.start, sets.single, sets.many)?;
    push_states_line(
        text,
        table,
        &["  ", single, " first"],
        sets.first.as_slice(),
    )?;
    push_states_line(
        text,
        table,
        &["  ", single, " not yet"],
        sets.alone.as_slice(),
    )?;
    push_states_line(
        text,
        table,
        &["  ", single, " behind ", many],
        sets.behind.as_slice(),
    )?;
    text.push_str(
        "  No state of the first list is in another one, so each process can tell which came first, however many there are.\n",
    )
}
