//! Operations that last in Markdown, with the states that each leaves.
ghost use Rattle.std.specs.Prelude.{◌≡◌, ◌<◌, ◌++◌, All, OnOk, length, string_bytes};
ghost use Rattle.cn_reasons.specs.Known.{IsKnownLasting, IsKnownState};
ghost use Rattle.cn_markdown.specs.Lasting.{first_row, lasting_start, lasting_table, single_start};

use crate::rows::push_name_rule;
use cn_pieces::push_pieces;
use cn_reasons::LastingWitness;
use cn_sentences::push_states;
use cn_table::{Operation, State, Table};
use std::alloc::AllocError;

/// The operation of a single process from a state, and that of all others, with words for their
/// teams.
#[tactic(auto, unfolding(crate::specs::Lasting::single_start))]
pub(crate) fn push_single_start(
    text: &mut String,
    start: &str,
    single: &str,
    team: &str,
    many: &str,
    others: &str,
) -> Result<(), AllocError>
    ensures { OnOk result (string_bytes text.new ≡ string_bytes text.old
        ++ single_start start.now single.now team.now many.now others.now) }
{
    push_pieces(
        text,
        &[
            "Any number of processes: from state ",
            start,
            ", one",
            team,
            " does ",
            single,
            ", and all others",
            others,
            " do ",
            many,
            ".",
        ],
    )
}

/// The operations, and the head of the table.
#[tactic(auto, unfolding(crate::specs::Lasting::lasting_start))]
fn push_lasting_start(
    text: &mut String,
    table: &Table,
    witness: &LastingWitness,
) -> Result<(), AllocError>
    requires { IsKnownLasting table.now witness.now }
    ensures { OnOk result (string_bytes text.new
        ≡ string_bytes text.old ++ lasting_start table.now witness.now) }
{
    let lasting = witness.lasting;
    let start = table.state_name(lasting.start);
    let (single, many) = (
        table.operation_name(lasting.single),
        table.operation_name(lasting.many),
    );
    push_single_start(text, start, single, "", many, "")?;
    push_pieces(
        text,
        &[
            " No state is in both rows, so each can tell which came first.\n\n",
            "| First | The state is one of |\n",
        ],
    )
}

/// The row of the operation that came first, with words for it, and the states that are left then.
#[tactic(auto, unfolding(crate::specs::Lasting::first_row))]
fn push_first_row(
    text: &mut String,
    table: &Table,
    operation: Operation,
    words: &str,
    states: &[State],
) -> Result<(), AllocError>
    requires operation { operation.0 < length table.now.operations }
    requires states { All (IsKnownState table.now) states.now }
    ensures { OnOk result (string_bytes text.new
        ≡ string_bytes text.old ++ first_row table.now operation.0 words.now states.now) }
{
    push_pieces(text, &["| ", table.operation_name(operation), words, " |"])?;
    push_states(text, table, states)?;
    text.push_str(" |\n")
}

/// Why the number is infinite: two operations that last, and the states that each leaves.
#[tactic(auto, unfolding(crate::specs::Lasting::lasting_table))]
pub(crate) fn push_lasting_table(
    text: &mut String,
    table: &Table,
    witness: &LastingWitness,
) -> Result<(), AllocError>
    requires { IsKnownLasting table.now witness.now }
    ensures { OnOk result (string_bytes text.new
        ≡ string_bytes text.old ++ lasting_table table.now witness.now) }
{
    let (single, many) = (witness.lasting.single, witness.lasting.many);
    let (single_states, many_states) = (
        witness.single_states.as_slice(),
        witness.many_states.as_slice(),
    );
    push_lasting_start(text, table, witness)?;
    push_name_rule(text, 2)?;
    push_first_row(text, table, single, "", single_states)?;
    push_first_row(text, table, many, ", or no step yet", many_states)
}
