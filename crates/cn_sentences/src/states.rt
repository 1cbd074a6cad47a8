//! Names of states.
ghost use Rattle.std.specs.Prelude.{◌≡◌, ◌++◌, string_bytes, All, OnOk};
ghost use Rattle.cn_reasons.specs.Known.{IsKnownState};
ghost use Rattle.cn_sentences.specs.States.{states_told};

use cn_pieces::push_pieces;
use cn_table::{State, Table};
use std::alloc::AllocError;

/// Writes the names of the states, each behind a space.
///
/// # Errors
///
/// `AllocError` if memory runs out. The text may then have some of the names.
pub fn push_states(text: &mut String, table: &Table, states: &[State]) -> Result<(), AllocError>
    requires { All (IsKnownState table.now) states.now }
    // promise: parts-of-explanations (states_told)
    ensures { OnOk result (string_bytes text.new
        ≡ string_bytes text.old ++ states_told table.now states.now) }
{
    for state in states {
        push_pieces(text, &[" ", table.state_name(*state)])?;
    }
    Ok(())
}
