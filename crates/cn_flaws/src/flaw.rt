//! One error in the bytes of a table.
ghost use Rattle.std.specs.Prelude.{◌≡◌, ◌++◌, OnOk, string_bytes};
ghost use Rattle.cn_flaws.specs.FlawPath.{path_view};
ghost use Rattle.cn_flaws.specs.Flaws.{flaw, flaws_view};

use crate::path::PathPart;
use cn_table::TableFault;
use std::alloc::AllocError;

/// A line of a text and a column in it, both from 1. A column counts characters.
#[derive(Clone, Copy)]
pub struct Position {
    /// The line.
    pub line: usize,
    /// The column.
    pub column: usize,
}

/// One error in the bytes of a table, and its place.
#[derive(Drop)]
pub struct Flaw {
    /// The fault of the flaw.
    pub fault: TableFault,
    /// The path from the root of the document to the value or to the key that is wrong; empty if
    /// the root is, or if the text is no TOML.
    pub path: Vec<PathPart>,
    /// Where the text stops to be TOML, if it is none.
    pub position: Option<Position>,
    /// What is wrong, and where: a text of one line, without a control character.
    pub text: String,
}

/// Appends a flaw of a document.
pub(crate) fn push_flaw(
    flaws: &mut Vec<Flaw>,
    fault: TableFault,
    path: Vec<PathPart>,
    text: String,
) -> Result<(), AllocError>
    ensures { OnOk result (flaws_view flaws.new
        ≡ flaws_view flaws.old ++ flaw fault (path_view path) (string_bytes text)) }
{
    let position = None;
    flaws.push(Flaw {
        fault,
        path,
        position,
        text,
    })?;
    Ok(())
}
