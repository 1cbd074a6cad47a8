//! The flaws of a text, and the notes of a table, as JSON.
ghost use Rattle.std.specs.Prelude.{codes, ◌≡◌, ◌<◌, IfOk, None, Some, length, map, string_bytes};
ghost use Rattle.serde_json.specs.Written.{compact_text};
ghost use Rattle.cn_flaws.specs.FlawPath.{part_view};
ghost use Rattle.cn_flaws.specs.Flaws.{flaw_view};
ghost use Rattle.cn_flaws.specs.Notes.{AreNotes, notes_view};
ghost use Rattle.cn_json.specs.Flaws.{flaw_data, flaw_members, flaws_data, idle_data, notes_data, part_data, placed_data};
ghost use Rattle.cn_json.specs.Tokens.{Appends, list_rest, member_tokens, members_rest, value_tokens};
ghost use Rattle.cn_json.specs.Values.{list_data};

use crate::json_text::JsonText;
use crate::json_text::Primitive::{Boolean, Byte, Number, Text};
use crate::value::JsonValue;
use cn_flaws::{Flaw, IdleOperation, PathPart, Position, TableNotes};
use cn_table::Table;
use std::alloc::{AllocError, Global};

fn write_part(out: &mut JsonText, part: &PathPart) -> Result<(), AllocError>
    ensures { Appends result out.old out.new (value_tokens (part_data (part_view part.now))) }
{
    match part {
        PathPart::Key(key) => out.text(key.as_str()),
        PathPart::Index(i) => out.number(*i as u64),
    }
}

/// Writes the parts of a path, and the end of their array.
fn write_each_part(out: &mut JsonText, path: &[PathPart]) -> Result<(), AllocError>
    ensures { Appends result out.old out.new (list_rest part_data (map part_view path.now)) }
{
    for part in path {
        write_part(out, part)?;
    }
    out.end_array()
}

fn write_path(out: &mut JsonText, path: &[PathPart]) -> Result<(), AllocError>
    ensures { Appends result out.old out.new
        (member_tokens (codes "path") (list_data part_data (map part_view path.now))) }
{
    out.begin_array_at("path")?;
    write_each_part(out, path)
}

/// Writes the number of the fault of a flaw, its path and its text, and the end of the object.
fn write_flaw_members(out: &mut JsonText, flaw: &Flaw) -> Result<(), AllocError>
    ensures { Appends result out.old out.new (members_rest (flaw_members (flaw_view flaw.now))) }
{
    out.member("number", Byte(flaw.fault.number()))?;
    write_path(out, &flaw.path)?;
    out.last_members(&[("text", Text(flaw.text.as_str()))])
}

/// Writes a flaw that has no line and no column.
fn write_flaw_of_document(out: &mut JsonText, flaw: &Flaw) -> Result<(), AllocError>
    ensures { Appends result out.old out.new
        (value_tokens (placed_data None (flaw_view flaw.now))) }
{
    out.begin_object()?;
    out.member("kind", Text(flaw.fault.name()))?;
    write_flaw_members(out, flaw)
}

/// Writes a flaw that has a line and a column.
fn write_flaw_of_text(out: &mut JsonText, flaw: &Flaw, position: Position) -> Result<(), AllocError>
    ensures { Appends result out.old out.new
        (value_tokens (placed_data (Some position) (flaw_view flaw.now))) }
{
    out.begin_object()?;
    out.members(&[
        ("column", Number(position.column as u64)),
        ("kind", Text(flaw.fault.name())),
        ("line", Number(position.line as u64)),
    ])?;
    write_flaw_members(out, flaw)
}

fn write_flaw(out: &mut JsonText, flaw: &Flaw) -> Result<(), AllocError>
    ensures { Appends result out.old out.new (value_tokens (flaw_data (flaw_view flaw.now))) }
{
    match flaw.position {
        Some(position) => write_flaw_of_text(out, flaw, position),
        None => write_flaw_of_document(out, flaw),
    }
}

/// Writes the flaws, and the end of their array.
fn write_each_flaw(out: &mut JsonText, flaws: &[Flaw]) -> Result<(), AllocError>
    ensures { Appends result out.old out.new (list_rest flaw_data (map flaw_view flaws.now)) }
{
    for flaw in flaws {
        write_flaw(out, flaw)?;
    }
    out.end_array()
}

fn write_flaws(out: &mut JsonText, flaws: &[Flaw]) -> Result<(), AllocError>
    ensures { Appends result out.old out.new
        (value_tokens (flaws_data (map flaw_view flaws.now))) }
{
    out.begin_object()?;
    out.begin_array_at("flaws")?;
    write_each_flaw(out, flaws)?;
    out.end_object()
}

/// The flaws of the text of a table, as one compact JSON object: `{"flaws":[..]}`. Each flaw, in
/// order, is an object with `kind`, the name of its fault; `number`, that of the fault; `path`, its
/// place in the document, as an array of keys and of indexes from 0; and `text`, what is wrong, and
/// where. The flaw of a text that is no TOML also has `line` and `column`, both from 1.
///
/// # Errors
///
/// `AllocError` if memory runs out.
pub fn flaws_json(alloc: Global, flaws: &[Flaw]) -> Result<String, AllocError>
    // promise: answers-as-json (flaws_data: flaw_data, placed_data, flaw_members)
    // promise: grid-by-lint
    ensures { IfOk result (λ text. string_bytes text
        ≡ compact_text (flaws_data (map flaw_view flaws.now))) }
{
    let mut out = JsonText::new(alloc);
    write_flaws(&mut out, flaws)?;
    Ok(out.finish())
}

impl JsonValue for IdleOperation {
    ghost IsKnown = { λ t i. i.operation.0 < length t.operations };

    ghost json = { idle_data };

    fn write(&self, out: &mut JsonText, table: &Table) -> Result<(), AllocError> {
        out.object(&[
            ("answers", Boolean(self.answers)),
            ("operation", Text(table.operation_name(self.operation))),
        ])
    }
}

fn write_notes(out: &mut JsonText, table: &Table, notes: &TableNotes) -> Result<(), AllocError>
    requires { AreNotes table.now (notes_view notes.now) }
    ensures { Appends result out.old out.new
        (value_tokens (notes_data table.now (notes_view notes.now))) }
{
    out.begin_object()?;
    out.begin_array_at("flaws")?;
    out.end_array()?;
    out.array_at("idle", table, &notes.idle)?;
    out.array_at("unreached", table, &notes.unreached)?;
    out.end_object()
}

/// A table without flaws, with its notes, as one compact JSON object:
/// `{"flaws":[],"idle":[..],"unreached":[..]}`. Each operation that changes nothing, in order, is
/// an object in `idle` with its name at `operation`, and with `answers`, whether its responses
/// differ in some two states; `unreached` has the names of the states to which no operations lead
/// from the first one, in order.
///
/// # Errors
///
/// `AllocError` if memory runs out.
pub fn notes_json(alloc: Global, table: &Table, notes: &TableNotes) -> Result<String, AllocError>
    requires { AreNotes table.now (notes_view notes.now) }
    // promise: answers-as-json (notes_data: idle_data)
    // promise: grid-by-lint
    ensures { IfOk result (λ text. string_bytes text
        ≡ compact_text (notes_data table.now (notes_view notes.now))) }
{
    let mut out = JsonText::new(alloc);
    write_notes(&mut out, table, notes)?;
    Ok(out.finish())
}
