//! What a program has for the object that it serves.
ghost use Rattle.std.specs.Prelude.{◌≡◌, ◌++◌, OnOk, option_copied, string_bytes};
ghost use Rattle.cn_code.specs.Frame.{if_served, object_tables, served_name, served_tables, word};
ghost use Rattle.cn_code.specs.declared.language.Part.TheVariants.{InObject};

use crate::language::{Language, ObjectPart, Part};
use crate::names::{Whose, push_table};
use crate::served::Served;
use crate::words::{push_number, push_text, push_word};
use std::alloc::AllocError;

/// A text that a program has only if it serves an object.
pub(crate) fn push_if_served(
    text: &mut String,
    language: Language,
    object: Option<&Served>,
    part: ObjectPart,
) -> Result<(), AllocError>
    ensures { OnOk result (string_bytes text.new ≡ string_bytes text.old
        ++ if_served (option_copied object.entry) (word language (InObject part))) }
{
    match object {
        None => Ok(()),
        Some(_) => push_word(text, language, Part::InObject(part)),
    }
}

/// In the first line, the name of the object.
pub(crate) fn push_served_name(
    text: &mut String,
    language: Language,
    object: Option<&Served>,
) -> Result<(), AllocError>
    ensures { OnOk result (string_bytes text.new ≡ string_bytes text.old
        ++ served_name language (option_copied object.entry)) }
{
    match object {
        None => Ok(()),
        Some(served) => push_text(
            text,
            language,
            Part::InObject(ObjectPart::Title),
            served.table().name(),
        ),
    }
}

/// The end of the tables: those of the object, if one is served.
pub(crate) fn push_object_tables(
    text: &mut String,
    language: Language,
    object: Option<&Served>,
) -> Result<(), AllocError>
    ensures { OnOk result (string_bytes text.new ≡ string_bytes text.old
        ++ object_tables language (option_copied object.entry)) }
{
    match object {
        None => push_word(text, language, Part::TablesEnd),
        Some(served) => push_served_tables(text, language, served),
    }
}

/// The names and the transitions of an object, and the state in which it starts.
fn push_served_tables(
    text: &mut String,
    language: Language,
    served: &Served,
) -> Result<(), AllocError>
    ensures { OnOk result (string_bytes text.new
        ≡ string_bytes text.old ++ served_tables language served.now) }
{
    push_table(text, language, Whose::OfObject, served.table())?;
    let start = served.start();
    push_text(
        text,
        language,
        Part::InObject(ObjectPart::Start),
        served.table().state_name(start),
    )?;
    push_number(
        text,
        language,
        Part::InObject(ObjectPart::StartNumber),
        start.0,
    )?;
    push_word(text, language, Part::InObject(ObjectPart::StartEnd))
}
