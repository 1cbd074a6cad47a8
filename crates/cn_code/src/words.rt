//! Words of a language, with what a plan has between them.
ghost use Rattle.std.specs.Prelude.{◌≡◌, ◌++◌, OnOk, decimal, string_bytes};
ghost use Rattle.cn_code.specs.Code.{team_code};
ghost use Rattle.cn_code.specs.Frame.{comma, number_code, own_word, program_word, text_code, word};

use crate::language::{Form, Language, OwnPart, Part, ProgramPart, TournamentPart};
use cn_choice::Team;
use std::alloc::AllocError;

pub(crate) fn push_word(text: &mut String, language: Language, part: Part) -> Result<(), AllocError>
    ensures { OnOk result (string_bytes text.new ≡ string_bytes text.old ++ word language part) }
{
    text.push_str(language.word(part))
}

/// The text that a form has for itself.
pub(crate) fn push_own(
    text: &mut String,
    language: Language,
    form: Form,
    part: OwnPart,
) -> Result<(), AllocError>
    ensures { OnOk result (string_bytes text.new
        ≡ string_bytes text.old ++ own_word language form part) }
{
    push_word(text, language, Part::Own(form, part))
}

/// A text of the objects, the registers and the algorithm.
pub(crate) fn push_program_word(
    text: &mut String,
    language: Language,
    part: ProgramPart,
) -> Result<(), AllocError>
    ensures { OnOk result (string_bytes text.new
        ≡ string_bytes text.old ++ program_word language part) }
{
    push_word(text, language, Part::Program(part))
}

/// A part, and a number behind it.
pub(crate) fn push_number(
    text: &mut String,
    language: Language,
    part: Part,
    number: u8,
) -> Result<(), AllocError>
    ensures { OnOk result (string_bytes text.new
        ≡ string_bytes text.old ++ number_code language part number) }
{
    push_word(text, language, part)?;
    write!(text, "{number}")
}

/// A part, and a count behind it.
pub(crate) fn push_count(
    text: &mut String,
    language: Language,
    part: Part,
    count: usize,
) -> Result<(), AllocError>
    ensures { OnOk result (string_bytes text.new
        ≡ string_bytes text.old ++ number_code language part count) }
{
    push_word(text, language, part)?;
    write!(text, "{count}")
}

/// A part, and a text behind it.
pub(crate) fn push_text(
    text: &mut String,
    language: Language,
    part: Part,
    behind: &str,
) -> Result<(), AllocError>
    ensures { OnOk result (string_bytes text.new
        ≡ string_bytes text.old ++ text_code language part behind.now) }
{
    push_word(text, language, part)?;
    text.push_str(behind)
}

/// A team, as a value of the language.
pub(crate) fn push_team(text: &mut String, language: Language, team: Team) -> Result<(), AllocError>
    ensures { OnOk result (string_bytes text.new
        ≡ string_bytes text.old ++ team_code language team) }
{
    push_text(
        text,
        language,
        Part::InTournament(TournamentPart::Team),
        team.name(),
    )
}

/// A comma before each item but the first.
pub(crate) fn push_comma(text: &mut String, item: u8) -> Result<(), AllocError>
    ensures { OnOk result (string_bytes text.new ≡ string_bytes text.old ++ comma item) }
{
    match item {
        0 => Ok(()),
        _ => text.push_str(", "),
    }
}
