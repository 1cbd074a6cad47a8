//! Whole lines.
ghost use Rattle.std.specs.Prelude.{◌≡◌, ◌++◌, string_bytes, OnOk};
ghost use Rattle.cn_sentences.specs.Lines.{alone_line, limit_line, reader_line};

use cn_reasons::Reader;
use std::alloc::AllocError;

/// Why a number is at least 1.
pub fn alone_line<'a>() -> &'a str
    ensures { result.now ≡ alone_line }
{
    "One process alone agrees with itself, so the number is at least 1.\n"
}

/// Writes that more processes than this limit were not looked for.
///
/// # Errors
///
/// `AllocError` if memory runs out.
#[tactic(auto, unfolding(crate::specs::Lines::limit_line))]
pub fn push_limit_line(text: &mut String, limit: u8) -> Result<(), AllocError>
    ensures { OnOk result (string_bytes text.new ≡ string_bytes text.old ++ limit_line limit) }
{
    write!(text, "More than {limit} processes were not looked for.\n")
}

/// Writes what the process does that is alone in its team.
///
/// # Errors
///
/// `AllocError` if memory runs out. The text may then have a part of the line.
#[tactic(auto, unfolding(crate::specs::Lines::reader_line))]
pub fn push_reader(text: &mut String, reader: &Reader) -> Result<(), AllocError>
    ensures { OnOk result (string_bytes text.new
        ≡ string_bytes text.old ++ reader_line reader.now) }
{
    let (process, team, other) = (reader.process, reader.team.name(), reader.other.name());
    write!(
        text,
        "p{process}, alone in team {team}, reads the register of team {other} before it moves.\n"
    )
}
