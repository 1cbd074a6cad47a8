//! The parts of the texts of flaws.
ghost use Rattle.std.specs.Prelude.{codes, ◌≡◌, ◌<◌, ◌^◌, ◌++◌, IfOk, OnOk, chars, flat_map, length, map, string_bytes};
ghost use Rattle.cn_flaws.specs.FlawText.{escape, shown_char, in_quotes, operation_text, goes_on, place_after, entries_text, states_text, before_places, places_text, names_in_brackets};
ghost use Rattle.cn_table.specs.Texts.{joined_texts};

use crate::flaw::Position;
use cn_table::names::have_names;
use cn_table::{MOST_STATES, is_name};
use std::alloc::{AllocError, Global};

fn push_escape(text: &mut String, c: char) -> Result<(), AllocError>
    ensures { OnOk result (string_bytes text.new ≡ string_bytes text.old ++ escape c) }
{
    let code = c as u32;
    let high = code / 16;
    let low = code % 16;
    write!(text, "\\u00{high:X}{low:X}")?;
    Ok(())
}

fn push_shown_char(text: &mut String, c: char) -> Result<(), AllocError>
    ensures { OnOk result (string_bytes text.new ≡ string_bytes text.old ++ shown_char c) }
{
    match c {
        '"' => text.push_str("\\\""),
        '\\' => text.push_str("\\\\"),
        _ if c.is_control() => push_escape(text, c),
        _ => text.push(c),
    }
}

fn shown_chars(alloc: Global, text: &str) -> Result<String, AllocError>
    ensures { IfOk result (λ s. string_bytes s ≡ flat_map shown_char (chars text.now)) }
{
    let mut shown = String::new(alloc);
    for c in text.chars() {
        push_shown_char(&mut shown, c)?;
    }
    Ok(shown)
}

/// A text between quotation marks, as a basic string of TOML has it. So its control characters,
/// quotation marks and backslashes are escaped, and all else stands as it is.
pub(crate) fn in_quotes(alloc: Global, text: &str) -> Result<String, AllocError>
    ensures { IfOk result (λ s. string_bytes s ≡ in_quotes text.now) }
{
    let shown = shown_chars(alloc, text)?;
    format!(in alloc; "\"{shown}\"")
}

/// The words for an operation: its name, if that is a name, or else its place in the array.
pub(crate) fn operation_text(alloc: Global, i: usize, name: &str) -> Result<String, AllocError>
    ensures { IfOk result (λ s. string_bytes s ≡ operation_text i name.now) }
{
    if is_name(name) {
        return format!(in alloc; "operation \"{name}\"");
    }
    format!(in alloc; "operation[{i}]")
}

fn goes_on(b: u8) -> bool
    ensures { result ≡ goes_on b }
{
    matches!(b, 0x80..=0xBF)
}

/// The line and the column behind these bytes.
pub(crate) fn place_after(before: &[u8]) -> Position
    requires { length before.now < 2 ^ 63 }
    ensures { result ≡ place_after 1 1 before.now }
{
    let mut line = 1;
    let mut column = 1;
    for b in before {
        if *b == b'\n' {
            line += 1;
            column = 1;
        } else if !goes_on(*b) {
            column += 1;
        }
    }
    Position { line, column }
}

/// The words for so many entries.
pub(crate) fn entries_text(alloc: Global, count: usize) -> Result<String, AllocError>
    ensures { IfOk result (λ s. string_bytes s ≡ entries_text count) }
{
    if count == 1 {
        return String::from_str(alloc, "1 entry");
    }
    format!(in alloc; "{count} entries")
}

/// The words for so many states.
pub(crate) fn states_text(alloc: Global, count: usize) -> Result<String, AllocError>
    ensures { IfOk result (λ s. string_bytes s ≡ states_text count) }
{
    if count == 1 {
        return String::from_str(alloc, "there is 1 state");
    }
    format!(in alloc; "there are {count} states")
}

/// What stands before so many further places.
fn before_places(more: usize) -> &'static str
    ensures { result.now ≡ before_places more }
{
    match more {
        0 => "",
        1 => " and ",
        _ => ", ",
    }
}

/// The places in words, with a comma between two, and `and` before the last.
pub(crate) fn places_text(alloc: Global, what: &str, places: &[usize]) -> Result<String, AllocError>
    ensures { IfOk result (λ s. string_bytes s ≡ places_text what.now places.now) }
{
    let mut text = String::new(alloc);
    for (k, place) in places.iter().enumerate() {
        let behind = before_places(places.len() - 1 - k);
        write!(text, "{what}[{place}]{behind}")?;
    }
    Ok(text)
}

fn push_names(text: &mut String, names: &[String]) -> Result<(), AllocError>
    ensures { OnOk result (string_bytes text.new
        ≡ string_bytes text.old
        ++ joined_texts (codes ", ") (map (λ s. string_bytes s) names.now)) }
{
    let [first, rest @ ..] = names else {
        return Ok(());
    };
    text.push_str(first.as_str())?;
    for name in rest {
        text.push_str(", ")?;
        text.push_str(name.as_str())?;
    }
    Ok(())
}

/// The names in brackets if they are few, and else nothing.
pub(crate) fn names_in_brackets(alloc: Global, names: &[String]) -> Result<String, AllocError>
    ensures { IfOk result (λ s. string_bytes s
        ≡ names_in_brackets (map (λ s. string_bytes s) names.now)) }
{
    let mut text = String::new(alloc);
    if names.len() <= MOST_STATES && have_names(names) {
        text.push_str(" (")?;
        push_names(&mut text, names)?;
        text.push_str(")")?;
    }
    Ok(text)
}
