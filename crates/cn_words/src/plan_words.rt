//! The words that say how `show` writes a plan.
ghost use Rattle.std.specs.Prelude.{◌≡◌};
ghost use Rattle.cn_words.specs.GivenCommands.{Finds, HasForm, HasObject, HasPlanWords, HasStyle, is_of_program, names_program, rows_in};

use crate::commands::word;
use clap::ArgMatches;
use cn_form::PlanForm;

/// The words for the form of a plan, and for the names of a program in C.
#[derive(Clone, Copy)]
pub enum StyleWords<'a> {
    /// A form. The names of a program in C begin with `consensus`.
    Plain(PlanForm),
    /// A program in C whose names begin with this prefix.
    ExternalC(&'a str),
    /// The header of that program.
    Header(&'a str),
}

/// The words for an object that a program serves.
#[derive(Clone, Copy)]
pub struct ObjectWords<'a> {
    /// The name of the file that holds the table of the object.
    pub object: &'a str,
    /// The state in which the object starts.
    pub start: &'a str,
}

/// The words that say how a plan is written.
#[derive(Clone, Copy)]
pub struct PlanWords<'a> {
    /// The form, and the names.
    pub style: StyleWords<'a>,
    /// The object that a program serves, if there is one.
    pub object: Option<ObjectWords<'a>>,
}

fn form(words: &ArgMatches<'_>) -> Option<PlanForm>
    ensures { Finds (HasForm (rows_in words.now)) result }
{
    match word(words, "as")? {
        "text" => Some(PlanForm::Text),
        "json" => Some(PlanForm::Json),
        "dot" => Some(PlanForm::Dot),
        "promela" => Some(PlanForm::Promela),
        "rust" => Some(PlanForm::Rust),
        "c" => Some(PlanForm::C),
        _ => None,
    }
}

// A header has a prefix, and nothing else has one but a program in C.
fn style<'a>(words: &ArgMatches<'a>) -> Option<StyleWords<'a>>
    ensures { Finds (HasStyle (rows_in words.now)) result }
{
    let Some(prefix) = word(words, "prefix") else {
        return Some(StyleWords::Plain(form(words)?));
    };
    match word(words, "as")? {
        "c" => Some(StyleWords::ExternalC(prefix)),
        "h" => Some(StyleWords::Header(prefix)),
        _ => None,
    }
}

// Whether the form is a program.
fn names_program(words: &ArgMatches<'_>) -> bool
    ensures { result ≡ names_program (rows_in words.now) }
{
    match word(words, "as") {
        Some(form) => form == "rust" || form == "c" || form == "h",
        None => false,
    }
}

// An object has a start state, and only a program serves one.
fn object<'a>(words: &ArgMatches<'a>) -> Option<Option<ObjectWords<'a>>>
    ensures { Finds (HasObject (rows_in words.now)) result }
{
    match (word(words, "object"), word(words, "start")) {
        (Some(object), Some(start)) if names_program(words) => {
            Some(Some(ObjectWords { object, start }))
        }
        (None, None) => Some(None),
        _ => None,
    }
}

// How the plan is written.
pub(crate) fn plan_words<'a>(words: &ArgMatches<'a>) -> Option<PlanWords<'a>>
    ensures { Finds (HasPlanWords (rows_in words.now)) result }
{
    Some(PlanWords {
        style: style(words)?,
        object: object(words)?,
    })
}

// Whether a word is there that only a program has.
pub(crate) fn is_of_program(words: &ArgMatches<'_>) -> bool
    ensures { result ≡ is_of_program (rows_in words.now) }
{
    word(words, "object").is_some()
        || word(words, "start").is_some()
        || word(words, "prefix").is_some()
}
