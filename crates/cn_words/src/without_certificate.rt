//! The words of plans without a certificate: of `agree` and `show` `--recoverable`, `--shortest` and
//! `--without-read`.
ghost use Rattle.std.specs.Prelude.{◌≡◌, codes, true};
ghost use Rattle.cn_words.specs.GivenCommands.{Finds, HasPlanTable, HasRun, HasRunTable, IsInvocation};
ghost use Rattle.cn_words.specs.GivenCommands.{asks_for_shortest, excludes_certificate, is_flag_set, is_of_plan, rows_in};

use crate::commands::{
    Invocation, TextSource, answer_form, list, optional_number, table_word, word,
};
use crate::plan_words::is_of_program;
use clap::ArgMatches;
use cn_form::AnswerForm;

/// The words for a run of a plan without a certificate.
#[derive(Clone, Copy)]
pub struct RunWords<'a> {
    /// The numbers that the processes begin with.
    pub inputs: &'a str,
    /// The processes in the order of their steps, and of their crashes if they crash.
    pub schedule: &'a str,
    /// How many processes there are, if a number was given.
    pub processes: Option<u8>,
    /// Whether each step is written, and each crash.
    pub steps: bool,
    /// The form of the answer.
    pub form: AnswerForm,
}

// Whether a flag was given.
pub(crate) fn is_flag_set(words: &ArgMatches<'_>, id: &str) -> bool
    ensures { result ≡ is_flag_set id.now (rows_in words.now) }
{
    match word(words, id) {
        Some(word) => word == "true",
        None => false,
    }
}

// Whether a shortest plan is asked for: of all plans, or of those without reads.
pub(crate) fn asks_for_shortest(words: &ArgMatches<'_>) -> bool
    ensures { result ≡ asks_for_shortest (rows_in words.now) }
{
    is_flag_set(words, "shortest") || is_flag_set(words, "without-read")
}

// Whether a word is there that no command by a certificate of a number has.
pub(crate) fn excludes_certificate(words: &ArgMatches<'_>) -> bool
    ensures { result ≡ excludes_certificate (rows_in words.now) }
{
    is_flag_set(words, "recoverable")
        || asks_for_shortest(words)
        || word(words, "processes").is_some()
}

// Whether a word is there that only the shortest plan has.
pub(crate) fn is_of_plan(words: &ArgMatches<'_>) -> bool
    ensures { result ≡ is_of_plan (rows_in words.now) }
{
    is_flag_set(words, "shortest") || word(words, "processes").is_some()
}

// The words of a run.
pub(crate) fn run_words<'a>(words: &ArgMatches<'a>) -> Option<RunWords<'a>>
    ensures { Finds (HasRun (rows_in words.now)) result }
{
    Some(RunWords {
        inputs: list(words, "INPUTS")?,
        schedule: list(words, "SCHEDULE")?,
        processes: optional_number(words, "processes")?,
        steps: is_flag_set(words, "steps"),
        form: answer_form(words)?,
    })
}

// Where the table of a run is read from: the first word, which is the certificate of other runs. No
// other word may say so.
pub(crate) fn run_table<'a>(words: &ArgMatches<'a>) -> Option<TextSource<'a>>
    ensures { Finds (HasRunTable (rows_in words.now)) result }
{
    if table_word(words).is_some() {
        return None;
    }
    Some(TextSource::of(word(words, "CERT")?))
}

// Where the table of such a plan is read from: the option or the first word, which is the
// certificate of other plans, but not both. Without a word for it, that is standard input.
pub(crate) fn plan_table<'a>(words: &ArgMatches<'a>) -> Option<TextSource<'a>>
    ensures { Finds (HasPlanTable (rows_in words.now)) result }
{
    if word(words, "FILE").is_some() {
        return None;
    }
    match (word(words, "table"), word(words, "CERT")) {
        (Some(_), Some(_)) => None,
        (Some(file), None) | (None, Some(file)) => Some(TextSource::of(file)),
        (None, None) => Some(TextSource::StandardInput),
    }
}

// What `show --recoverable` asks for.
pub(crate) fn recoverable_plan<'a>(words: &ArgMatches<'a>) -> Option<Invocation<'a>>
    requires { is_flag_set (codes "recoverable") (rows_in words.now) ≡ true }
    ensures { Finds (IsInvocation (codes "show") (rows_in words.now)) result }
{
    if asks_for_shortest(words) {
        return None;
    }
    if is_of_program(words) {
        return None;
    }
    let table = plan_table(words)?;
    let processes = optional_number(words, "processes")?;
    let form = answer_form(words)?;
    Some(Invocation::RecoverablePlan {
        table,
        processes,
        form,
    })
}
