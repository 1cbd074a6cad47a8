//! The words of certificates by stocks: `--stocks` of `find`, `check`, `explain` and `why`.
ghost use Rattle.std.specs.Prelude.{◌≡◌, codes, true};
ghost use Rattle.cn_words.specs.GivenCommands.{Finds, IsNamed, is_flag_set, rows_in};

use crate::commands::{
    Command, answer_form, certificate, document_form, is_shortest, is_unread, optional_limit,
};
use crate::without_certificate::{is_flag_set, is_of_plan};
use clap::ArgMatches;
use cn_form::{AnswerForm, DocumentForm};

// A certificate by stocks is none of a plan, and none of the number without reads.
pub(crate) fn find_stocks<'a>(words: &ArgMatches<'a>) -> Option<Command<'a>>
    requires { is_flag_set (codes "stocks") (rows_in words.now) ≡ true }
    ensures { Finds (IsNamed (codes "find") (rows_in words.now)) result }
{
    if is_unread(words) || is_of_plan(words) {
        return None;
    }
    let limit = optional_limit(words)?;
    Some(Command::FindStocks { limit })
}

// The same of the one that is checked.
pub(crate) fn check_stocks<'a>(words: &ArgMatches<'a>) -> Option<Command<'a>>
    requires { is_flag_set (codes "stocks") (rows_in words.now) ≡ true }
    ensures { Finds (IsNamed (codes "check") (rows_in words.now)) result }
{
    if is_unread(words) || is_shortest(words) {
        return None;
    }
    let certificate = certificate(words)?;
    let form = answer_form(words)?;
    Some(Command::CheckStocks { certificate, form })
}

// The explanation of one has a text alone.
pub(crate) fn explain_stocks<'a>(words: &ArgMatches<'a>) -> Option<Command<'a>>
    requires { is_flag_set (codes "stocks") (rows_in words.now) ≡ true }
    ensures { Finds (IsNamed (codes "explain") (rows_in words.now)) result }
{
    let certificate = certificate(words)?;
    let all = words.get_flag("all");
    match answer_form(words)? {
        AnswerForm::Text => Some(Command::ExplainStocks { certificate, all }),
        AnswerForm::Json => None,
    }
}

// The same of one that is found: it is of the number with reads, of processes that do not crash.
pub(crate) fn why_stocks<'a>(words: &ArgMatches<'a>) -> Option<Command<'a>>
    requires { is_flag_set (codes "stocks") (rows_in words.now) ≡ true }
    ensures { Finds (IsNamed (codes "why") (rows_in words.now)) result }
{
    if is_unread(words) || is_flag_set(words, "recoverable") {
        return None;
    }
    let limit = optional_limit(words)?;
    let all = words.get_flag("all");
    match document_form(words)? {
        DocumentForm::Text => Some(Command::WhyStocks { limit, all }),
        DocumentForm::Json | DocumentForm::Markdown => None,
    }
}
