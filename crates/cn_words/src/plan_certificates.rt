//! The words of certificates of plans: `find --shortest` and `check --shortest`.
ghost use Rattle.std.specs.Prelude.{◌≡◌, codes, false, true};
ghost use Rattle.cn_words.specs.GivenCommands.{Finds, IsNamed, is_flag_set, rows_in};

use crate::commands::{Command, answer_form, certificate, is_unread, optional_number, word};
use clap::ArgMatches;

// The shortest plan has no limit, and is no number without reads.
pub(crate) fn find_shortest<'a>(words: &ArgMatches<'a>) -> Option<Command<'a>>
    requires shortest { is_flag_set (codes "shortest") (rows_in words.now) ≡ true }
    requires choices { is_flag_set (codes "stocks") (rows_in words.now) ≡ false }
    ensures { Finds (IsNamed (codes "find") (rows_in words.now)) result }
{
    if is_unread(words) || word(words, "limit").is_some() {
        return None;
    }
    let processes = optional_number(words, "processes")?;
    Some(Command::FindShortest { processes })
}

// The certificate of a plan is none of the number without reads.
pub(crate) fn check_shortest<'a>(words: &ArgMatches<'a>) -> Option<Command<'a>>
    requires shortest { is_flag_set (codes "shortest") (rows_in words.now) ≡ true }
    requires choices { is_flag_set (codes "stocks") (rows_in words.now) ≡ false }
    ensures { Finds (IsNamed (codes "check") (rows_in words.now)) result }
{
    if is_unread(words) {
        return None;
    }
    let certificate = certificate(words)?;
    let form = answer_form(words)?;
    Some(Command::CheckShortest { certificate, form })
}
