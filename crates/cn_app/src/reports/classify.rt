//! The report of `classify`.
ghost use Rattle.std.specs.Prelude.{◌≡◌, IfErr, IfOk, None, Some, option_map, string_bytes};
ghost use Rattle.cn_markdown.specs.Numbers.{numbers_row};
ghost use Rattle.cn_search.specs.declared.fault.FindFault.TheVariants.{OutOfMemory};
ghost use Rattle.cn_unread_number.specs.BoundsText.{bounds_text};
ghost use Rattle.cn_app.specs.Commands.Classify.{AreAskedBounds, AreBothNumbers, GivesLimit};
ghost use Rattle.cn_app.specs.Commands.Classify.{IsClassificationOf, IsHeadReport};
ghost use Rattle.cn_app.specs.Commands.Classify.{IsNumbersReport, IsTypeNumber};
ghost use Rattle.cn_app.specs.Commands.Classify.{classification_in, classification_line};
ghost use Rattle.cn_app.specs.Commands.Classify.{given_limit_fault, line_of, number_words};
ghost use Rattle.cn_app.specs.Commands.Classify.{words_of};

use cn_form::DocumentForm;
use cn_io::{AppFault, Report, with_line_feed};
use cn_json::{Classification, classification_json};
use cn_markdown::{number_head, number_row};
use cn_reasons::TypeNumber;
use cn_recover::{both_numbers, recoverable_number};
use cn_search::{FindFault, consensus_number, number};
use cn_table::Table;
use cn_unread_number::{NumberBounds, unread_number};
use std::alloc::{AllocError, Global};
use std::thread::Threads;

/// Which numbers are written of each type, and in which form.
#[derive(Clone, Copy)]
pub struct AskedNumbers {
    /// Up to which limit they are looked for, if one was given.
    pub limit: Option<u8>,
    /// Whether the recoverable number stands behind the number.
    pub recoverable: bool,
    /// Whether the number without reads stands behind these.
    pub without_read: bool,
    /// The form of the answer.
    pub form: DocumentForm,
}

/// The number of the table.
fn number_of<T: Threads + Sync>(
    rt: &T,
    alloc: Global,
    table: &Table,
    limit: Option<u8>,
) -> Result<TypeNumber, FindFault>
    requires { given_limit_fault limit ≡ None }
    ensures number { IfOk result (IsTypeNumber table.now limit) }
    ensures refused { IfErr result (λ e. e ≡ OutOfMemory) }
{
    match limit {
        None => Ok(TypeNumber::Exact(consensus_number(rt, alloc, table)?)),
        Some(limit) => Ok(TypeNumber::UpTo(limit, number(rt, alloc, table, limit)?)),
    }
}

/// The number and the recoverable number of a table.
#[derive(Clone, Copy)]
struct BothNumbers {
    number: TypeNumber,
    recoverable: TypeNumber,
}

/// Both numbers of the table up to the limit.
fn both_up_to<T: Threads + Sync>(
    rt: &T,
    alloc: Global,
    table: &Table,
    limit: u8,
) -> Result<BothNumbers, FindFault>
    requires { given_limit_fault (Some limit) ≡ None }
    ensures numbers { IfOk result (AreBothNumbers table.now (Some limit)) }
    ensures refused { IfErr result (λ e. e ≡ OutOfMemory) }
{
    let number = number(rt, alloc, table, limit)?;
    let recoverable = recoverable_number(rt, alloc, table, limit)?;
    Ok(BothNumbers {
        number: TypeNumber::UpTo(limit, number),
        recoverable: TypeNumber::UpTo(limit, recoverable),
    })
}

/// Both numbers of the table. With no limit they are looked for together.
fn both_of<T: Threads + Sync>(
    rt: &T,
    alloc: Global,
    table: &Table,
    limit: Option<u8>,
) -> Result<BothNumbers, FindFault>
    requires { given_limit_fault limit ≡ None }
    ensures numbers { IfOk result (AreBothNumbers table.now limit) }
    ensures refused { IfErr result (λ e. e ≡ OutOfMemory) }
{
    let Some(limit) = limit else {
        let both = both_numbers(rt, alloc, table)?;
        return Ok(BothNumbers {
            number: TypeNumber::Exact(both.number),
            recoverable: TypeNumber::Exact(both.recoverable),
        });
    };
    both_up_to(rt, alloc, table, limit)
}

/// What is known of the number without reads of the table, if that is asked for.
fn without_read_of<T: Threads + Sync>(
    rt: &T,
    alloc: Global,
    table: &Table,
    is_asked: bool,
) -> Result<Option<NumberBounds>, AllocError>
    ensures { IfOk result (AreAskedBounds table.now is_asked) }
{
    if !is_asked {
        return Ok(None);
    }
    let number = unread_number(rt, alloc, table)?;
    Ok(Some(number.evidence.bounds))
}

/// A number up to the limit, in words.
fn limited_words(alloc: Global, limit: u8, number: Option<u8>) -> Result<String, AllocError>
    ensures { IfOk result (λ words. string_bytes words ≡ number_words limit number) }
{
    match number {
        None => format!(in alloc; "1"),
        Some(n) if n < limit => format!(in alloc; "{n}"),
        Some(n) => format!(in alloc; "at least {n}"),
    }
}

/// A number in words.
fn words_of(alloc: Global, number: TypeNumber) -> Result<String, AllocError>
    ensures { IfOk result (λ words. string_bytes words ≡ words_of number) }
{
    match number {
        TypeNumber::Exact(number) => format!(in alloc; "{number}"),
        TypeNumber::UpTo(limit, number) => limited_words(alloc, limit, number),
    }
}

/// The recoverable number in words, if it is told.
fn recoverable_words(
    alloc: Global,
    recoverable: Option<TypeNumber>,
) -> Result<Option<String>, AllocError>
    ensures { IfOk result (λ words. option_map string_bytes words
        ≡ option_map words_of recoverable) }
{
    let Some(number) = recoverable else {
        return Ok(None);
    };
    Ok(Some(words_of(alloc, number)?))
}

/// What is known of the number without reads in words, if it is told.
fn without_read_words(
    alloc: Global,
    without_read: Option<NumberBounds>,
) -> Result<Option<String>, AllocError>
    ensures { IfOk result (λ words. option_map string_bytes words
        ≡ option_map bounds_text without_read) }
{
    let Some(bounds) = without_read else {
        return Ok(None);
    };
    Ok(Some(format!(in alloc; "{bounds}")?))
}

/// The line of a type with its number, and those of the others that are told.
fn line_of(
    alloc: Global,
    name: &str,
    number: &str,
    recoverable: Option<&str>,
    without_read: Option<&str>,
) -> Result<String, AllocError>
    ensures { IfOk result (λ line. string_bytes line ≡ line_of name.now number.now
        (option_map (λ r. r.now) recoverable.entry)
        (option_map (λ r. r.now) without_read.entry)) }
{
    match (recoverable, without_read) {
        (None, None) => format!(in alloc; "{name}: {number}\n"),
        (Some(recoverable), None) => {
            format!(in alloc; "{name}: {number}, recoverable {recoverable}\n")
        }
        (None, Some(known)) => format!(in alloc; "{name}: {number}, without read {known}\n"),
        (Some(recoverable), Some(known)) => {
            format!(in alloc; "{name}: {number}, recoverable {recoverable}, without read {known}\n")
        }
    }
}

/// The numbers of a type as a line.
fn classification_line(
    alloc: Global,
    classification: Classification<'_>,
) -> Result<String, AllocError>
    ensures { IfOk result (λ line. string_bytes line
        ≡ classification_line classification.entry) }
{
    let name = classification.name;
    let number = words_of(alloc, classification.number)?;
    let recoverable = recoverable_words(alloc, classification.recoverable)?;
    let without_read = without_read_words(alloc, classification.without_read)?;
    line_of(
        alloc,
        name,
        number.as_str(),
        recoverable.as_deref(),
        without_read.as_deref(),
    )
}

/// The numbers of the type of this table as a row of a Markdown table.
fn classification_row(
    alloc: Global,
    table: &Table,
    classification: Classification<'_>,
) -> Result<String, AllocError>
    ensures { IfOk result (λ row. string_bytes row ≡ numbers_row table.now.name
        (words_of classification.entry.number)
        (option_map words_of classification.entry.recoverable)
        (option_map bounds_text classification.entry.without_read)) }
{
    let number = words_of(alloc, classification.number)?;
    let recoverable = recoverable_words(alloc, classification.recoverable)?;
    let without_read = without_read_words(alloc, classification.without_read)?;
    number_row(
        alloc,
        table,
        number.as_str(),
        recoverable.as_deref(),
        without_read.as_deref(),
    )
}

/// The numbers of the type of this table in a form.
fn text_of(
    alloc: Global,
    table: &Table,
    classification: Classification<'_>,
    form: DocumentForm,
) -> Result<String, AllocError>
    requires { classification.name.now ≡ table.now.name }
    ensures { IfOk result (λ text. string_bytes text
        ≡ classification_in form classification.entry) }
{
    match form {
        DocumentForm::Text => classification_line(alloc, classification),
        DocumentForm::Json => with_line_feed(classification_json(alloc, classification)?),
        DocumentForm::Markdown => classification_row(alloc, table, classification),
    }
}

/// Whether numbers can be told up to the limit, if one was given: from 2 to 8.
///
/// # Errors
///
/// The fault of the limit, where it has one.
pub fn check_limit(limit: Option<u8>) -> Result<(), AppFault>
    ensures { GivesLimit limit result }
{
    let Some(limit) = limit else {
        return Ok(());
    };
    match FindFault::of_limit(limit) {
        Some(fault) => Err(AppFault::from(fault)),
        None => Ok(()),
    }
}

/// The numbers of the type of this table that are asked for: its consensus number
/// ([`consensus_number`]), its recoverable number ([`both_numbers`]) if that is asked for, and what
/// is known of its number without reads ([`unread_number`]) if that is.
///
/// With a limit, a number is the greatest n from 2 to the limit for which the type is n-discerning,
/// or n-recording, if there is one. The number without reads has no limit. `rt` starts the threads
/// of the search.
///
/// # Errors
///
/// `OutOfMemory`. [`check_limit`] tells whether the limit is one.
pub fn classification_of<'a, T: Threads + Sync>(
    rt: &T,
    alloc: Global,
    table: &'a Table,
    limit: Option<u8>,
    recoverable: bool,
    without_read: bool,
) -> Result<Classification<'a>, FindFault>
    requires { given_limit_fault limit ≡ None }
    ensures numbers { IfOk result (IsClassificationOf table.now limit recoverable without_read) }
    ensures refused { IfErr result (λ e. e ≡ OutOfMemory) }
{
    let name = table.name();
    let bounds = without_read_of(rt, alloc, table, without_read)?;
    if !recoverable {
        return Ok(Classification {
            name,
            number: number_of(rt, alloc, table, limit)?,
            recoverable: None,
            without_read: bounds,
        });
    }
    let both = both_of(rt, alloc, table, limit)?;
    Ok(Classification {
        name,
        number: both.number,
        recoverable: Some(both.recoverable),
        without_read: bounds,
    })
}

/// The numbers of a table that are asked for ([`classification_of`]), in a form.
///
/// As text they are a line: the name of the type, a colon and a space, and the number; then, if it
/// is asked for, a comma, the word `recoverable` and the recoverable number; then, if that is asked
/// for, a comma, the words `without read` and what is known of the number without reads
/// ([`NumberBounds`]). A number is `N` or `infinite`. With a limit, it is `1` where there is none,
/// and `at least N` where it is the limit. What stands there without `at least` is the number for
/// every greater limit too
/// ([`greatest_below_the_limit`](cn_choice::laws::greatest_below_the_limit)). As JSON they are a
/// line with one object ([`classification_json`]), and in Markdown a row below the head of
/// [`head_report`].
///
/// # Errors
///
/// `OutOfMemory`. [`check_limit`] tells whether the limit is one.
pub fn numbers_report<T: Threads + Sync>(
    rt: &T,
    alloc: Global,
    table: &Table,
    asked: AskedNumbers,
) -> Result<Report, AppFault>
    requires { given_limit_fault asked.limit ≡ None }
    ensures { IsNumbersReport table.now asked result }
{
    let numbers = classification_of(
        rt,
        alloc,
        table,
        asked.limit,
        asked.recoverable,
        asked.without_read,
    )?;
    Ok(Report::whole(text_of(alloc, table, numbers, asked.form)?))
}

/// The head of the Markdown table whose rows [`numbers_report`] answers.
///
/// # Errors
///
/// That of [`check_limit`], or `OutOfMemory`.
pub fn head_report(alloc: Global, asked: AskedNumbers) -> Result<Report, AppFault>
    ensures { IsHeadReport asked result }
{
    check_limit(asked.limit)?;
    Ok(Report::whole(number_head(alloc, asked.recoverable, asked.without_read)?))
}
