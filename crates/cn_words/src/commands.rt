//! The command that the words of the command line give, with its arguments.
ghost use Rattle.std.specs.Prelude.{◌≡◌, IfOk, MatchResult, codes, false, map, option_map, true};
ghost use Rattle.clap.specs.Simple.{subcommand_rows_of};
ghost use Rattle.clap.specs.Walk.{first_of};
ghost use Rattle.cn_words.specs.GivenCommands.{Finds, HasAnswerForm, HasCertificate, HasDocumentForm, HasLimit, HasNumber, HasOpening, HasOptionalNumber, HasTable, HasTables, HasWord, IsInvocation, IsInvocationOf, IsNamed, RefusesCommand, asks_for_shortest, is_flag_set, is_input, is_input_shared, is_limit_excluded, is_number_twofold, is_of_plan, is_table_twice, path_in, path_of, rows_in, table_in};
ghost use Rattle.cn_words.specs.declared.commands.CommandFault.TheVariants.{OutOfMemory};

use crate::plan_certificates::{check_shortest, find_shortest};
use crate::plan_words::{PlanWords, plan_words};
use crate::stock_certificates::{check_stocks, explain_stocks, find_stocks, why_stocks};
use crate::without_certificate::{
    RunWords, asks_for_shortest, excludes_certificate, is_flag_set, is_of_plan, plan_table,
    recoverable_plan, run_table, run_words,
};
use clap::ArgMatches;
use cn_form::{AnswerForm, DocumentForm};
use std::alloc::{AllocError, Global};

/// Where a table or a certificate is read from.
#[derive(Clone, Copy)]
pub enum TextSource<'a> {
    /// Standard input, which the word `-` names.
    StandardInput,
    /// The file of this name.
    File(&'a str),
}

/// The words for an object that is served by a certificate's witness.
#[derive(Clone, Copy)]
pub struct OpeningWords<'a> {
    /// The certificate.
    pub certificate: TextSource<'a>,
    /// The name of the file that holds the table of the object.
    pub object: &'a str,
    /// The state in which the object starts.
    pub start: &'a str,
    /// How many slots the log has.
    pub capacity: &'a str,
}

/// A command of one table, with the words for its arguments. The limit, the form and the flags are
/// read; a list, a state or a number of slots is as it was spelled.
#[derive(Drop)]
pub enum Command<'a> {
    /// Writes the certificate of the type, up to the limit.
    Find {
        /// The greatest number looked for, if one was given.
        limit: Option<u8>,
    },
    /// Writes the certificate of the type's number without reads.
    FindUnread,
    /// Writes a certificate of the shortest plan.
    FindShortest {
        /// How many processes there are, if a number was given.
        processes: Option<u8>,
    },
    /// Writes the certificate by stocks, up to the limit if one was given.
    FindStocks {
        /// The greatest number looked for, if one was given.
        limit: Option<u8>,
    },
    /// Writes the table, or every flaw of it.
    Lint {
        /// The form of the answer.
        form: AnswerForm,
    },
    /// Draws the states of the type.
    Draw,
    /// Checks the certificate.
    Check {
        /// The certificate.
        certificate: TextSource<'a>,
        /// The form of the answer.
        form: AnswerForm,
    },
    /// Checks the certificate of a number without reads.
    CheckUnread {
        /// The certificate.
        certificate: TextSource<'a>,
        /// The form of the answer.
        form: AnswerForm,
    },
    /// Checks the certificate of a plan.
    CheckShortest {
        /// The certificate.
        certificate: TextSource<'a>,
        /// The form of the answer.
        form: AnswerForm,
    },
    /// Checks the certificate by stocks.
    CheckStocks {
        /// The certificate.
        certificate: TextSource<'a>,
        /// The form of the answer.
        form: AnswerForm,
    },
    /// Explains the number.
    Explain {
        /// The certificate.
        certificate: TextSource<'a>,
        /// Whether all collisions are told.
        all: bool,
        /// The form of the answer.
        form: AnswerForm,
    },
    /// Explains the bounds of the certificate by stocks.
    ExplainStocks {
        /// The certificate.
        certificate: TextSource<'a>,
        /// Whether all joins are told.
        all: bool,
    },
    /// Tells why the type has its number, up to the limit if one was given.
    Why {
        /// The greatest number looked for, if one was given.
        limit: Option<u8>,
        /// Whether all collisions are told.
        all: bool,
        /// The form of the answer.
        form: DocumentForm,
    },
    /// Tells why the type has its recoverable number.
    WhyRecoverable {
        /// Whether all choices that are refuted are told.
        all: bool,
        /// The form of the answer.
        form: DocumentForm,
    },
    /// Tells why the type has its number without reads.
    WhyUnread {
        /// Whether all choices that are refuted are told.
        all: bool,
        /// The form of the answer.
        form: DocumentForm,
    },
    /// Tells by a certificate by stocks why the type has its number, up to the limit if one was
    /// given.
    WhyStocks {
        /// The greatest number looked for, if one was given.
        limit: Option<u8>,
        /// Whether all joins are told.
        all: bool,
    },
    /// Writes the numbers of the operations of the type and of their pairs.
    Pairs {
        /// The form of the answer.
        form: DocumentForm,
    },
    /// Writes the numbers of the type with each other entry in its table.
    Changes {
        /// Whether these are recoverable numbers.
        recoverable: bool,
        /// Whether these are numbers without reads.
        without_read: bool,
        /// Whether changes of two entries are tried where none of one raises the number.
        pairs: bool,
        /// The form of the answer.
        form: DocumentForm,
    },
    /// Writes the plan of the witness.
    Show {
        /// The certificate.
        certificate: TextSource<'a>,
        /// How the plan is written.
        words: PlanWords<'a>,
    },
    /// Runs the plan by a schedule.
    Agree {
        /// The certificate.
        certificate: TextSource<'a>,
        /// The numbers that the processes begin with.
        inputs: &'a str,
        /// The processes in the order of their steps.
        schedule: &'a str,
        /// Whether each step is written.
        steps: bool,
        /// The form of the answer.
        form: AnswerForm,
    },
    /// Serves an object by a list of events.
    Replay {
        /// The object, and what serves it.
        opening: OpeningWords<'a>,
        /// The events.
        events: &'a str,
        /// The form of the answer.
        form: AnswerForm,
    },
    /// Serves an object by threads.
    Serve {
        /// The object, and what serves it.
        opening: OpeningWords<'a>,
        /// The calls of each process.
        calls: &'a str,
        /// The form of the answer.
        form: AnswerForm,
    },
}

/// What the words of a command line ask for.
#[derive(Drop)]
pub enum Invocation<'a> {
    /// Writes the number of each of these types, up to the limit if one was given.
    Classify {
        /// The greatest number looked for, if one was given.
        limit: Option<u8>,
        /// Whether the recoverable number is written too.
        recoverable: bool,
        /// Whether the number without reads is written too. It has no limit.
        without_read: bool,
        /// The form of the answers.
        form: DocumentForm,
        /// The tables of the types, at least one.
        tables: Vec<TextSource<'a>>,
    },
    /// A command of one table.
    OfTable {
        /// Where the table is read from.
        table: TextSource<'a>,
        /// The command.
        command: Command<'a>,
    },
    /// Runs the plan of a recording witness by a schedule of steps and crashes.
    Lives {
        /// Where the table is read from.
        table: TextSource<'a>,
        /// The words for the run.
        words: RunWords<'a>,
    },
    /// Runs the shortest plan by a schedule.
    ShortestRun {
        /// Where the table is read from.
        table: TextSource<'a>,
        /// Whether no process of the plan reads.
        without_read: bool,
        /// The words for the run.
        words: RunWords<'a>,
    },
    /// Writes the shortest plan.
    ShortestPlan {
        /// Where the table is read from.
        table: TextSource<'a>,
        /// Whether no process of the plan reads.
        without_read: bool,
        /// How many processes there are, if a number was given.
        processes: Option<u8>,
        /// How the plan is written.
        words: PlanWords<'a>,
    },
    /// Writes the plan of the first recording witness.
    RecoverablePlan {
        /// Where the table is read from.
        table: TextSource<'a>,
        /// How many processes there are, if a number was given.
        processes: Option<u8>,
        /// The form of the plan.
        form: AnswerForm,
    },
}

/// Why there is no command.
#[derive(Clone, Copy)]
pub enum CommandFault {
    /// The words give no command.
    Words,
    /// Memory ran out.
    OutOfMemory,
}

impl From<AllocError> for CommandFault {
    ghost from_gives = { λ _ fault. fault ≡ OutOfMemory };

    fn from(_error: AllocError) -> CommandFault {
        CommandFault::OutOfMemory
    }
}

impl<'a> TextSource<'a> {
    // The text that a word names.
    pub(crate) fn of(word: &'a str) -> TextSource<'a>
        ensures { path_of result ≡ path_in word.entry.now }
    {
        if word == "-" {
            TextSource::StandardInput
        } else {
            TextSource::File(word)
        }
    }
}

// The word that stands for an argument.
pub(crate) fn word<'a>(words: &ArgMatches<'a>, id: &str) -> Option<&'a str>
    ensures { option_map (λ w. w.now) result ≡ first_of id.now (rows_in words.now) }
{
    words.get_str(id)
}

// A list, as it was spelled.
pub(crate) fn list<'a>(words: &ArgMatches<'a>, id: &str) -> Option<&'a str>
    ensures { Finds (λ list. HasWord id.now (rows_in words.now) list.now) result }
{
    word(words, id)
}

fn number(words: &ArgMatches<'_>, id: &str) -> Option<u8>
    ensures { Finds (HasNumber id.now (rows_in words.now)) result }
{
    words.get_one::<u8>(id)
}

// The number of an option, if it was given.
pub(crate) fn optional_number(words: &ArgMatches<'_>, id: &str) -> Option<Option<u8>>
    ensures { Finds (HasOptionalNumber id.now (rows_in words.now)) result }
{
    if word(words, id).is_none() {
        return Some(None);
    }
    Some(Some(number(words, id)?))
}

// The limit, if one was given.
pub(crate) fn optional_limit(words: &ArgMatches<'_>) -> Option<Option<u8>>
    ensures { Finds (HasLimit (rows_in words.now)) result }
{
    optional_number(words, "limit")
}

pub(crate) fn certificate<'a>(words: &ArgMatches<'a>) -> Option<TextSource<'a>>
    ensures { Finds (HasCertificate (rows_in words.now)) result }
{
    Some(TextSource::of(word(words, "CERT")?))
}

pub(crate) fn answer_form(words: &ArgMatches<'_>) -> Option<AnswerForm>
    ensures { Finds (HasAnswerForm (rows_in words.now)) result }
{
    match word(words, "as")? {
        "text" => Some(AnswerForm::Text),
        "json" => Some(AnswerForm::Json),
        _ => None,
    }
}

pub(crate) fn document_form(words: &ArgMatches<'_>) -> Option<DocumentForm>
    ensures { Finds (HasDocumentForm (rows_in words.now)) result }
{
    match word(words, "as")? {
        "text" => Some(DocumentForm::Text),
        "json" => Some(DocumentForm::Json),
        "markdown" => Some(DocumentForm::Markdown),
        _ => None,
    }
}

fn opening<'a>(words: &ArgMatches<'a>) -> Option<OpeningWords<'a>>
    ensures { Finds (HasOpening (rows_in words.now)) result }
{
    Some(OpeningWords {
        certificate: certificate(words)?,
        object: word(words, "OBJECT")?,
        start: word(words, "START")?,
        capacity: word(words, "CAPACITY")?,
    })
}

fn sources<'a>(alloc: Global, words: &[&'a str]) -> Result<Vec<TextSource<'a>>, AllocError>
    ensures { IfOk result (λ sources.
        map path_of sources.items ≡ map (λ w. path_in w.now) words.now) }
{
    let mut sources = Vec::with_capacity(alloc, words.len())?;
    for word in words {
        sources.push(TextSource::of(*word))?;
    }
    Ok(sources)
}

fn tables<'a>(
    alloc: Global,
    words: &ArgMatches<'a>,
) -> Result<Option<Vec<TextSource<'a>>>, AllocError>
    ensures { IfOk result (Finds (λ tables. HasTables (rows_in words.now) tables.items)) }
{
    match words.get_strs("FILE") {
        Some(files) => Ok(Some(sources(alloc, files)?)),
        None => Ok(None),
    }
}

// Whether the number without reads is asked for.
pub(crate) fn is_unread(words: &ArgMatches<'_>) -> bool
    ensures { result ≡ is_flag_set (codes "without-read") (rows_in words.now) }
{
    is_flag_set(words, "without-read")
}

// Whether the shortest plan is asked for.
pub(crate) fn is_shortest(words: &ArgMatches<'_>) -> bool
    ensures { result ≡ is_flag_set (codes "shortest") (rows_in words.now) }
{
    is_flag_set(words, "shortest")
}

// Whether a certificate by stocks is asked for.
fn is_by_stocks(words: &ArgMatches<'_>) -> bool
    ensures { result ≡ is_flag_set (codes "stocks") (rows_in words.now) }
{
    is_flag_set(words, "stocks")
}

// The number without reads has no limit.
fn find_unread<'a>(words: &ArgMatches<'a>) -> Option<Command<'a>>
    requires unread { is_flag_set (codes "without-read") (rows_in words.now) ≡ true }
    requires number { is_of_plan (rows_in words.now) ≡ false }
    requires choices { is_flag_set (codes "stocks") (rows_in words.now) ≡ false }
    ensures { Finds (IsNamed (codes "find") (rows_in words.now)) result }
{
    match word(words, "limit") {
        Some(_) => None,
        None => Some(Command::FindUnread),
    }
}

fn find<'a>(words: &ArgMatches<'a>) -> Option<Command<'a>>
    ensures { Finds (IsNamed (codes "find") (rows_in words.now)) result }
{
    if is_by_stocks(words) {
        return find_stocks(words);
    }
    if is_shortest(words) {
        return find_shortest(words);
    }
    if is_of_plan(words) {
        return None;
    }
    if is_unread(words) {
        return find_unread(words);
    }
    Some(Command::Find {
        limit: optional_limit(words)?,
    })
}

// Whether a limit stands beside the flag of a number that has none.
fn is_limit_excluded(words: &ArgMatches<'_>) -> bool
    ensures { result ≡ is_limit_excluded (rows_in words.now) }
{
    is_unread(words) && word(words, "limit").is_some()
}

fn classify<'a>(alloc: Global, words: &ArgMatches<'a>) -> Result<Option<Invocation<'a>>, AllocError>
    ensures { IfOk result (Finds (IsInvocation (codes "classify") (rows_in words.now))) }
{
    if is_limit_excluded(words) {
        return Ok(None);
    }
    let Some(limit) = optional_limit(words) else {
        return Ok(None);
    };
    let Some(form) = document_form(words) else {
        return Ok(None);
    };
    let Some(tables) = tables(alloc, words)? else {
        return Ok(None);
    };
    Ok(Some(Invocation::Classify {
        limit,
        recoverable: words.get_flag("recoverable"),
        without_read: words.get_flag("without-read"),
        form,
        tables,
    }))
}

fn lint<'a>(words: &ArgMatches<'a>) -> Option<Command<'a>>
    ensures { Finds (IsNamed (codes "lint") (rows_in words.now)) result }
{
    Some(Command::Lint {
        form: answer_form(words)?,
    })
}

fn check<'a>(words: &ArgMatches<'a>) -> Option<Command<'a>>
    ensures { Finds (IsNamed (codes "check") (rows_in words.now)) result }
{
    if is_by_stocks(words) {
        return check_stocks(words);
    }
    if is_shortest(words) {
        return check_shortest(words);
    }
    let certificate = certificate(words)?;
    let form = answer_form(words)?;
    if is_unread(words) {
        return Some(Command::CheckUnread { certificate, form });
    }
    Some(Command::Check { certificate, form })
}

fn explain<'a>(words: &ArgMatches<'a>) -> Option<Command<'a>>
    ensures { Finds (IsNamed (codes "explain") (rows_in words.now)) result }
{
    if is_by_stocks(words) {
        return explain_stocks(words);
    }
    Some(Command::Explain {
        certificate: certificate(words)?,
        all: words.get_flag("all"),
        form: answer_form(words)?,
    })
}

// The recoverable number has no limit.
fn why_recoverable<'a>(words: &ArgMatches<'a>) -> Option<Command<'a>>
    requires choices { is_flag_set (codes "stocks") (rows_in words.now) ≡ false }
    requires with_reads { is_flag_set (codes "without-read") (rows_in words.now) ≡ false }
    requires recoverable { is_flag_set (codes "recoverable") (rows_in words.now) ≡ true }
    ensures { Finds (IsNamed (codes "why") (rows_in words.now)) result }
{
    if word(words, "limit").is_some() {
        return None;
    }
    let all = words.get_flag("all");
    let form = document_form(words)?;
    Some(Command::WhyRecoverable { all, form })
}

// The number without reads has no limit, and is not the recoverable number.
fn why_unread<'a>(words: &ArgMatches<'a>) -> Option<Command<'a>>
    requires choices { is_flag_set (codes "stocks") (rows_in words.now) ≡ false }
    requires unread { is_flag_set (codes "without-read") (rows_in words.now) ≡ true }
    ensures { Finds (IsNamed (codes "why") (rows_in words.now)) result }
{
    if is_flag_set(words, "recoverable") || word(words, "limit").is_some() {
        return None;
    }
    let all = words.get_flag("all");
    let form = document_form(words)?;
    Some(Command::WhyUnread { all, form })
}

fn why<'a>(words: &ArgMatches<'a>) -> Option<Command<'a>>
    ensures { Finds (IsNamed (codes "why") (rows_in words.now)) result }
{
    if is_by_stocks(words) {
        return why_stocks(words);
    }
    if is_unread(words) {
        return why_unread(words);
    }
    if is_flag_set(words, "recoverable") {
        return why_recoverable(words);
    }
    let limit = optional_limit(words)?;
    let all = words.get_flag("all");
    let form = document_form(words)?;
    Some(Command::Why { limit, all, form })
}

fn pairs<'a>(words: &ArgMatches<'a>) -> Option<Command<'a>>
    ensures { Finds (IsNamed (codes "pairs") (rows_in words.now)) result }
{
    Some(Command::Pairs {
        form: document_form(words)?,
    })
}

// Whether the flags of two numbers stand side by side.
fn is_number_twofold(words: &ArgMatches<'_>) -> bool
    ensures { result ≡ is_number_twofold (rows_in words.now) }
{
    is_flag_set(words, "recoverable") && is_unread(words)
}

// The numbers are of one kind.
fn changes<'a>(words: &ArgMatches<'a>) -> Option<Command<'a>>
    ensures { Finds (IsNamed (codes "changes") (rows_in words.now)) result }
{
    if is_number_twofold(words) {
        return None;
    }
    let form = document_form(words)?;
    Some(Command::Changes {
        recoverable: is_flag_set(words, "recoverable"),
        without_read: is_unread(words),
        pairs: is_flag_set(words, "pairs"),
        form,
    })
}

fn show<'a>(words: &ArgMatches<'a>) -> Option<Command<'a>>
    ensures { Finds (IsNamed (codes "show") (rows_in words.now)) result }
{
    if excludes_certificate(words) {
        return None;
    }
    Some(Command::Show {
        certificate: certificate(words)?,
        words: plan_words(words)?,
    })
}

fn agree<'a>(words: &ArgMatches<'a>) -> Option<Command<'a>>
    ensures { Finds (IsNamed (codes "agree") (rows_in words.now)) result }
{
    if excludes_certificate(words) {
        return None;
    }
    Some(Command::Agree {
        certificate: certificate(words)?,
        inputs: list(words, "INPUTS")?,
        schedule: list(words, "SCHEDULE")?,
        steps: words.get_flag("steps"),
        form: answer_form(words)?,
    })
}

fn replay<'a>(words: &ArgMatches<'a>) -> Option<Command<'a>>
    ensures { Finds (IsNamed (codes "replay") (rows_in words.now)) result }
{
    Some(Command::Replay {
        opening: opening(words)?,
        events: list(words, "EVENTS")?,
        form: answer_form(words)?,
    })
}

fn serve<'a>(words: &ArgMatches<'a>) -> Option<Command<'a>>
    ensures { Finds (IsNamed (codes "serve") (rows_in words.now)) result }
{
    Some(Command::Serve {
        opening: opening(words)?,
        calls: list(words, "CALLS")?,
        form: answer_form(words)?,
    })
}

// The command of one table of this name, by the words behind the name.
fn command_named<'a>(name: &str, words: &ArgMatches<'a>) -> Option<Command<'a>>
    ensures { Finds (IsNamed name.now (rows_in words.now)) result }
{
    match name {
        "find" => find(words),
        "lint" => lint(words),
        "draw" => Some(Command::Draw),
        "check" => check(words),
        "explain" => explain(words),
        "why" => why(words),
        "pairs" => pairs(words),
        "changes" => changes(words),
        "show" => show(words),
        "agree" => agree(words),
        "replay" => replay(words),
        "serve" => serve(words),
        _ => None,
    }
}

// The word that says where the table is.
pub(crate) fn table_word<'a>(words: &ArgMatches<'a>) -> Option<&'a str>
    ensures { option_map (λ w. w.now) result ≡ table_in (rows_in words.now) }
{
    match word(words, "table") {
        Some(file) => Some(file),
        None => word(words, "FILE"),
    }
}

// Whether both the option and the last word say where the table is.
fn is_table_twice(words: &ArgMatches<'_>) -> bool
    ensures { result ≡ is_table_twice (rows_in words.now) }
{
    word(words, "table").is_some() && word(words, "FILE").is_some()
}

// Where the table is read from. Without a word for it, that is standard input.
fn table<'a>(words: &ArgMatches<'a>) -> TextSource<'a>
    ensures { HasTable (rows_in words.now) result }
{
    match table_word(words) {
        Some(file) => TextSource::of(file),
        None => TextSource::StandardInput,
    }
}

// Whether a word stands for standard input; `otherwise` if there is no word.
fn is_input(word: Option<&str>, otherwise: bool) -> bool
    ensures { result ≡ is_input (option_map (λ w. w.now) word.entry) otherwise }
{
    match word {
        Some(word) => word == "-",
        None => otherwise,
    }
}

// Whether standard input would be both the table and the certificate.
fn is_input_shared(words: &ArgMatches<'_>) -> bool
    ensures { result ≡ is_input_shared (rows_in words.now) }
{
    is_input(word(words, "CERT"), false) && is_input(table_word(words), true)
}

// What `agree --recoverable` asks for.
fn lives_run<'a>(words: &ArgMatches<'a>) -> Option<Invocation<'a>>
    requires { is_flag_set (codes "recoverable") (rows_in words.now) ≡ true }
    ensures { Finds (IsInvocation (codes "agree") (rows_in words.now)) result }
{
    if asks_for_shortest(words) {
        return None;
    }
    Some(Invocation::Lives {
        table: run_table(words)?,
        words: run_words(words)?,
    })
}

// What `agree` asks for by a shortest plan.
fn shortest_run<'a>(words: &ArgMatches<'a>) -> Option<Invocation<'a>>
    requires shortest { asks_for_shortest (rows_in words.now) ≡ true }
    requires lasting { is_flag_set (codes "recoverable") (rows_in words.now) ≡ false }
    ensures { Finds (IsInvocation (codes "agree") (rows_in words.now)) result }
{
    Some(Invocation::ShortestRun {
        table: run_table(words)?,
        without_read: is_flag_set(words, "without-read"),
        words: run_words(words)?,
    })
}

// What `show` asks for by a shortest plan.
fn shortest_plan<'a>(words: &ArgMatches<'a>) -> Option<Invocation<'a>>
    requires shortest { asks_for_shortest (rows_in words.now) ≡ true }
    requires lasting { is_flag_set (codes "recoverable") (rows_in words.now) ≡ false }
    ensures { Finds (IsInvocation (codes "show") (rows_in words.now)) result }
{
    Some(Invocation::ShortestPlan {
        table: plan_table(words)?,
        without_read: is_flag_set(words, "without-read"),
        processes: optional_number(words, "processes")?,
        words: plan_words(words)?,
    })
}

// What the command of this name asks for, by the words behind the name.
fn invocation_named<'a>(
    alloc: Global,
    name: &str,
    words: &ArgMatches<'a>,
) -> Result<Option<Invocation<'a>>, AllocError>
    ensures { IfOk result (Finds (IsInvocation name.now (rows_in words.now))) }
{
    if name == "classify" {
        return classify(alloc, words);
    }
    if name == "agree" && is_flag_set(words, "recoverable") {
        return Ok(lives_run(words));
    }
    if name == "agree" && asks_for_shortest(words) {
        return Ok(shortest_run(words));
    }
    if name == "show" && is_flag_set(words, "recoverable") {
        return Ok(recoverable_plan(words));
    }
    if name == "show" && asks_for_shortest(words) {
        return Ok(shortest_plan(words));
    }
    if is_table_twice(words) || is_input_shared(words) {
        return Ok(None);
    }
    let Some(command) = command_named(name, words) else {
        return Ok(None);
    };
    Ok(Some(Invocation::OfTable {
        table: table(words),
        command,
    }))
}

// The name of the parsed command, and the words behind it.
fn command_met<'m, 'a>(matches: &'m ArgMatches<'a>) -> Option<(&'a str, &'m ArgMatches<'a>)>
    ensures { option_map (λ met. (met.0.now, rows_in met.1.now)) result
        ≡ subcommand_rows_of matches.now }
{
    matches.subcommand()
}

/// What a parsed command line asks for.
///
/// # Errors
///
/// `Words` if there is no command, a word is missing or too many, a number is none of one byte, the
/// form is unknown, two words say where the table is, two words exclude each other, an object or a
/// prefix does not fit the form, or standard input would be both the table and the certificate;
/// `OutOfMemory` for want of memory.
pub fn invocation_of<'a>(
    alloc: Global,
    matches: &ArgMatches<'a>,
) -> Result<Invocation<'a>, CommandFault>
    // promise: command-of-words (IsInvocationOf: IsInvocation, HasRun, HasRunTable, HasPlanTable,
    //     HasPlanWords: HasStyle, HasObject; IsOfTable: arguments, source, once, input;
    //     RefusesCommand)
    ensures { MatchResult result (IsInvocationOf matches.now)
        (RefusesCommand (IsInvocationOf matches.now)) }
{
    let Some((name, words)) = command_met(matches) else {
        return Err(CommandFault::Words);
    };
    invocation_named(alloc, name, words)?.ok_or(CommandFault::Words)
}
