//! The words of the command line, and the help on them.
ghost use Rattle.std.specs.Prelude.{◌≡◌, [], ◌∷◌, IfOk, codes};
ghost use Rattle.clap.specs.Simple.{new_shape};
ghost use Rattle.clap.specs.Walk.{texts};
ghost use Rattle.cn_words.specs.CommandLine.{AddsArgument, AddsCommand, AddsTable, HasCommands, HasCommandsFor, IsArgument, IsCommand, IsCommandFor, TakesWords, agree_words, answer_forms, certificate_word, changes_words, check_words, classify_words, command_with, commands, document_forms, draw_words, explain_words, file_word, find_words, flag, form_option, limit_option, lint_words, opening_words, optional_certificate_word, pairs_words, plan_forms, processes_option, replay_words, required_word, required_words, serve_words, show_words, table_option, table_word, value_option, why_words};

use clap::builder::ValueParser;
use clap::{Arg, ArgAction, Command, value_parser};
use std::alloc::{AllocError, Global};

// The help behind the words: what a command says of itself, then what holds for every command (the
// limits of a table and the exit statuses), then an example.
macro_rules! help {
    ($own:literal, $example:literal) => {
        concat!(
            $own,
            "\
Limits: a table has 1 to 16 states, 1 to 16 responses and 1 to 8 operations, and at most 65536
bytes; a name is 1 to 32 bytes, each a to z, 0 to 9 or an underscore.
Codes: cnum lint < FILE shows every mistake of a table with its place. man cnum and docs/FORMATS.md
explain the code of a fault, as that of table: 8 RowLength.

Exit status:
  0  done
  1  the check refuses the certificate, or there is no witness or plan, or a call found no slot
  2  the text of a table or of the certificate is refused, or a file behind @ is too long
  3  wrong command line: unknown option, bad argument, limit not 2 to 8, or a type too large for
     this limit
  4  reading or writing failed, or a thread could not be started
  5  out of memory

Example:
",
            $example
        )
    };
}

const VERSION: &str = "0.2.0, proved by rattle-kit-13f logic dac8208d650f15bf";

const ABOUT: &str = "Finds and checks the consensus number of a shared object type";

const AFTER: &str = help!(
    "\
Input: a type table in TOML on standard input, at most 65536 bytes, or in FILE, which is the last
word or stands behind --table. classify reads one from each FILE, and why, pairs and changes need
FILE. CERT is a file that holds a certificate, at most 16777216 bytes, or - for standard input where
the table is in a file. OBJECT is a file that holds the table of an object, at most 65536 bytes.
INPUTS, SCHEDULE, EVENTS and CALLS are lists, or @ and the name of a file that holds the list, at
most 1048576 bytes.
Output: on standard output, written at once. After a fault there is none, but for three: lint writes
the flaws of a refused table, check --as json the fault of a certificate, and after a failed write
it is open how much went out. A fault is one line on standard error. In classify each table has a
line of output or of a fault.
",
    "  cnum find --limit 3 < types/test_and_set.toml"
);

const FIND_ABOUT: &str = "Writes the certificate of the consensus number of the type";

const FIND_AFTER: &str = help!(
    "\
Reads a type table in TOML from standard input: the keys name, states, responses and, for each
operation, name, response and next. Looks for the greatest n from 2 to N for which the type is
n-discerning, that is, the number of processes that the type with registers can bring to
agreement, as far as N shows. N is from 2 to 8. A search of more than 100000 choices for N
processes is refused. Without --limit, N is the greatest that is not refused, which the certificate
tells as its limit. Processes can read the whole state of an object, in a step that changes nothing;
the table need not have such an operation.

Writes a certificate, one line of JSON: the number, or null; a witness for it; and, for one process
more, a counterexample (collision) to every choice of a start state, operations and teams; choices
where an operation leaves the start state unchanged cannot work and are skipped. \"number\":null means
1: not even two processes can agree. A number equal to N stands for at least N; a smaller one is
that for every greater limit too.

With --stocks writes a certificate of another form, which is much shorter and which no type is too
large for. Against one process more it has joins: two runs that begin with different operations, after
which some process sees the same, so that both operations are in one team. Joins within a stock of
operations that connect all of these leave no two teams. Without --limit a finite number has both
bounds, 16 the lower one alone; infinite is told by two operations that last.

With --without-read writes a certificate of bounds of the number for objects that are not read, with
the evidence for each. They may be wider than what classify --without-read writes: of the greatest
number a certificate says nothing from 8 on. No read is added: list every way to look at the object.
--limit does not stand beside it.

With --shortest writes a certificate of the shortest plan, which show --shortest writes: its nodes,
for each the start state, how the processes look, their operations and the sizes of the teams; the
number of processes, and the most own steps of one. The plan is for N processes, or without
--processes N for as many as the type brings to agreement, up to 8. Neither --limit nor
--without-read stands beside it.

",
    "  cnum find --limit 3 < types/test_and_set.toml
writes a certificate with \"number\":2."
);

const CLASSIFY_ABOUT: &str = "Writes the consensus number of each of several types";

const CLASSIFY_AFTER: &str = help!(
    "\
Reads a type table in TOML from each FILE, one after the other; - is standard input. Looks for the
greatest n for which the type is n-discerning, whatever the count of choices: so many processes can
agree, and no more.

Writes for each type a line as soon as its number is known: its name, a colon, and the number; 1
where it is n-discerning for no n from 2 on; infinite where it is for every n. A finite number is at
most the number of states.

With --limit N, from 2 to 8, no number above N is looked for: a line says at least N where the
number is N or more.

With --recoverable a comma, the word recoverable and a second number follow: the greatest n for
which the type is n-recording, that is, the number of processes that can agree where each may crash
and come back with its own memory lost.

With --without-read a comma, the words without read and what is known of one more number follow: how
many processes can agree where none reads an object but by the operations of its table. No read is
added: list every way to look at the object. An operation is a read if it leaves every state as it
is and answers differently in any two; one that tells less helps as far as it tells, and a dequeue
is no read. List exactly what each operation answers: ok, full and was empty make different numbers.
It is the number of this bounded table, not of an object without bound, and has no --limit. Where it
is not known, the words are at least N, at most M, not decided, or at least N, no upper bound found.

With --as markdown the lines are the rows of one table for a document, with its head before the
first; with --as json each line is one JSON object.

A table that cannot be read or is refused has a line on standard error that begins with the name of
its file, and the others go on. The exit status is that of the first fault.

",
    "  cnum classify types/test_and_set.toml types/sticky_bit.toml
writes test_and_set: 2 and sticky_bit: infinite."
);

const LINT_ABOUT: &str = "Writes the table as a grid, or all that is wrong with it";

const LINT_AFTER: &str = help!(
    "\
Reads a type table in TOML from standard input. Writes a table as a grid: a line for each operation,
a column for each state, and in it the response and the next state; then a line for each state to
which no operations lead from the first one, and for each operation that changes nothing.

Of a table that is refused, writes a line for each thing that is wrong with it, and not only for the
first, each with its place; then the fault stands on standard error, as with every command. Names,
counts and rows are looked at where no key is missing and each value is of its kind.

With --as json writes one JSON object: the flaws, of which a table has none, and of a table the
operations that change nothing and the states to which no operations lead from the first one.

",
    "  cnum lint < types/test_and_set.toml
writes three lines; the last is of tas, with zero>one below zero and one>one below one."
);

const CHECK_ABOUT: &str = "Checks a certificate against the type";

const CHECK_AFTER: &str = help!(
    "\
Reads a type table in TOML from standard input and a certificate in JSON from the file CERT.
Writes ok where the certificate is of this type and shows its number: its witness is one, and, for
one process more, it has a counterexample (collision) to every choice, in order; choices where an
operation leaves the start state unchanged cannot work, and version 2 skips them. What find writes
is accepted, and so is a certificate with another witness or other collisions.

With --stocks CERT is a certificate that find --stocks writes, or another one of its form. Writes ok
where it is of this type and its evidence shows its bounds.

With --without-read CERT is a certificate that find --without-read writes. Writes ok where it is of
this type and its evidence shows its bounds.

With --shortest CERT is a certificate that find --shortest writes, or another one of a plan. Writes
ok where it is of this type, its nodes are a tree at each node of which every process can tell which
team was first, and the numbers of processes and of steps are those of the tree; and then a line on
how short the plan is: type T processes n objects k steps s. It does not look for a shorter one.

With --as json writes one JSON object, which says whether the certificate is accepted, and else the
fault, which stands on standard error too.

",
    "  cnum check types/test_and_set_at_3.json < types/test_and_set.toml
writes ok."
);

const EXPLAIN_ABOUT: &str = "Tells why the number of a certificate is what it is";

const EXPLAIN_AFTER: &str = help!(
    "\
Reads a type table in TOML from standard input and a certificate in JSON from the file CERT, and
checks the certificate. Writes the number; the table as a grid; who does what in the witness, and
what each process got and reads where team A was first and where team B was; and for each choice
for one process more two runs by which one of its processes cannot tell which team was first. Of
these choices the first 12 are told, with --all all of them. Where any two operations bound the
number by themselves, it says so, too. It names the pairs of operations of which in some state
neither wipes out the other and the order matters, if the number is above 2 and they are few.

With --stocks CERT is a certificate that find --stocks writes, or another one of its form. Writes the
number or its bounds; the witness, or two operations that last; and a line for each join: where some
process sees the same after two runs, so that the operations that these begin with are in one team.
Of the joins the first 12 are told, with --all all of them. It has no form but text.

With --as json this is one JSON object.

",
    "  cnum explain types/test_and_set_at_3.json < types/test_and_set.toml
writes first test_and_set: consensus number 2 (for processes that can read the whole state)."
);

const WHY_ABOUT: &str = "Finds the consensus number of the type, and tells why it is what it is";

const WHY_AFTER: &str = help!(
    "\
Reads a type table in TOML from FILE; - is standard input. Writes the number, the table, and why the
number is what it is. For infinite this is two operations that last: where one process does the one
and any number of others do the other, the state always tells which came first. Then it writes the
witness and the counterexamples of the certificate that find writes, as explain does. Where these
are for fewer processes than the number, it says so. Where any two operations bound the number by
themselves, it says that in place of the counterexamples; with --all it writes both. Last it writes
what the plan costs that show --shortest writes: the most own steps of a process, and the objects.

With --limit N, from 2 to 8, finds the certificate of the type up to N as find does, and writes of it
what explain writes. A search of more than 100000 choices for N processes is refused.

With --recoverable tells why the recoverable number is what it is, where any process may crash, lose
its own memory and come back. Its witness is a start state, teams and operations with which the
state alone tells for good which team was first: the states that runs leave which begin in team A,
those of team B, and the start state. For one process more it writes of each choice, of at most 12
without --all, two runs that leave one state. --limit does not stand beside it.

With --without-read tells why the number without reads is what it is, which classify --without-read
writes: how each process tells, by its response or by looking, which team was first; and for one
process more two runs in which some process gets the same, of the first choice or, with --all, of
each. No read is added: list every way to look at the object, and exactly what each operation
answers. Neither --limit nor --recoverable stands beside it.

With --stocks finds the certificate that find --stocks writes, with a limit or with none, and writes of
it what explain --stocks writes. No type is too large for it. It has no form but text. Neither
--recoverable nor --without-read stands beside it.

With --as markdown writes the number, its reason, the table and the witness for a document; with
--as json all of it is one JSON object.

",
    "  cnum why --limit 3 types/test_and_set.toml
writes first test_and_set: consensus number 2 (for processes that can read the whole state)."
);

const PAIRS_ABOUT: &str = "Writes the numbers of the operations of the type and of their pairs";

const PAIRS_AFTER: &str = help!(
    "\
Reads a type table in TOML from FILE; - is standard input. Writes the consensus number of the type
with one operation alone and with two operations alone, for each operation and each pair, as a table:
the cell of an operation with itself is that of the operation alone. A number is written as classify
writes it, for objects whose whole state processes can read. Then it writes the smallest sets of
operations with which the type has the number that it has with all of them, at most 12 of these.

With --as markdown this is a table and a list for a document; with --as json, one JSON object.

",
    "  cnum pairs types/test_and_set.toml
writes last The number 2 of the type needs all operations."
);

const CHANGES_ABOUT: &str = "Writes the numbers of the type with each other entry in its table";

const CHANGES_AFTER: &str = help!(
    "\
Reads a type table in TOML from FILE; - is standard input. An entry of the table is what one
operation does in one state: a response and a next state. For each entry, each other next state and
each other response, finds the consensus number that the type would have with them. Writes the number
of the type; the table as a grid, with a * behind each entry on which the number rests: with some
other entry there it is less; and a line for each change of one entry that raises the number, the
greatest number first. Where the number is the same with each response, the line names none.

With --pairs, where no change of one entry raises the number, tries changes of two entries at once,
the first 50000 of them, and says so where there are more.

With --recoverable these are recoverable numbers; with --without-read, numbers for objects that are
not read, as far as they are known: one is less than another where this is certain. They do not stand
side by side. classify tells of both.

With --as markdown this is a table and a list for a document; with --as json, one JSON object, which
has the number with each change.

",
    "  cnum changes types/test_and_set.toml
writes first test_and_set: 2."
);

/// The forms of an answer.
const ANSWER_FORMS: [&str; 2] = ["text", "json"];

/// The forms of an answer in a document.
const DOCUMENT_FORMS: [&str; 3] = ["text", "json", "markdown"];

const SHOW_ABOUT: &str = "Writes the plan of a certificate's witness, or the shortest plan";

const SHOW_AFTER: &str = help!(
    "\
Reads a type table in TOML from standard input and a certificate in JSON from the file CERT, and
checks the certificate. Writes how the processes come to agree by its witness: a line on the type,
a line for each role with its team, its operation and the pairs response/state by which it knows
that team A came first, and a line for each process with its places, from its lowest node to the
root. Behind its operation a process reads the whole state of the object, in a step that changes
nothing; the table need not have such an operation.

A certificate with \"number\":null means 1: not even two processes can agree. It has no witness, and
so no plan. A number equal to its limit stands for at least so many: there is a plan for as many
processes.

With --as json this is one JSON object; with --as dot, the tournament as a picture in the language
DOT, for Graphviz; with --as promela, a model in Promela, in which the model checker spin finds that
all decisions are equal, are the value of a process that has moved, and come in time; with --as rust
and --as c, a file of source code by which threads agree over objects of the type.

With --object OBJECT --start STATE, beside --as rust, c or h, the source code also has an object that
the processes share without waiting for each other: that of the table in the file OBJECT, which starts
in the state STATE. Every call gets the response that it has in one sequential run of all calls.

With --prefix NAME, beside --as c or h, the names in the source code begin with NAME in place of
consensus, and other files can use them; without it they are static. --as h writes the header of the
file that --as c writes with the same prefix. NAME is 1 to 32 letters, digits or underscores, the
first no digit, and no word of C or C++.

With --shortest writes the shortest plan in place of it: show --shortest FILE. The type is in FILE,
or on standard input or behind --table, and there is no certificate. The plan is for N processes, or
without --processes N for as many as the type brings to agreement, up to 8. At each node two or more
teams meet, and all its processes read the object, or none does. Of all such plans this one has the
fewest own steps of the process that takes most, then the fewest objects, then the fewest steps of
all processes; a protocol of another kind may have fewer. Writes a line on the type; for each node a
line with its teams, and for each of its processes a line with its operation, and the team that it
judges to have come first by each response or response/state; and for each process a line with its
steps and its places. The forms are the same.

With --without-read, beside --shortest or in its place, writes the shortest of the plans of which no
process reads: at each node all judge by their responses alone, or each looks by one more operation,
which changes no state, and judges by both responses. Without --processes N is as great as such plans
allow, up to 8. Where there is none, a protocol of another kind may do without reads: classify
--without-read tells for how many processes.

With --recoverable writes the plan for processes that crash and come back, which agree --recoverable
runs: show --recoverable FILE. The type is in FILE, or on standard input or behind --table, and there
is no certificate. The plan is that of the first recording witness for N processes, or without
--processes N for as many as the recoverable number up to 8. Writes a line on the type; for each team
a line with the states by which a process judges that it came first; for each role a line with its
team and its operation; and for each process a line with its places, and with the own steps within
which it decides if it does not crash. There are two forms, text and json.

",
    "  cnum show types/test_and_set_at_3.json < types/test_and_set.toml
writes five lines, the last of which is process 1: node 0 B role 1."
);

/// The forms in which `show` writes a plan.
const PLAN_FORMS: [&str; 7] = ["text", "json", "dot", "promela", "rust", "c", "h"];

const DRAW_ABOUT: &str = "Draws the states of the type";

const DRAW_AFTER: &str = help!(
    "\
Reads a type table in TOML from standard input. Writes a picture of it in the language DOT, which
the program dot of Graphviz draws: the states, and an arrow from one to another where some operation
leads there, with a line operation/response for each such operation.

",
    "  cnum draw < types/test_and_set.toml
writes digraph \"test_and_set\" with two arrows."
);

const AGREE_ABOUT: &str = "Runs the plan of a certificate's witness by a schedule";

const AGREE_AFTER: &str = help!(
    "\
Reads a type table in TOML from standard input and a certificate in JSON from the file CERT, and
checks the certificate. Lets each process of the plan begin with its number of INPUTS and take a
step wherever SCHEDULE names it. Writes for each process P a line, P: V where it has decided V,
else P: undecided. Whatever the schedule, all decisions are equal and are the number of a process
that the schedule names.

With --steps writes before these a line for each item of SCHEDULE, with what its process P does:
P: writes V to T of node N, where V is its value and T its team; P: applies O at node N: R, its
operation with the response; P: reads S at node N: team T, the state, and the team that it judges
to have come first; P: takes V from T of node N, the value of that team, with which it goes on;
P: decides V, the same at the last node of its path; and P: has decided, where it takes no step.

With --as json writes the decisions, and the steps if they are asked for, as one JSON object.

With --recoverable processes crash and come back: agree --recoverable FILE INPUTS SCHEDULE. The
type is in FILE, and there is no certificate. The plan is that of the first recording witness for N
processes, or without --processes N for as many as the recoverable number up to 8. In SCHEDULE P is
a step of process P, and cP a crash: the process begins again with its number. All decisions that
are ever made are equal, and each is the number of a process that has taken a step or has decided.
With --steps there are three lines more: P: crashes; P: reads S at node N: start state, before its
operation; P: finds nothing in T of node N, where no process of team T has written.

With --shortest runs the shortest plan, which show --shortest writes, and no process crashes: agree
--shortest FILE INPUTS SCHEDULE. The type is in FILE, and there is no certificate. The plan is for N
processes, or without --processes N for as many as the type brings to agreement, up to 8. The lines
name teams by their numbers, as team 0; where P does not look, P: applies O at node N: R, team T has
the team that it judges to have come first. With --without-read, beside --shortest or in its place,
runs the shortest plan of which no process reads, which show --without-read writes; where P looks by
an operation O that changes no state, the line is P: looks by O at node N: R, team T.

A list is numbers with a comma and no space between two, at most 65536 of them, or the word none.
INPUTS are from 0 to 18446744073709551615, one for each process, SCHEDULE is processes from 0 on.
@ and the name of a file stand for the list in that file: at most 1048576 bytes, with a line feed at
the end or none, and at most 303112 items.

",
    "  cnum agree types/test_and_set_at_3.json 10,20 1,1,0,0,0,0 < types/test_and_set.toml
writes 0: 20 and 1: undecided; with --steps, first 1: writes 20 to B of node 0."
);

const REPLAY_ABOUT: &str = "Serves an object by a list of events, with a certificate's witness";

const REPLAY_AFTER: &str = help!(
    "\
Reads a type table in TOML from standard input, a certificate in JSON from the file CERT and the
table of an object in TOML from the file OBJECT, and checks the certificate. The processes of the
plan serve the object, which starts in the state START, by a log of CAPACITY slots, from 1 to 1024.
EVENTS are iP:O, process P calls the operation of name or number O, and sP, process P takes a step,
with a comma and no space between two, at most 65536 of them, or the word none. @ and the name of a
file stand for the list in that file: at most 1048576 bytes, with a line feed at the end or none,
and at most 303112 events. Those of every run of serve fit: serve .. | sed -n 's/^events //p' > FILE

Writes answer P K R for each call of process P that is answered, with its slot K and its response
R, and full P for each that finds no slot, in the order of the events. Then writes entry K P O R S
for each call in the log: its slot K, which others may share, process P, operation O, response R
and the state S of the object afterwards. Whatever the events, the answers are those of one
sequential run, in the order of these lines.

With --as json this is one JSON object.

",
    "  cnum replay types/test_and_set_at_3.json types/counter_3.toml 0 4 i0:inc,s0,s0,s0,s0 < types/test_and_set.toml
writes entry 0 0 inc 0 1."
);

const SERVE_ABOUT: &str =
    "Serves an object by threads that make calls, with a certificate's witness";

const SERVE_AFTER: &str = help!(
    "\
Reads a type table in TOML from standard input, a certificate in JSON from the file CERT and the
table of an object in TOML from the file OBJECT, and checks the certificate. Each process of the
plan makes its calls in a thread of its own; they serve the object, which starts in the state START,
by a log of CAPACITY slots, from 1 to 1024. CALLS has a list for each process, with / between two:
the operations, by name or number, that it calls, with a comma and no space between two, at most
1024 of them, or the word none. @ and the name of a file stand for what that file holds: at most
1048576 bytes, with a line feed at the end or none.

Writes for each process P, from 0 on, answer P K R for each call that is answered, with its slot K
and its response R, in order, and full P for one that finds no slot, after which the process makes
no other. Then writes entry K P O R S for each call in the log: its slot K, which others may share,
process P, operation O, response R and the state S of the object afterwards. Last writes events L,
where L are the events as the threads came to make them, which replay reads. However they ran, the
answers are those of one sequential run, in the order of the entry lines.

With --as json this is one JSON object, with the list L.

",
    "  cnum serve types/test_and_set_at_3.json types/counter_3.toml 0 4 inc/none < types/test_and_set.toml
writes answer 0 0 0, entry 0 0 inc 0 1 and events i0:0,s0,s0,s0,s0,s0,s0."
);

/// A word that is required.
fn required_word<'a>(alloc: Global, id: &'a str, help: &'a str) -> Arg<'a>
    ensures { IsArgument (required_word id.entry.now) result }
{
    Arg::new(alloc, id).help(help).required(true)
}

/// An option with a value.
fn value_option<'a>(alloc: Global, id: &'a str, value: &'a str, help: &'a str) -> Arg<'a>
    ensures { IsArgument (value_option id.entry.now) result }
{
    Arg::new(alloc, id)
        .long(id)
        .value_name(value)
        .help(help)
        .action(ArgAction::Set)
}

/// The number of processes of a plan without a certificate.
fn processes<'a>(alloc: Global) -> Arg<'a>
    ensures { IsArgument processes_option result }
{
    let help = "How many processes there are, from 2 to 8, where there is no certificate";
    value_option(alloc, "processes", "N", help).value_parser(value_parser!(u8))
}

/// The limit of a search.
fn limit<'a>(alloc: Global) -> Arg<'a>
    ensures { IsArgument limit_option result }
{
    let help = "The greatest number looked for, from 2 to 8";
    value_option(alloc, "limit", "N", help).value_parser(value_parser!(u8))
}

/// The files of `classify`. Options may stand between them.
fn files<'a>(alloc: Global) -> Arg<'a>
    ensures { IsArgument (required_words (codes "FILE")) result }
{
    required_word(alloc, "FILE", "The files that hold the type tables")
        .num_args(1..)
        .action(ArgAction::Append)
}

/// The file of the table, if standard input is not.
fn table_option<'a>(alloc: Global) -> Arg<'a>
    ensures { IsArgument table_option result }
{
    let help = "The file that holds the type table, in place of standard input";
    value_option(alloc, "table", "FILE", help)
}

/// The same file as a last word, which may be left out.
fn file_word<'a>(alloc: Global) -> Arg<'a>
    ensures { IsArgument file_word result }
{
    Arg::new(alloc, "FILE").help("The file that holds the type table, in place of standard input")
}

/// The file of a certificate, or that of the table where there is none.
fn optional_certificate<'a>(alloc: Global) -> Arg<'a>
    ensures { IsArgument optional_certificate_word result }
{
    Arg::new(alloc, "CERT").help("The file that holds the certificate, or - for standard input")
}

/// The same file as a word that is required.
fn table_word<'a>(alloc: Global) -> Arg<'a>
    ensures { IsArgument table_word result }
{
    required_word(alloc, "table", "The file that holds the type table").value_name("FILE")
}

/// A flag.
fn flag<'a>(alloc: Global, id: &'a str, help: &'a str) -> Arg<'a>
    ensures { IsArgument (flag id.entry.now) result }
{
    Arg::new(alloc, id)
        .long(id)
        .help(help)
        .action(ArgAction::SetTrue)
}

/// The form in which a command writes.
fn form<'a>(alloc: Global, forms: &'static [&'static str], help: &'a str) -> Arg<'a>
    ensures { (parser : _) × TakesWords (texts forms.entry.now) parser
        × IsArgument (form_option parser) result }
{
    value_option(alloc, "as", "FORM", help)
        .value_parser(ValueParser::Names(forms))
        .default_value("text")
}

/// A command with no arguments yet.
fn bare_command<'a>(alloc: Global, name: &'a str, about: &'a str, after: &'a str) -> Command<'a>
    ensures { IsCommand (new_shape name.entry.now) result }
{
    Command::new(alloc, name).about(about).after_help(after)
}

// The next functions take the result of the last one, so that they alone end early for want of
// memory: each early end while a command lives is dear to prove.

/// Adds an argument behind the others.
fn with_argument<'a>(
    command: Result<Command<'a>, AllocError>,
    argument: Arg<'a>,
) -> Result<Command<'a>, AllocError>
    ensures { IfOk result (AddsArgument command.entry argument.entry) }
{
    command?.arg(argument)
}

/// Adds a command behind the others.
fn with_command<'a>(
    program: Result<Command<'a>, AllocError>,
    command: Result<Command<'a>, AllocError>,
) -> Result<Command<'a>, AllocError>
    ensures { IfOk result (AddsCommand program.entry command.entry) }
{
    let command = command?;
    program?.subcommand(command)
}

/// Adds the file of the table, as an option and as a last word.
fn with_table<'a>(
    alloc: Global,
    command: Result<Command<'a>, AllocError>,
) -> Result<Command<'a>, AllocError>
    ensures { IfOk result (AddsTable command.entry) }
{
    let with_option = with_argument(command, table_option(alloc));
    with_argument(with_option, file_word(alloc))
}

fn find<'a>(alloc: Global) -> Result<Command<'a>, AllocError>
    ensures { IfOk result (IsCommand find_words) }
{
    let stocks = "Writes a certificate by stocks, which is shorter, for every type";
    let without_read = "Writes a certificate of the number without reads, with no limit";
    let shortest = "Writes a certificate of the shortest plan, with no limit";
    let command = bare_command(alloc, "find", FIND_ABOUT, FIND_AFTER);
    let command = with_argument(Ok(command), limit(alloc));
    let command = with_argument(command, flag(alloc, "stocks", stocks));
    let command = with_argument(command, flag(alloc, "without-read", without_read));
    let command = with_argument(command, flag(alloc, "shortest", shortest));
    let command = with_argument(command, processes(alloc));
    with_table(alloc, command)
}

fn classify<'a>(alloc: Global) -> Result<Command<'a>, AllocError>
    ensures { IfOk result (IsCommandFor document_forms classify_words) }
{
    let recoverable = "Writes the recoverable number of each type too";
    let without_read = "Also writes the number of each type for objects that are not read";
    let help = "The form in which the numbers are written";
    let command = bare_command(alloc, "classify", CLASSIFY_ABOUT, CLASSIFY_AFTER);
    let command = with_argument(Ok(command), limit(alloc));
    let command = with_argument(command, flag(alloc, "recoverable", recoverable));
    let command = with_argument(command, flag(alloc, "without-read", without_read));
    let command = with_argument(command, form(alloc, &DOCUMENT_FORMS, help));
    with_argument(command, files(alloc))
}

fn lint<'a>(alloc: Global) -> Result<Command<'a>, AllocError>
    ensures { IfOk result (IsCommandFor answer_forms lint_words) }
{
    let help = "The form in which the table or its flaws are written";
    let command = bare_command(alloc, "lint", LINT_ABOUT, LINT_AFTER);
    let command = with_argument(Ok(command), form(alloc, &ANSWER_FORMS, help));
    with_table(alloc, command)
}

/// A command that reads a certificate.
fn with_certificate<'a>(
    alloc: Global,
    name: &'a str,
    about: &'a str,
    after: &'a str,
) -> Result<Command<'a>, AllocError>
    ensures { IfOk result (IsCommand (command_with name.entry.now (certificate_word ∷ []))) }
{
    let command = bare_command(alloc, name, about, after);
    let certificate = "The file that holds the certificate, or - for standard input";
    let certificate = required_word(alloc, "CERT", certificate);
    with_argument(Ok(command), certificate)
}

fn check<'a>(alloc: Global) -> Result<Command<'a>, AllocError>
    ensures { IfOk result (IsCommandFor answer_forms check_words) }
{
    let help = "The form in which the answer is written";
    let stocks = "Checks a certificate by stocks";
    let without_read = "Checks a certificate of the number without reads";
    let shortest = "Checks a certificate of a plan, and tells how short the plan is";
    let command = with_certificate(alloc, "check", CHECK_ABOUT, CHECK_AFTER);
    let command = with_argument(command, flag(alloc, "stocks", stocks));
    let command = with_argument(command, flag(alloc, "without-read", without_read));
    let command = with_argument(command, flag(alloc, "shortest", shortest));
    let command = with_argument(command, form(alloc, &ANSWER_FORMS, help));
    with_table(alloc, command)
}

/// Whether a command tells all that it has to tell, or the first alone.
fn all<'a>(alloc: Global) -> Arg<'a>
    ensures { IsArgument (flag (codes "all")) result }
{
    let all = "Tells all choices that are refuted, not the first 12 alone";
    flag(alloc, "all", all)
}

fn explain<'a>(alloc: Global) -> Result<Command<'a>, AllocError>
    ensures { IfOk result (IsCommandFor answer_forms explain_words) }
{
    let stocks = "Explains a certificate by stocks";
    let help = "The form in which the reasons are written";
    let command = with_certificate(alloc, "explain", EXPLAIN_ABOUT, EXPLAIN_AFTER);
    let command = with_argument(command, flag(alloc, "stocks", stocks));
    let command = with_argument(command, all(alloc));
    let command = with_argument(command, form(alloc, &ANSWER_FORMS, help));
    with_table(alloc, command)
}

fn why<'a>(alloc: Global) -> Result<Command<'a>, AllocError>
    ensures { IfOk result (IsCommandFor document_forms why_words) }
{
    let stocks = "Tells it by a certificate by stocks, for every type";
    let recoverable = "Tells why the recoverable number is what it is, with no limit";
    let without_read = "Tells why the number without reads is what it is, with no limit";
    let help = "The form in which the reasons are written";
    let command = bare_command(alloc, "why", WHY_ABOUT, WHY_AFTER);
    let command = with_argument(Ok(command), table_word(alloc));
    let command = with_argument(command, limit(alloc));
    let command = with_argument(command, flag(alloc, "stocks", stocks));
    let command = with_argument(command, flag(alloc, "recoverable", recoverable));
    let command = with_argument(command, flag(alloc, "without-read", without_read));
    let command = with_argument(command, all(alloc));
    with_argument(command, form(alloc, &DOCUMENT_FORMS, help))
}

fn pairs<'a>(alloc: Global) -> Result<Command<'a>, AllocError>
    ensures { IfOk result (IsCommandFor document_forms pairs_words) }
{
    let help = "The form in which the numbers are written";
    let command = bare_command(alloc, "pairs", PAIRS_ABOUT, PAIRS_AFTER);
    let command = with_argument(Ok(command), table_word(alloc));
    with_argument(command, form(alloc, &DOCUMENT_FORMS, help))
}

fn changes<'a>(alloc: Global) -> Result<Command<'a>, AllocError>
    ensures { IfOk result (IsCommandFor document_forms changes_words) }
{
    let recoverable = "Tells recoverable numbers";
    let without_read = "Tells numbers for objects that are not read";
    let pairs = "Tries changes of two entries where none of one raises the number";
    let help = "The form in which the numbers are written";
    let command = bare_command(alloc, "changes", CHANGES_ABOUT, CHANGES_AFTER);
    let command = with_argument(Ok(command), table_word(alloc));
    let command = with_argument(command, flag(alloc, "recoverable", recoverable));
    let command = with_argument(command, flag(alloc, "without-read", without_read));
    let command = with_argument(command, flag(alloc, "pairs", pairs));
    with_argument(command, form(alloc, &DOCUMENT_FORMS, help))
}

fn show<'a>(alloc: Global) -> Result<Command<'a>, AllocError>
    ensures { IfOk result (IsCommandFor plan_forms show_words) }
{
    let recoverable = "Writes the plan of processes that come back: CERT is the table";
    let shortest = "Writes the shortest plan, with no certificate: CERT is the table";
    let without_read = "Writes the shortest plan of which no process reads";
    let help = "The form in which the plan is written";
    let object = "The file that holds the table of an object, which the program then has too";
    let start = "The state in which the object starts";
    let prefix = "What stands in the names of a program in C, in place of consensus";
    let command = bare_command(alloc, "show", SHOW_ABOUT, SHOW_AFTER);
    let command = with_argument(Ok(command), optional_certificate(alloc));
    let command = with_argument(command, flag(alloc, "recoverable", recoverable));
    let command = with_argument(command, flag(alloc, "shortest", shortest));
    let command = with_argument(command, flag(alloc, "without-read", without_read));
    let command = with_argument(command, processes(alloc));
    let command = with_argument(command, form(alloc, &PLAN_FORMS, help));
    let command = with_argument(command, value_option(alloc, "object", "OBJECT", object));
    let command = with_argument(command, value_option(alloc, "start", "STATE", start));
    let command = with_argument(command, value_option(alloc, "prefix", "NAME", prefix));
    with_table(alloc, command)
}

fn draw<'a>(alloc: Global) -> Result<Command<'a>, AllocError>
    ensures { IfOk result (IsCommand draw_words) }
{
    let command = bare_command(alloc, "draw", DRAW_ABOUT, DRAW_AFTER);
    with_table(alloc, Ok(command))
}

fn agree<'a>(alloc: Global) -> Result<Command<'a>, AllocError>
    ensures { IfOk result (IsCommandFor answer_forms agree_words) }
{
    let inputs = "The numbers that the processes begin with, or @FILE";
    let schedule = "The processes in the order of their steps, or @FILE";
    let steps = "Tells what each step does, before the decisions";
    let crashes = "Lets processes crash: CERT is the table, and a cP in SCHEDULE a crash";
    let shortest = "Runs the shortest plan, with no certificate: CERT is the table";
    let without_read = "Runs the shortest plan of which no process reads";
    let help = "The form in which the run is written";
    let command = with_certificate(alloc, "agree", AGREE_ABOUT, AGREE_AFTER);
    let command = with_argument(command, required_word(alloc, "INPUTS", inputs));
    let command = with_argument(command, required_word(alloc, "SCHEDULE", schedule));
    let command = with_argument(command, flag(alloc, "steps", steps));
    let command = with_argument(command, flag(alloc, "recoverable", crashes));
    let command = with_argument(command, flag(alloc, "shortest", shortest));
    let command = with_argument(command, flag(alloc, "without-read", without_read));
    let command = with_argument(command, processes(alloc));
    let command = with_argument(command, form(alloc, &ANSWER_FORMS, help));
    with_table(alloc, command)
}

/// A command that serves an object.
fn with_object<'a>(
    alloc: Global,
    name: &'a str,
    about: &'a str,
    after: &'a str,
) -> Result<Command<'a>, AllocError>
    ensures { IfOk result (IsCommand (command_with name.entry.now opening_words)) }
{
    let object = "The file that holds the table of the object";
    let start = "The state in which the object starts";
    let capacity = "How many slots the log has";
    let command = with_certificate(alloc, name, about, after);
    let command = with_argument(command, required_word(alloc, "OBJECT", object));
    let command = with_argument(command, required_word(alloc, "START", start));
    with_argument(command, required_word(alloc, "CAPACITY", capacity))
}

fn replay<'a>(alloc: Global) -> Result<Command<'a>, AllocError>
    ensures { IfOk result (IsCommandFor answer_forms replay_words) }
{
    let events = "The events, in order, or @FILE";
    let help = "The form in which the log is written";
    let command = with_object(alloc, "replay", REPLAY_ABOUT, REPLAY_AFTER);
    let command = with_argument(command, required_word(alloc, "EVENTS", events));
    let command = with_argument(command, form(alloc, &ANSWER_FORMS, help));
    with_table(alloc, command)
}

fn serve<'a>(alloc: Global) -> Result<Command<'a>, AllocError>
    ensures { IfOk result (IsCommandFor answer_forms serve_words) }
{
    let calls = "The calls of each process, in order, or @FILE";
    let help = "The form in which the log is written";
    let command = with_object(alloc, "serve", SERVE_ABOUT, SERVE_AFTER);
    let command = with_argument(command, required_word(alloc, "CALLS", calls));
    let command = with_argument(command, form(alloc, &ANSWER_FORMS, help));
    with_table(alloc, command)
}

/// The program without commands.
fn program<'a>(alloc: Global) -> Command<'a>
    ensures { HasCommands [] result }
{
    Command::new(alloc, "cnum")
        .version(VERSION)
        .about(ABOUT)
        .after_help(AFTER)
        .subcommand_required(true)
}

/// The grammar of the program: its commands in this order, each with its arguments.
pub fn command<'a>(alloc: Global) -> Result<Command<'a>, AllocError>
    // promise: commands (HasCommandsFor)
    ensures { IfOk result (HasCommandsFor commands) }
{
    let to_find = with_command(Ok(program(alloc)), find(alloc));
    let to_classify = with_command(to_find, classify(alloc));
    let to_lint = with_command(to_classify, lint(alloc));
    let to_check = with_command(to_lint, check(alloc));
    let to_explain = with_command(to_check, explain(alloc));
    let to_why = with_command(to_explain, why(alloc));
    let to_pairs = with_command(to_why, pairs(alloc));
    let to_changes = with_command(to_pairs, changes(alloc));
    let to_show = with_command(to_changes, show(alloc));
    let to_draw = with_command(to_show, draw(alloc));
    let to_agree = with_command(to_draw, agree(alloc));
    let to_replay = with_command(to_agree, replay(alloc));
    with_command(to_replay, serve(alloc))
}
