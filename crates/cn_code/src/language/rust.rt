//! The words of Rust.
ghost use Rattle.std.specs.Prelude.{◌≡◌};
ghost use Rattle.cn_code.specs.RustWords.{rust_own_word, rust_program_word, rust_word};

use crate::language::rust_looks::{rust_mixed_word, rust_response_word};
use crate::language::rust_object::rust_object_word;
use crate::language::rust_tournament::{rust_own_tournament_word, rust_tournament_word};
use crate::language::rust_tree::{rust_blind_word, rust_look_word, rust_tree_word};
use crate::language::{Form, OwnPart, Part, ProgramPart};

const PROGRAM_OBJECT: &str = "
/// An object of the type. Threads share it. Each call is one atomic step, in the one order of all
/// `SeqCst` operations.
pub trait Object {
    /// Applies an operation, and returns the response.
    fn apply(&self, operation: usize) -> usize;
";

const PROGRAM_NODE: &str = "\
}

/// A node of the ";

const PROGRAM_STEPS: &str = "\
.
#[derive(Debug)]
struct Node<O> {
    object: O,
    registers: [AtomicU64; TEAMS],
}

/// One decision of all processes.
#[derive(Debug)]
pub struct Consensus<O> {
    nodes: [Node<O>; NODES],
}

impl<O: Object> Consensus<O> {
    /// Makes a decision and the handle of each process.
    ///
    /// `make` makes an object in a state, one for each node. `share` puts the decision where the
    /// processes share it: `Arc::new`, or `|it| &*place.insert(it)` with a `place` of `None`.
    #[allow(dead_code)]
    pub fn processes<P>(
        make: impl FnMut(usize) -> O,
        share: impl FnOnce(Self) -> P,
    ) -> [Process<P>; PROCESSES]
    where
        P: Deref<Target = Self> + Clone,
    {
        let consensus = share(Consensus::new(make));
        array::from_fn(|number| Process {
            consensus: consensus.clone(),
            number,
        })
    }

    fn new(make: impl FnMut(usize) -> O) -> Self {
        Consensus {
            nodes: STARTS.map(make).map(|object| Node {
                object,
                registers: array::from_fn(|_| AtomicU64::new(0)),
            }),
        }
    }

    /// Takes the steps of a process, which proposes a value, and returns the value that all decide.
    fn decide(&self, process: usize, value: u64) -> u64 {
        let mut value = value;
        for place in PLACES.iter().filter(|place| place.process == process) {
            let node = &self.nodes[place.node];
            // Step 1: write the value to the register of the own team.
            node.registers[place.team].store(value, SeqCst);
            // Step 2: apply the operation to the object.
            let response = node.object.apply(place.operation);
            ";

const PROGRAM_TAKE: &str = "\
: read the register of that team. Go on with its value, or decide it.
            value = node.registers[first].load(SeqCst);
        }
        value
    }
}

/// The handle of a process on a [`Consensus`]. There is one for each, and no copy.
#[derive(Debug)]
pub struct Process<P> {
    consensus: P,
    number: usize,
}

#[allow(dead_code)]
impl<O: Object, P: Deref<Target = Consensus<O>>> Process<P> {
    /// The number of the process, below `PROCESSES`.
    pub fn number(&self) -> usize {
        self.number
    }

    /// Proposes a value, and returns the value that all processes decide.
    ///
    /// # Panics
    ///
    /// If an object responds or reads what its table does not have.
    pub fn decide(self, value: u64) -> u64 {
        self.consensus.decide(self.number, value)
    }
}

/// Tries objects against the table, in a test of yours: `make` makes an object in a state.
///
/// An object is in the state of `STARTS` in which it was made. In each state to which operations
/// lead from there, each operation has the response and leads to the state that the table says.
///
/// # Panics
///
/// If this does not hold. The text names the state and the operation.
#[allow(dead_code)]
pub fn check_object<O: Object>(mut make: impl FnMut(usize) -> O) {
    let mut seen = [false; STATES.len()];
    for start in STARTS {
        check_from(Way::new(start), &mut make, &mut seen);
    }
}

/// How an object came to a state.
#[derive(Clone, Copy)]
struct Way {
    start: usize,
    operations: [usize; STATES.len()],
    length: usize,
    state: usize,
}

impl Way {
    fn new(start: usize) -> Self {
        Way {
            start,
            operations: [0; STATES.len()],
            length: 0,
            state: start,
        }
    }

    /// The way with one more operation.
    fn then(mut self, operation: usize) -> Self {
        self.operations[self.length] = operation;
        self.length += 1;
        self.state = TRANSITIONS[operation][self.state].1;
        self
    }

    /// An object that has come this way.
    fn object<O: Object>(&self, make: &mut impl FnMut(usize) -> O) -> O {
        let object = make(self.start);
        for operation in &self.operations[..self.length] {
            object.apply(*operation);
        }
        object
    }
}

/// Checks the operations behind a way, and so on from each state that has not been seen.
fn check_from<O: Object, F: FnMut(usize) -> O>(
    way: Way,
    make: &mut F,
    seen: &mut [bool; STATES.len()],
) {
    if mem::replace(&mut seen[way.state], true) {
        return;
    }
    for operation in 0..OPERATIONS.len() {
        check_operation(way, operation, make);
        check_from(way.then(operation), make, seen);
    }
}
";

const PROGRAM_CHECK_END: &str = "
fn name_of(names: &[&'static str], number: usize) -> &'static str {
    names.get(number).unwrap_or(&\"a number with no name\")
}
";

const PROGRAM_END: &str = "
/// One decision on a value of any type: the processes elect one of them, and take its value.
#[derive(Debug)]
pub struct Election<O, T> {
    consensus: Consensus<O>,
    proposals: [Proposal<T>; PROCESSES],
}

/// The value of a process, which it publishes before its first step.
struct Proposal<T> {
    is_taken: AtomicBool,
    is_published: AtomicBool,
    value: UnsafeCell<Option<T>>,
}

// SAFETY: `publish` takes a value from one thread, and all get references to it.
unsafe impl<T: Send + Sync> Sync for Proposal<T> {}

impl<T> Proposal<T> {
    fn new() -> Self {
        Proposal {
            is_taken: AtomicBool::new(false),
            is_published: AtomicBool::new(false),
            value: UnsafeCell::new(None),
        }
    }

    fn publish(&self, value: T) {
        // A process has one handle, if `share` hands out what it was given. No step needs this.
        let is_taken = self.is_taken.swap(true, SeqCst);
        assert!(!is_taken, \"a process proposes twice\");
        // SAFETY: only one thread comes here, and `get` does not look before the store below.
        unsafe { *self.value.get() = Some(value) };
        self.is_published.store(true, SeqCst);
    }

    fn get(&self) -> Option<&T> {
        if !self.is_published.load(SeqCst) {
            return None;
        }
        // SAFETY: the value is published, and nobody writes it any more.
        unsafe { (*self.value.get()).as_ref() }
    }
}

impl<T: fmt::Debug> fmt::Debug for Proposal<T> {
    fn fmt(&self, text: &mut fmt::Formatter<'_>) -> fmt::Result {
        self.get().fmt(text)
    }
}

#[allow(dead_code)]
impl<O: Object, T> Election<O, T> {
    /// Makes a decision and the handle of each process, as [`Consensus::processes`] does.
    pub fn candidates<P>(
        make: impl FnMut(usize) -> O,
        share: impl FnOnce(Self) -> P,
    ) -> [Candidate<P>; PROCESSES]
    where
        P: Deref<Target = Self> + Clone,
    {
        let election = share(Election {
            consensus: Consensus::new(make),
            proposals: array::from_fn(|_| Proposal::new()),
        });
        array::from_fn(|number| Candidate {
            election: election.clone(),
            number,
        })
    }
}

/// The handle of a process on an [`Election`]. There is one for each, and no copy.
#[derive(Debug)]
pub struct Candidate<P> {
    election: P,
    number: usize,
}

#[allow(dead_code)]
impl<O: Object, T, P: Deref<Target = Election<O, T>>> Candidate<P> {
    /// The number of the process, below `PROCESSES`.
    pub fn number(&self) -> usize {
        self.number
    }

    /// Proposes a value, and returns the value that all processes decide.
    ///
    /// # Panics
    ///
    /// If an object breaks its table, as far as this shows.
    pub fn decide(self, value: T) -> Elected<P> {
        self.election.proposals[self.number].publish(value);
        // A register that nobody has written holds 0.
        let mine = self.number as u64 + 1;
        let decided = self.election.consensus.decide(self.number, mine);
        assert!(decided > 0, \"an object breaks its table\");
        Elected {
            election: self.election,
            number: decided as usize - 1,
        }
    }
}

/// The value that all processes decide, and the number of the process that proposed it.
#[derive(Debug)]
pub struct Elected<P> {
    election: P,
    number: usize,
}

#[allow(dead_code)]
impl<O, T, P: Deref<Target = Election<O, T>>> Elected<P> {
    /// The number of the process that proposed the value.
    pub fn number(&self) -> usize {
        self.number
    }

    /// The value.
    pub fn value<'a>(&'a self) -> &'a T
    where
        O: 'a,
    {
        let value = self.election.proposals[self.number].get();
        value.expect(\"who is elected has published its value\")
    }
}
";

const INTRO: &str = "\
`.
//
// `cnum` wrote this file. The processes meet ";

const CLAIMS: &str = " All processes decide one value, and one of them has proposed it.
// This holds for every schedule, and if processes stop. A process takes ";

const TRUST: &str = "
//
// The proof of this is about atomic steps in one order, so each atomic operation here is `SeqCst`.
// It trusts that the atomics of the machine keep this order, and that the objects keep to their
// table, which `check_object` tries. The file needs Rust 1.63 or later and `core` alone. Only its
// last part, on values of any type, has unsafe code, and nothing else needs that part.
";

const USES: &str = "
use core::array;
use core::cell::UnsafeCell;
use core::fmt;
use core::mem;
use core::ops::Deref;
use core::sync::atomic::{AtomicBool, AtomicU64, Ordering::SeqCst};

";

const PROCESSES: &str = "\
/// The number of processes.
pub const PROCESSES: usize = ";

const NODES: &str = "\
;

/// The number of nodes. Node 0 is the root, where every process decides.
pub const NODES: usize = ";

const TEAMS: &str = "\
;

/// The number of registers of each node: the most teams that a node has.
pub const TEAMS: usize = ";

const STEPS: &str = "\
;

/// The most steps that a process takes until it decides.
#[allow(dead_code)]
pub const STEPS: usize = ";

const STATES: &str = "\
;

/// The names of the states. Everywhere else a state is its number.
#[rustfmt::skip]
pub const STATES: &[&str] = &[
";

const OPERATIONS: &str = "\
];

/// The names of the operations. Everywhere else an operation is its number.
#[rustfmt::skip]
pub const OPERATIONS: &[&str] = &[
";

const RESPONSES: &str = "\
];

/// The names of the responses. Everywhere else a response is its number.
#[rustfmt::skip]
pub const RESPONSES: &[&str] = &[
";

const TRANSITIONS: &str = "\
];

/// The table of the type: for each operation and state the response and the next state.
#[rustfmt::skip]
pub const TRANSITIONS: [[(usize, usize); STATES.len()]; OPERATIONS.len()] = [
";

const STARTS: &str = "\
];

/// The state in which the object of each node starts.
#[rustfmt::skip]
pub const STARTS: [usize; NODES] = [
";

const PLACE_LINES: &str = "\
: the places of each process, from its lowest node to the root.
#[rustfmt::skip]
const PLACES: &[Place] = &[
";

const JUDGEMENT_START: &str = "
    [
";

/// The objects, the registers and the algorithm.
pub(super) fn rust_program_word(part: ProgramPart) -> &'static str
    ensures { result.now ≡ rust_program_word part }
{
    match part {
        ProgramPart::Object => PROGRAM_OBJECT,
        ProgramPart::Node => PROGRAM_NODE,
        ProgramPart::Steps => PROGRAM_STEPS,
        ProgramPart::Take => PROGRAM_TAKE,
        ProgramPart::CheckEnd => PROGRAM_CHECK_END,
        ProgramPart::End => PROGRAM_END,
    }
}

/// The words of a form.
fn rust_own_word(form: Form, part: OwnPart) -> &'static str
    ensures { result.now ≡ rust_own_word form part }
{
    match form {
        Form::Tournament => rust_own_tournament_word(part),
        Form::LookTree => rust_look_word(part),
        Form::BlindTree => rust_blind_word(part),
        Form::ResponseTree => rust_response_word(part),
        Form::MixedTree => rust_mixed_word(part),
    }
}

pub(super) fn rust_word(part: Part) -> &'static str
    ensures { result.now ≡ rust_word part }
{
    match part {
        Part::Title => "// Consensus among ",
        Part::TypeName => " processes through objects of the type `",
        Part::Intro => INTRO,
        Part::Claims => CLAIMS,
        Part::Trust => TRUST,
        Part::Uses => USES,
        Part::Processes => PROCESSES,
        Part::Nodes => NODES,
        Part::Teams => TEAMS,
        Part::Steps => STEPS,
        Part::States => STATES,
        Part::Operations => OPERATIONS,
        Part::Responses => RESPONSES,
        Part::Name => "    \"",
        Part::NameNumber => "\", // ",
        Part::Transitions => TRANSITIONS,
        Part::TransitionRow => "    [",
        Part::TransitionResponse => "(",
        Part::TransitionNext => ", ",
        Part::TransitionEnd => ")",
        Part::TransitionName => "], // ",
        Part::Starts => STARTS,
        Part::StartState => "    ",
        Part::StartNode => ", // node ",
        Part::StartName => ": ",
        Part::Places => "\n/// The ",
        Part::PlaceLines => PLACE_LINES,
        Part::ProcessField => "    Place { process: ",
        Part::NodeField => ", node: ",
        Part::TeamField => ", team: ",
        Part::OperationField => ", operation: ",
        Part::OperationName => " }, // ",
        Part::JudgementStart => JUDGEMENT_START,
        Part::JudgementEnd => "    ],\n",
        Part::TablesEnd => "];\n",
        Part::LineEnd => "\n",
        Part::Program(part) => rust_program_word(part),
        Part::Interface(_) => "",
        Part::InObject(part) => rust_object_word(part),
        Part::InTournament(part) => rust_tournament_word(part),
        Part::InTree(part) => rust_tree_word(part),
        Part::Own(form, part) => rust_own_word(form, part),
    }
}
