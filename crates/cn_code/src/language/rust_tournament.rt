//! The words of Rust for plans of two teams at each node.
ghost use Rattle.std.specs.Prelude.{◌≡◌};
ghost use Rattle.cn_code.specs.TournamentRustWords.{rust_own_tournament_word, rust_tournament_word};

use crate::language::{OwnPart, TournamentPart};

const MEET: &str = "\
in a tournament: each node has an object, and a
// register for each of two teams.";

const BOUND: &str = "\
four steps at each of its
// places: at most `STEPS` until it decides, whatever the others do.";

pub(super) const READ: &str = "
    /// Reads the state.
    fn read(&self) -> usize;
";

const PLACE: &str = "\
];

/// The teams of a node.
const A: usize = 0;
const B: usize = 1;

/// A place of a process: its node, and its team, role and operation there.
struct Place {
    process: usize,
    node: usize,
    team: usize,
    role: usize,
    operation: usize,
}
";

const JUDGEMENTS: &str = "\
];

/// The judgements: for each role, response and state the team that came first at the node. The
/// comment names the response, and the states for which this is team A.
#[rustfmt::skip]
const JUDGEMENTS: [[[usize; STATES.len()]; RESPONSES.len()]; PROCESSES] = [
";

const JUDGE: &str = "\
// Step 3: read the object. Response and state tell which team came first.
            let state = node.object.read();
            let first = JUDGEMENTS[place.role][response][state];
            // Step 4";

pub(super) const CHECK_OPERATION: &str = "
/// Checks one operation behind a way.
fn check_operation<O: Object, F: FnMut(usize) -> O>(way: Way, operation: usize, make: &mut F) {
    let (response, next) = TRANSITIONS[operation][way.state];
    let (name, state) = (OPERATIONS[operation], STATES[way.state]);
    let object = way.object(make);
    let found = object.read();
    assert!(
        found == way.state,
        \"an object is in the state {}, and not in {state}\",
        name_of(STATES, found),
    );
    let found = object.apply(operation);
    assert!(
        found == response,
        \"{name} in the state {state} responds {}, and not {}\",
        name_of(RESPONSES, found),
        RESPONSES[response],
    );
    let found = object.read();
    assert!(
        found == next,
        \"{name} leads from the state {state} to {}, and not to {}\",
        name_of(STATES, found),
        STATES[next],
    );
}
";

pub(super) fn rust_tournament_word(part: TournamentPart) -> &'static str
    ensures { result.now ≡ rust_tournament_word part }
{
    match part {
        TournamentPart::RoleField => ", role: ",
        TournamentPart::RoleNumber => "    // role ",
        TournamentPart::RoleOperation => ": ",
        TournamentPart::Team => "",
    }
}

pub(super) fn rust_own_tournament_word(part: OwnPart) -> &'static str
    ensures { result.now ≡ rust_own_tournament_word part }
{
    match part {
        OwnPart::Meet => MEET,
        OwnPart::Bound => BOUND,
        OwnPart::Read => READ,
        OwnPart::Figure => "tournament",
        OwnPart::Place => PLACE,
        OwnPart::Judgements => JUDGEMENTS,
        OwnPart::Row => "        [",
        OwnPart::ResponseName => "], // ",
        OwnPart::Judge => JUDGE,
        OwnPart::CheckOperation => CHECK_OPERATION,
    }
}
