//! The words of Rust for plan trees.
ghost use Rattle.std.specs.Prelude.{◌≡◌};
ghost use Rattle.cn_code.specs.TreeRustWords.{rust_blind_word, rust_look_word, rust_tree_word};

use crate::language::rust_tournament::{CHECK_OPERATION, READ};
use crate::language::{OwnPart, TreePart};

const LOOK_MEET: &str = "\
at the nodes of a tree: each node has an object, and a
// register for each of its teams.";

const LOOK_BOUND: &str = "\
three steps at each of its
// places, or four where it looks: at most `STEPS` until it decides, whatever the others do.";

const LOOK_PLACE: &str = "\
];

/// A place of a process: its node, its team and operation there, whether it looks at the object, and
/// its judgement.
struct Place {
    process: usize,
    node: usize,
    team: usize,
    operation: usize,
    looks: bool,
    judgement: usize,
}
";

const LOOK_JUDGEMENTS: &str = "\
];

/// The judgements: for each response, and each state where the process looks, the team that came
/// first at the node. The comment names the response. Places at which processes judge alike have
/// one judgement.
#[rustfmt::skip]
const JUDGEMENTS: &[[&[usize]; RESPONSES.len()]] = &[
";

const LOOK_JUDGE: &str = "\
// Step 3, where the process looks: read the object. The response, and the state that was
            // read, tell which team came first.
            let state = if place.looks { node.object.read() } else { 0 };
            let first = JUDGEMENTS[place.judgement][response][state];
            // Last step";

const BLIND_MEET: &str = "\
at the nodes of a tree: each node has an object, and a
// register for each of its teams.";

const BLIND_BOUND: &str = "\
three steps at each of its
// places: at most `STEPS` until it decides, whatever the others do. No process reads an object.";

const BLIND_PLACE: &str = "\
];

/// A place of a process: its node, and its team, operation and judgement there.
struct Place {
    process: usize,
    node: usize,
    team: usize,
    operation: usize,
    judgement: usize,
}
";

const BLIND_JUDGEMENTS: &str = "\
];

/// The judgements: for each response the team that came first at the node. The comment names the
/// response. Places at which processes judge alike have one judgement.
#[rustfmt::skip]
const JUDGEMENTS: &[[usize; RESPONSES.len()]] = &[
";

const BLIND_JUDGE: &str = "\
// The response tells which team came first.
            let first = JUDGEMENTS[place.judgement][response];
            // Step 3";

pub(super) const BLIND_CHECK_OPERATION: &str = "
/// Checks one operation behind a way. The next state shows in what all operations then respond.
fn check_operation<O: Object, F: FnMut(usize) -> O>(way: Way, operation: usize, make: &mut F) {
    let (response, next) = TRANSITIONS[operation][way.state];
    let (name, state) = (OPERATIONS[operation], STATES[way.state]);
    let found = way.object(make).apply(operation);
    assert!(
        found == response,
        \"{name} in the state {state} responds {}, and not {}\",
        name_of(RESPONSES, found),
        RESPONSES[response],
    );
    for probe in 0..OPERATIONS.len() {
        let found = way.then(operation).object(make).apply(probe);
        let (response, _) = TRANSITIONS[probe][next];
        assert!(
            found == response,
            \"{} behind {name} in the state {state} responds {}, and not {}\",
            OPERATIONS[probe],
            name_of(RESPONSES, found),
            RESPONSES[response],
        );
    }
}
";

pub(super) fn rust_tree_word(part: TreePart) -> &'static str
    ensures { result.now ≡ rust_tree_word part }
{
    match part {
        TreePart::LooksField => ", looks: ",
        TreePart::LookField => ", look: Some(",
        TreePart::LookEnd => ")",
        TreePart::NoLook => ", look: None",
        TreePart::LookName => ", look: ",
        TreePart::JudgementField => ", judgement: ",
        TreePart::JudgementNumber => "    // judgement ",
    }
}

/// Where some process reads, and none looks by an operation.
pub(super) fn rust_look_word(part: OwnPart) -> &'static str
    ensures { result.now ≡ rust_look_word part }
{
    match part {
        OwnPart::Meet => LOOK_MEET,
        OwnPart::Bound => LOOK_BOUND,
        OwnPart::Read => READ,
        OwnPart::Figure => "tree",
        OwnPart::Place => LOOK_PLACE,
        OwnPart::Judgements => LOOK_JUDGEMENTS,
        OwnPart::Row => "        &[",
        OwnPart::ResponseName => "], // ",
        OwnPart::Judge => LOOK_JUDGE,
        OwnPart::CheckOperation => CHECK_OPERATION,
    }
}

/// Where no process looks.
pub(super) fn rust_blind_word(part: OwnPart) -> &'static str
    ensures { result.now ≡ rust_blind_word part }
{
    match part {
        OwnPart::Meet => BLIND_MEET,
        OwnPart::Bound => BLIND_BOUND,
        OwnPart::Read => "",
        OwnPart::Figure => "tree",
        OwnPart::Place => BLIND_PLACE,
        OwnPart::Judgements => BLIND_JUDGEMENTS,
        OwnPart::Row => "        ",
        OwnPart::ResponseName => ", // ",
        OwnPart::Judge => BLIND_JUDGE,
        OwnPart::CheckOperation => BLIND_CHECK_OPERATION,
    }
}
