//! The words of Rust for plan trees in which some process looks by an operation.
ghost use Rattle.std.specs.Prelude.{◌≡◌};
ghost use Rattle.cn_code.specs.LookRustWords.{rust_mixed_word, rust_response_word};

use crate::language::OwnPart;
use crate::language::rust_tournament::{CHECK_OPERATION, READ};
use crate::language::rust_tree::BLIND_CHECK_OPERATION;

const RESPONSE_MEET: &str = "\
at the nodes of a tree: each node has an object, and a
// register for each of its teams.";

const RESPONSE_BOUND: &str = "\
three steps at each of its
// places, or four where it looks: at most `STEPS` until it decides, whatever the others do. To
// look is to apply one more operation, which changes no state, and to get its response. No process
// reads an object.";

const RESPONSE_PLACE: &str = "\
];

/// A place of a process: its node, its team and operation there, the operation by which it looks at
/// the object, if it does, and its judgement.
struct Place {
    process: usize,
    node: usize,
    team: usize,
    operation: usize,
    look: Option<usize>,
    judgement: usize,
}
";

const RESPONSE_JUDGEMENTS: &str = "\
];

/// The judgements: for each response, and each response to the look where the process looks, the
/// team that came first at the node. The comment names the response. Places at which processes
/// judge alike have one judgement.
#[rustfmt::skip]
const JUDGEMENTS: &[[&[usize]; RESPONSES.len()]] = &[
";

const RESPONSE_JUDGE: &str = "\
// Step 3, where the process looks: apply the operation of the look, which changes no
            // state. Both responses tell which team came first.
            let seen = match place.look {
                Some(look) => node.object.apply(look),
                None => 0,
            };
            let first = JUDGEMENTS[place.judgement][response][seen];
            // Last step";

const MIXED_MEET: &str = "\
at the nodes of a tree: each node has an object, and a
// register for each of its teams.";

const MIXED_BOUND: &str = "\
three steps at each of its
// places, or four where it looks: at most `STEPS` until it decides, whatever the others do. To
// look is to read the object, or to apply one more operation, which changes no state, and to get
// its response.";

const MIXED_PLACE: &str = "\
];

/// A place of a process: its node, its team and operation there, whether it looks at the object,
/// the operation by which it looks, if it does not read the state, and its judgement.
struct Place {
    process: usize,
    node: usize,
    team: usize,
    operation: usize,
    looks: bool,
    look: Option<usize>,
    judgement: usize,
}
";

const MIXED_JUDGEMENTS: &str = "\
];

/// The judgements: for each response, and each state or response that the process sees where it
/// looks, the team that came first at the node. The comment names the response. Places at which
/// processes judge alike have one judgement.
#[rustfmt::skip]
const JUDGEMENTS: &[[&[usize]; RESPONSES.len()]] = &[
";

const MIXED_JUDGE: &str = "\
// Step 3, where the process looks: apply the operation of the look, which changes no
            // state, or else read the object. The response, and what was seen, tell which team
            // came first.
            let seen = match place.look {
                Some(look) => node.object.apply(look),
                None if place.looks => node.object.read(),
                None => 0,
            };
            let first = JUDGEMENTS[place.judgement][response][seen];
            // Last step";

/// Where some process looks by an operation, and none reads.
pub(super) fn rust_response_word(part: OwnPart) -> &'static str
    ensures { result.now ≡ rust_response_word part }
{
    match part {
        OwnPart::Meet => RESPONSE_MEET,
        OwnPart::Bound => RESPONSE_BOUND,
        OwnPart::Read => "",
        OwnPart::Figure => "tree",
        OwnPart::Place => RESPONSE_PLACE,
        OwnPart::Judgements => RESPONSE_JUDGEMENTS,
        OwnPart::Row => "        &[",
        OwnPart::ResponseName => "], // ",
        OwnPart::Judge => RESPONSE_JUDGE,
        OwnPart::CheckOperation => BLIND_CHECK_OPERATION,
    }
}

/// Where some process looks by an operation, and some reads.
pub(super) fn rust_mixed_word(part: OwnPart) -> &'static str
    ensures { result.now ≡ rust_mixed_word part }
{
    match part {
        OwnPart::Meet => MIXED_MEET,
        OwnPart::Bound => MIXED_BOUND,
        OwnPart::Read => READ,
        OwnPart::Figure => "tree",
        OwnPart::Place => MIXED_PLACE,
        OwnPart::Judgements => MIXED_JUDGEMENTS,
        OwnPart::Row => "        &[",
        OwnPart::ResponseName => "], // ",
        OwnPart::Judge => MIXED_JUDGE,
        OwnPart::CheckOperation => CHECK_OPERATION,
    }
}
