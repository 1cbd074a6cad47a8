//! The words of C for plan trees in which some process looks by an operation.
ghost use Rattle.std.specs.Prelude.{◌≡◌};
ghost use Rattle.cn_code.specs.LookCWords.{c_mixed_word, c_response_word};

use crate::language::OwnPart;
use crate::language::c_tournament::{CHECK_OPERATION, READ};
use crate::language::c_tree::BLIND_CHECK_OPERATION;

const RESPONSE_MEET: &str = "\
at the nodes of a tree: each node has an object, and a
 * register for each of its teams.";

const RESPONSE_BOUND: &str = "\
three steps at each of its
 * places, or four where it looks: at most ^_STEPS until it decides, whatever the others do.
 * To look is to apply one more operation, which changes no state, and to get its response. No
 * process reads an object.";

const RESPONSE_PLACE: &str = "\
};

/* A place of a process: its node, its team and operation there, the operation by which it looks at
 * the object, or -1 if it does not, and its judgement. */
struct @_place {
    unsigned process;
    unsigned node;
    unsigned team;
    unsigned operation;
    int look;
    unsigned judgement;
};
";

const RESPONSE_JUDGEMENTS: &str = "\
};

/* The judgements: for each response, and each response to the look where the process looks, the
 * team that came first at the node. The comment names the response. Places at which processes judge
 * alike have one judgement. */
static const unsigned @_judgements[][^_LENGTH(@_responses)]
    [^_LENGTH(@_responses)] = {
";

const RESPONSE_JUDGE: &str = "\
/* Step 3, where the process looks: apply the operation of the look, which changes no state.
         * Both responses tell which team came first. */
        unsigned seen = 0;
        if (place->look >= 0)
            seen = node->object.apply(node->object.self, (unsigned)place->look);
        if (seen >= ^_LENGTH(@_responses))
            return false;
        unsigned first = @_judgements[place->judgement][response][seen];
        /* Last step";

const MIXED_MEET: &str = "\
at the nodes of a tree: each node has an object, and a
 * register for each of its teams.";

const MIXED_BOUND: &str = "\
three steps at each of its
 * places, or four where it looks: at most ^_STEPS until it decides, whatever the others do.
 * To look is to read the object, or to apply one more operation, which changes no state, and to get
 * its response.";

const MIXED_PLACE: &str = "\
};

/* A place of a process: its node, its team and operation there, whether it looks at the object, the
 * operation by which it looks, or -1 if it reads the state or does not look, and its judgement. */
struct @_place {
    unsigned process;
    unsigned node;
    unsigned team;
    unsigned operation;
    bool looks;
    int look;
    unsigned judgement;
};
";

const MIXED_JUDGEMENTS: &str = "\
};

/* The judgements: for each response, and each state or response that the process sees where it
 * looks, the team that came first at the node. The comment names the response. Places at which
 * processes judge alike have one judgement. */
static const unsigned @_judgements[][^_LENGTH(@_responses)]
    [^_LENGTH(@_states) > ^_LENGTH(@_responses)
        ? ^_LENGTH(@_states) : ^_LENGTH(@_responses)] = {
";

const MIXED_JUDGE: &str = "\
/* Step 3, where the process looks: apply the operation of the look, which changes no state,
         * or else read the object. The response, and what was seen, tell which team came first. */
        unsigned seen = 0;
        if (place->look >= 0)
            seen = node->object.apply(node->object.self, (unsigned)place->look);
        else if (place->looks)
            seen = node->object.read(node->object.self);
        if (seen >= ^_LENGTH(@_judgements[0][0]))
            return false;
        unsigned first = @_judgements[place->judgement][response][seen];
        /* Last step";

/// Where some process looks by an operation, and none reads.
pub(super) fn c_response_word(part: OwnPart) -> &'static str
    ensures { result.now ≡ c_response_word part }
{
    match part {
        OwnPart::Meet => RESPONSE_MEET,
        OwnPart::Bound => RESPONSE_BOUND,
        OwnPart::Read => "",
        OwnPart::Figure => "tree",
        OwnPart::Place => RESPONSE_PLACE,
        OwnPart::Judgements => RESPONSE_JUDGEMENTS,
        OwnPart::Row => "        {",
        OwnPart::ResponseName => "}, /* ",
        OwnPart::Judge => RESPONSE_JUDGE,
        OwnPart::CheckOperation => BLIND_CHECK_OPERATION,
    }
}

/// Where some process looks by an operation, and some reads.
pub(super) fn c_mixed_word(part: OwnPart) -> &'static str
    ensures { result.now ≡ c_mixed_word part }
{
    match part {
        OwnPart::Meet => MIXED_MEET,
        OwnPart::Bound => MIXED_BOUND,
        OwnPart::Read => READ,
        OwnPart::Figure => "tree",
        OwnPart::Place => MIXED_PLACE,
        OwnPart::Judgements => MIXED_JUDGEMENTS,
        OwnPart::Row => "        {",
        OwnPart::ResponseName => "}, /* ",
        OwnPart::Judge => MIXED_JUDGE,
        OwnPart::CheckOperation => CHECK_OPERATION,
    }
}
