//! The words of C for plan trees.
ghost use Rattle.std.specs.Prelude.{◌≡◌};
ghost use Rattle.cn_code.specs.TreeCWords.{c_blind_word, c_look_word, c_tree_word};

use crate::language::c_tournament::{CHECK_OPERATION, READ};
use crate::language::{OwnPart, TreePart};

const LOOK_MEET: &str = "\
at the nodes of a tree: each node has an object, and a
 * register for each of its teams.";

const LOOK_BOUND: &str = "\
three steps at each of its
 * places, or four where it looks: at most ^_STEPS until it decides, whatever the others
 * do.";

const LOOK_PLACE: &str = "\
};

/* A place of a process: its node, its team and operation there, whether it looks at the object, and
 * its judgement. */
struct @_place {
    unsigned process;
    unsigned node;
    unsigned team;
    unsigned operation;
    bool looks;
    unsigned judgement;
};
";

const LOOK_JUDGEMENTS: &str = "\
};

/* The judgements: for each response, and each state where the process looks, the team that came
 * first at the node. The comment names the response. Places at which processes judge alike have
 * one judgement. */
static const unsigned @_judgements[][^_LENGTH(@_responses)]
    [^_LENGTH(@_states)] = {
";

const LOOK_JUDGE: &str = "\
/* Step 3, where the process looks: read the object. The response, and the state that was
         * read, tell which team came first. */
        unsigned state = place->looks ? node->object.read(node->object.self) : 0;
        if (state >= ^_LENGTH(@_states))
            return false;
        unsigned first = @_judgements[place->judgement][response][state];
        /* Last step";

const BLIND_MEET: &str = "\
at the nodes of a tree: each node has an object, and a
 * register for each of its teams.";

const BLIND_BOUND: &str = "\
three steps at each of its
 * places: at most ^_STEPS until it decides, whatever the others do. No process reads an
 * object.";

const BLIND_PLACE: &str = "\
};

/* A place of a process: its node, and its team, operation and judgement there. */
struct @_place {
    unsigned process;
    unsigned node;
    unsigned team;
    unsigned operation;
    unsigned judgement;
};
";

const BLIND_JUDGEMENTS: &str = "\
};

/* The judgements: for each response the team that came first at the node. The comment names the
 * response. Places at which processes judge alike have one judgement. */
static const unsigned @_judgements[][^_LENGTH(@_responses)] = {
";

const BLIND_JUDGE: &str = "\
/* The response tells which team came first. */
        unsigned first = @_judgements[place->judgement][response];
        /* Step 3";

pub(super) const BLIND_CHECK_OPERATION: &str = "\
/* Checks one operation behind a way. */
static inline struct @_difference @_check_operation(struct @_way way,
    unsigned operation, @_make *make, void *of)
{
    const struct @_transition *told = &@_transitions[operation][way.state];
    struct @_difference it = {0, @_operations[operation], @_states[way.state], 0, 0, 0};
    struct @_object object = @_come(way, make, of);
    unsigned response = object.apply(object.self, operation);
    if (response != told->response) {
        it.what = \"the response\";
        it.found = @_response_name(response);
        it.expected = @_responses[told->response];
        return it;
    }
    for (unsigned probe = 0; probe < ^_LENGTH(@_operations) && !it.what; probe++) {
        object = @_come(@_then(way, operation), make, of);
        unsigned found = object.apply(object.self, probe);
        unsigned expected = @_transitions[probe][told->next].response;
        if (found != expected) {
            it.what = \"the response of the next operation\";
            it.next = @_operations[probe];
            it.found = @_response_name(found);
            it.expected = @_responses[expected];
        }
    }
    return it;
}
";

pub(super) fn c_tree_word(part: TreePart) -> &'static str
    ensures { result.now ≡ c_tree_word part }
{
    match part {
        TreePart::LooksField => ", .looks = ",
        TreePart::LookField => ", .look = ",
        TreePart::LookEnd => "",
        TreePart::NoLook => ", .look = -1",
        TreePart::LookName => ", look: ",
        TreePart::JudgementField => ", .judgement = ",
        TreePart::JudgementNumber => "    /* judgement ",
    }
}

/// Where some process reads, and none looks by an operation.
pub(super) fn c_look_word(part: OwnPart) -> &'static str
    ensures { result.now ≡ c_look_word part }
{
    match part {
        OwnPart::Meet => LOOK_MEET,
        OwnPart::Bound => LOOK_BOUND,
        OwnPart::Read => READ,
        OwnPart::Figure => "tree",
        OwnPart::Place => LOOK_PLACE,
        OwnPart::Judgements => LOOK_JUDGEMENTS,
        OwnPart::Row => "        {",
        OwnPart::ResponseName => "}, /* ",
        OwnPart::Judge => LOOK_JUDGE,
        OwnPart::CheckOperation => CHECK_OPERATION,
    }
}

/// Where no process looks.
pub(super) fn c_blind_word(part: OwnPart) -> &'static str
    ensures { result.now ≡ c_blind_word part }
{
    match part {
        OwnPart::Meet => BLIND_MEET,
        OwnPart::Bound => BLIND_BOUND,
        OwnPart::Read => "",
        OwnPart::Figure => "tree",
        OwnPart::Place => BLIND_PLACE,
        OwnPart::Judgements => BLIND_JUDGEMENTS,
        OwnPart::Row => "        ",
        OwnPart::ResponseName => ", /* ",
        OwnPart::Judge => BLIND_JUDGE,
        OwnPart::CheckOperation => BLIND_CHECK_OPERATION,
    }
}
