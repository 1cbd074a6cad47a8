//! The words of C for plans of two teams at each node.
ghost use Rattle.std.specs.Prelude.{◌≡◌};
ghost use Rattle.cn_code.specs.TournamentCWords.{c_own_tournament_word, c_tournament_word};

use crate::language::{OwnPart, TournamentPart};

const MEET: &str = "\
in a tournament: each node has an object, and a
 * register for each of two teams.";

const BOUND: &str = "\
four steps at each of its
 * places: at most ^_STEPS until it decides, whatever the others do.";

pub(super) const READ: &str = "    /* Reads the state. */
    unsigned (*read)(void *self);
";

const PLACE: &str = "\
};

/* A team of a node. */
enum @_team { ^_TEAM_A, ^_TEAM_B };

/* A place of a process: its node, and its team, role and operation there. */
struct @_place {
    unsigned process;
    unsigned node;
    enum @_team team;
    unsigned role;
    unsigned operation;
};
";

const JUDGEMENTS: &str = "\
};

/* The judgements: for each role, response and state the team that came first at the node. The
 * comment names the response, and the states for which this is team A. */
static const enum @_team @_judgements[^_PROCESSES]
    [^_LENGTH(@_responses)][^_LENGTH(@_states)] = {
";

const JUDGE: &str = "\
/* Step 3: read the object. Response and state tell which team came first. */
        unsigned state = node->object.read(node->object.self);
        if (state >= ^_LENGTH(@_states))
            return false;
        enum @_team first = @_judgements[place->role][response][state];
        /* Step 4";

pub(super) const CHECK_OPERATION: &str = "\
/* Checks one operation behind a way. */
static inline struct @_difference @_check_operation(struct @_way way,
    unsigned operation, @_make *make, void *of)
{
    const struct @_transition *told = &@_transitions[operation][way.state];
    struct @_difference it = {0, @_operations[operation], @_states[way.state], 0, 0, 0};
    struct @_object object = @_come(way, make, of);
    unsigned state = object.read(object.self);
    if (state != way.state) {
        it.what = \"the state before\";
        it.found = @_state_name(state);
        it.expected = @_states[way.state];
        return it;
    }
    unsigned response = object.apply(object.self, operation);
    if (response != told->response) {
        it.what = \"the response\";
        it.found = @_response_name(response);
        it.expected = @_responses[told->response];
        return it;
    }
    unsigned next = object.read(object.self);
    if (next != told->next) {
        it.what = \"the next state\";
        it.found = @_state_name(next);
        it.expected = @_states[told->next];
    }
    return it;
}
";

pub(super) fn c_tournament_word(part: TournamentPart) -> &'static str
    ensures { result.now ≡ c_tournament_word part }
{
    match part {
        TournamentPart::RoleField => ", .role = ",
        TournamentPart::RoleNumber => "    /* role ",
        TournamentPart::RoleOperation => ": ",
        TournamentPart::Team => "^_TEAM_",
    }
}

pub(super) fn c_own_tournament_word(part: OwnPart) -> &'static str
    ensures { result.now ≡ c_own_tournament_word part }
{
    match part {
        OwnPart::Meet => MEET,
        OwnPart::Bound => BOUND,
        OwnPart::Read => READ,
        OwnPart::Figure => "tournament",
        OwnPart::Place => PLACE,
        OwnPart::Judgements => JUDGEMENTS,
        OwnPart::Row => "        {",
        OwnPart::ResponseName => "}, /* ",
        OwnPart::Judge => JUDGE,
        OwnPart::CheckOperation => CHECK_OPERATION,
    }
}
