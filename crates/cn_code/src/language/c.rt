//! The words of C.
ghost use Rattle.std.specs.Prelude.{◌≡◌};
ghost use Rattle.cn_code.specs.CWords.{c_interface_word, c_own_word, c_program_word, c_word};

use crate::language::c_looks::{c_mixed_word, c_response_word};
use crate::language::c_object::c_object_word;
use crate::language::c_tournament::{c_own_tournament_word, c_tournament_word};
use crate::language::c_tree::{c_blind_word, c_look_word, c_tree_word};
use crate::language::{Form, InterfacePart, OwnPart, Part, ProgramPart};

const PROGRAM_OBJECT: &str = "
static inline const char *
@_name_of(const char *const names[], uint64_t count, unsigned number)
{
    return number < count ? names[number] : \"a number with no name\";
}

#define ^_NAME_OF(names, number) @_name_of(names, ^_LENGTH(names), number)

$const char *@_state_name(unsigned state)
{
    return ^_NAME_OF(@_states, state);
}

$const char *@_operation_name(unsigned operation)
{
    return ^_NAME_OF(@_operations, operation);
}

$const char *@_response_name(unsigned response)
{
    return ^_NAME_OF(@_responses, response);
}

/* Empties the registers of a node. */
static inline void @_empty(struct @_node *node)
{
    for (unsigned team = 0; team < ^_TEAMS; team++)
        atomic_store(&node->registers[team], 0);
}

static inline void @_new(struct @ *consensus, @_make *make, void *of)
{
    for (unsigned k = 0; k < ^_NODES; k++) {
        struct @_node *node = &consensus->nodes[k];
        node->object = make(of, @_starts[k]);
        @_empty(node);
    }
}

$void @_processes(struct @ *consensus, @_make *make, void *of,
    struct @_process processes[^_PROCESSES])
{
    @_new(consensus, make, of);
    for (unsigned number = 0; number < ^_PROCESSES; number++) {
        processes[number].consensus = consensus;
        processes[number].number = number;
        processes[number].used = false;
    }
}

/* Takes the steps of a process, from the value that it proposes to the value that all decide.
 * Answers whether the objects keep to their table, as far as this shows. */
static inline bool
@_take_steps(struct @ *consensus, unsigned process, uint64_t *value)
{
    for (unsigned k = 0; k < ^_LENGTH(@_places); k++) {
        const struct @_place *place = &@_places[k];
        if (place->process != process)
            continue;
        struct @_node *node = &consensus->nodes[place->node];
        /* Step 1: write the value to the register of the own team. */
        atomic_store(&node->registers[place->team], *value);
        /* Step 2: apply the operation to the object. */
        unsigned response = node->object.apply(node->object.self, place->operation);
        if (response >= ^_LENGTH(@_responses))
            return false;
        ";

const PROGRAM_TAKE: &str = "\
: read the register of that team. Go on with its value, or decide it. */
        *value = atomic_load(&node->registers[first]);
    }
    return true;
}

$enum @_status
@_decide(struct @_process *process, uint64_t value, uint64_t *decided)
{
    assert(!process->used);
    if (process->used)
        return ^_MISUSE;
    process->used = true;
    if (!@_take_steps(process->consensus, process->number, &value))
        return ^_BROKEN_OBJECT;
    *decided = value;
    return ^_OK;
}

$enum @_status
@_elect(struct @_process *process, void *value, void **elected)
{
    uint64_t address = (uint64_t)(uintptr_t)value;
    assert(value);
    if (!value)
        return ^_MISUSE;
    enum @_status status = @_decide(process, address, &address);
    /* A register that nobody has written holds 0. */
    if (status == ^_OK && address == 0)
        return ^_BROKEN_OBJECT;
    if (status == ^_OK)
        *elected = (void *)(uintptr_t)address;
    return status;
}

/* How an object came to a state. */
struct @_way {
    unsigned start;
    unsigned operations[^_LENGTH(@_states)];
    unsigned length;
    unsigned state;
};

/* The way with one more operation. */
static inline struct @_way @_then(struct @_way way, unsigned operation)
{
    way.operations[way.length++] = operation;
    way.state = @_transitions[operation][way.state].next;
    return way;
}

/* An object that has come this way. */
static inline struct @_object
@_come(struct @_way way, @_make *make, void *of)
{
    struct @_object object = make(of, way.start);
    for (unsigned k = 0; k < way.length; k++)
        object.apply(object.self, way.operations[k]);
    return object;
}

";

const PROGRAM_CHECK_END: &str = "
/* Ways to states, each to another one. */
struct @_ways {
    struct @_way to[^_LENGTH(@_states)];
    unsigned count;
};

/* Adds a way, if none leads to its state. */
static inline void @_add(struct @_ways *ways, struct @_way way)
{
    for (unsigned k = 0; k < ways->count; k++)
        if (ways->to[k].state == way.state)
            return;
    ways->to[ways->count++] = way;
}

/* Checks the operations behind a way, and adds where they lead. */
static inline struct @_difference @_check_from(struct @_way way,
    @_make *make, void *of, struct @_ways *ways)
{
    struct @_difference it = {0, 0, 0, 0, 0, 0};
    for (unsigned k = 0; k < ^_LENGTH(@_operations) && !it.what; k++) {
        it = @_check_operation(way, k, make, of);
        @_add(ways, @_then(way, k));
    }
    return it;
}

$struct @_difference @_check_object(@_make *make, void *of)
{
    struct @_ways ways;
    struct @_difference it = {0, 0, 0, 0, 0, 0};
    ways.count = 0;
    for (unsigned node = 0; node < ^_NODES; node++) {
        struct @_way way = {@_starts[node], {0}, 0, @_starts[node]};
        @_add(&ways, way);
    }
    for (unsigned k = 0; k < ways.count && !it.what; k++)
        it = @_check_from(ways.to[k], make, of, &ways);
    return it;
}
";

const PROGRAM_END: &str = "
#endif
";

const INTERFACE_OBJECT: &str = "

#ifndef ^_H
#define ^_H
#ifdef __cplusplus
extern \"C\" {
#endif

/* An object of the type. Threads share it. Each call is one atomic step, in the one order of all
 * memory_order_seq_cst operations. */
struct @_object {
    void *self;
    /* Applies an operation, and returns the response. */
    unsigned (*apply)(void *self, unsigned operation);
";

const INTERFACE_OBJECT_END: &str = "\
};

/* Makes an object in a state. */
typedef struct @_object @_make(void *of, unsigned state);

/* A node of the ";

const INTERFACE_NODE_END: &str = "\
. */
struct @_node {
    struct @_object object;
    @_register registers[^_TEAMS];
};

/* One decision of all processes. */
struct @ {
    struct @_node nodes[^_NODES];
};

/* The handle of a process on a decision. There is one for each, for one proposal of one thread. */
struct @_process {
    struct @ *consensus;
    unsigned number;
    bool used;
};

/* How a call ends. */
enum @_status {
    ^_OK,
    /* The handle is used up, or there is no such operation, or the pointer is null. Before, an
     * assertion fails. */
    ^_MISUSE,
";

const INTERFACE_STATUS: &str = "    /* An object breaks its table. */
    ^_BROKEN_OBJECT
};

/* The names of the states, of the operations and of the responses. Everywhere else each is its
 * number. */
$const char *@_state_name(unsigned state);
$const char *@_operation_name(unsigned operation);
$const char *@_response_name(unsigned response);

/* Makes a decision and the handle of each process.
 *
 * make(of, state) makes an object in a state, one for each node. */
$void @_processes(struct @ *consensus, @_make *make, void *of,
    struct @_process processes[^_PROCESSES]);

/* Proposes a value for a process, and stores the value that all processes decide. Calls of
 * different processes may overlap. */
$enum @_status
@_decide(struct @_process *process, uint64_t value, uint64_t *decided);

/* The same for values of any type: each stays with its proposer, who proposes a pointer to it that
 * is not null. Who decides a pointer sees what was written there before it was proposed. */
$enum @_status
@_elect(struct @_process *process, void *value, void **elected);

/* What an object does that its table does not say. */
struct @_difference {
    /* What differs, or null if nothing does. */
    const char *what;
    /* The names of the operation, of the state in which it was applied, and of the operation that
     * was applied next, or null. */
    const char *operation;
    const char *state;
    const char *next;
    /* The names of what was found, and of what the table says. */
    const char *found;
    const char *expected;
};

/* Tries objects against the table, in a test of yours, and answers the first difference.
 *
 * An object is in the state of its node in which it was made. In each state to which operations
 * lead from there, each operation has the response and leads to the state that the table says.
 * make(of, state) makes an object in a state. No two are used at the same time. */
$struct @_difference @_check_object(@_make *make, void *of);
";

const INTERFACE_END: &str = "
#ifdef __cplusplus
}
#endif
#endif
";

const INTRO: &str = "\
.
 *
 * cnum wrote this file. The processes meet ";

const CLAIMS: &str = " All processes decide one value, and one of them has proposed it.
 * This holds for every schedule, and if processes stop. A process takes ";

const TRUST: &str = "
 *
 * The proof of this is about atomic steps in one order, so each atomic operation here is
 * memory_order_seq_cst. It trusts that the atomics of the machine keep this order, and that the
 * objects keep to their table, which @_check_object tries. The file is C11 or later, or
 * C++20 or later. Its functions are static inline: include it. If --prefix named it, they are
 * external: compile it by itself, and include the header that --as h writes.";

const USES: &str = " */
#include <assert.h>
#include <stdbool.h>
#include <stdint.h>
#ifdef __cplusplus
#include <atomic>
typedef std::atomic<uint64_t> @_register;
#else
#include <stdatomic.h>
typedef _Atomic uint64_t @_register;
#endif

";

const PROCESSES: &str = "\
/* The number of processes. */
#define ^_PROCESSES ";

const NODES: &str = "

/* The number of nodes. Node 0 is the root, where every process decides. */
#define ^_NODES ";

const TEAMS: &str = "

/* The number of registers of each node: the most teams that a node has. */
#define ^_TEAMS ";

const STEPS: &str = "

/* The most steps that a process takes until it decides. */
#define ^_STEPS ";

const STATES: &str = "
#ifndef ^_C
#define ^_C

/* A response, and the next state. */
struct @_transition {
    unsigned response;
    unsigned next;
};

#define ^_LENGTH(list) (sizeof(list) / sizeof *(list))

/* The names of the states. Everywhere else a state is its number. */
static const char *const @_states[] = {
";

const OPERATIONS: &str = "\
};

/* The names of the operations. Everywhere else an operation is its number. */
static const char *const @_operations[] = {
";

const RESPONSES: &str = "\
};

/* The names of the responses. Everywhere else a response is its number. */
static const char *const @_responses[] = {
";

const TRANSITIONS: &str = "\
};

/* The table of the type: for each operation and state the response and the next state. */
static const struct @_transition
    @_transitions[^_LENGTH(@_operations)]
    [^_LENGTH(@_states)] = {
";

const STARTS: &str = "\
};

/* The state in which the object of each node starts. */
static const unsigned @_starts[^_NODES] = {
";

const PLACE_LINES: &str = "\
: the places of each process, from its lowest node to the root. */
static const struct @_place @_places[] = {
";

const JUDGEMENT_START: &str = " */
    {
";

/// The objects, the registers and the algorithm.
pub(super) fn c_program_word(part: ProgramPart) -> &'static str
    ensures { result.now ≡ c_program_word part }
{
    match part {
        ProgramPart::Object => PROGRAM_OBJECT,
        ProgramPart::Node => "",
        ProgramPart::Steps => "",
        ProgramPart::Take => PROGRAM_TAKE,
        ProgramPart::CheckEnd => PROGRAM_CHECK_END,
        ProgramPart::End => PROGRAM_END,
    }
}

/// The interface.
pub(super) fn c_interface_word(part: InterfacePart) -> &'static str
    ensures { result.now ≡ c_interface_word part }
{
    match part {
        InterfacePart::Object => INTERFACE_OBJECT,
        InterfacePart::ObjectEnd => INTERFACE_OBJECT_END,
        InterfacePart::NodeEnd => INTERFACE_NODE_END,
        InterfacePart::Status => INTERFACE_STATUS,
        InterfacePart::End => INTERFACE_END,
    }
}

/// The words of a form.
fn c_own_word(form: Form, part: OwnPart) -> &'static str
    ensures { result.now ≡ c_own_word form part }
{
    match form {
        Form::Tournament => c_own_tournament_word(part),
        Form::LookTree => c_look_word(part),
        Form::BlindTree => c_blind_word(part),
        Form::ResponseTree => c_response_word(part),
        Form::MixedTree => c_mixed_word(part),
    }
}

pub(super) fn c_word(part: Part) -> &'static str
    ensures { result.now ≡ c_word part }
{
    match part {
        Part::Title => "/* Consensus among ",
        Part::TypeName => " processes through objects of the type ",
        Part::Intro => INTRO,
        Part::Claims => CLAIMS,
        Part::Trust => TRUST,
        Part::Uses => USES,
        Part::Processes => PROCESSES,
        Part::Nodes => NODES,
        Part::Teams => TEAMS,
        Part::Steps => STEPS,
        Part::States => STATES,
        Part::Operations => OPERATIONS,
        Part::Responses => RESPONSES,
        Part::Name => "    \"",
        Part::NameNumber => "\", /* ",
        Part::Transitions => TRANSITIONS,
        Part::TransitionRow => "    {",
        Part::TransitionResponse => "{",
        Part::TransitionNext => ", ",
        Part::TransitionEnd => "}",
        Part::TransitionName => "}, /* ",
        Part::Starts => STARTS,
        Part::StartState => "    ",
        Part::StartNode => ", /* node ",
        Part::StartName => ": ",
        Part::Places => "\n/* The ",
        Part::PlaceLines => PLACE_LINES,
        Part::ProcessField => "    {.process = ",
        Part::NodeField => ", .node = ",
        Part::TeamField => ", .team = ",
        Part::OperationField => ", .operation = ",
        Part::OperationName => "}, /* ",
        Part::JudgementStart => JUDGEMENT_START,
        Part::JudgementEnd => "    },\n",
        Part::TablesEnd => "};\n",
        Part::LineEnd => " */\n",
        Part::Program(part) => c_program_word(part),
        Part::Interface(part) => c_interface_word(part),
        Part::InObject(part) => c_object_word(part),
        Part::InTournament(part) => c_tournament_word(part),
        Part::InTree(part) => c_tree_word(part),
        Part::Own(form, part) => c_own_word(form, part),
    }
}
