//! The words of C for a wait-free object.
ghost use Rattle.std.specs.Prelude.{◌≡◌};
ghost use Rattle.cn_code.specs.ObjectCWords.{c_object_word};

use crate::language::ObjectPart;

const TITLE: &str = "\
, and for them
 * a wait-free object of the type ";

const ABOUT: &str = "
 *
 * struct @_universal is the wait-free object. It tells how calls go, after how many steps
 * each ends, and which memory they take.";

const FULL: &str = "    /* The process has no block left, and has changed nothing. */
    ^_FULL,
";

const INTERFACE: &str = "
/* How many slots a block has, and how many blocks a process. Define them before, both at least 2,
 * and the same for the file and its header. */
#ifndef ^_SLOTS
#define ^_SLOTS 32
#endif
#ifndef ^_BLOCKS
#define ^_BLOCKS 4
#endif

/* How many objects of consensus the wait-free object has. */
#define ^_OBJECTS \\
    (^_PROCESSES * ^_BLOCKS * (^_SLOTS + 1) * ^_NODES)

/* A piece of the log. */
struct @_block {
    /* Which calls stand in each slot: a byte for each process, its operation + 1, or 0. */
    struct @ slots[^_SLOTS];
    /* Which block is next. */
    struct @ next;
    /* The number of the block in the log, from 1, or 0. Its owner alone uses this register. */
    @_register number;
};

/* A wait-free object for the processes: each calls its operations, in the one order of a log.
 *
 * A process announces its call. It then goes through the slots of the log. For each it gathers the
 * calls that are announced and not yet in the log, and decides with the others which calls stand
 * in the slot. It does these on its own copy of the object, in the order of processes.
 *
 * - The responses are those of the object's own run, call by call in the order of the log.
 * - A call that is announced when f slots are decided stands in slot f or f + 1. So it ends after
 *   at most f + 2 - k slots, where its process knew k, whatever the others do. A slot takes
 *   ^_PROCESSES + ^_STEPS steps.
 * - The log is a chain of blocks of ^_SLOTS slots. Each process owns ^_BLOCKS
 *   blocks, and proposes one where the log needs the next. It uses a block again once all have
 *   reached a later one. So memory stays at ^_PROCESSES * ^_BLOCKS *
 *   (^_SLOTS + 1) decisions, however many calls there are.
 * - A process with no block left gets ^_FULL. Then another process has made no call for
 *   long: it is more than (^_BLOCKS - 2) * ^_SLOTS slots behind. @_catch_up
 *   brings it up, and a process that leaves holds nobody up. */
struct @_universal {
    void (*renew)(void *self, unsigned state);
    struct @_block blocks[^_PROCESSES][^_BLOCKS];
    /* The last call of each process: its number from 1, and in the last byte the operation + 1. */
    @_register announcements[^_PROCESSES];
    /* The number of the block that each process has reached. */
    @_register reached[^_PROCESSES];
};

/* The handle of a process on the object. There is one for each, for one thread at a time. */
struct @_caller {
    struct @_universal *universal;
    unsigned number;
    /* The calls of the process. */
    uint64_t calls;
    /* The calls of each process in the slots so far. */
    uint64_t done[^_PROCESSES];
    /* The state of the object behind them. */
    unsigned state;
    /* The owner of the block, its place among the owner's, its number in the log, and the slot. */
    unsigned owner;
    unsigned place;
    uint64_t block;
    unsigned slot;
    /* The place of the own block that is used next. */
    unsigned spare;
    /* How the next call ends, if not as usual. */
    enum @_status status;
};

/* The names of the states, operations and responses of the wait-free object. */
$const char *@_object_state_name(unsigned state);
$const char *@_object_operation_name(unsigned operation);
$const char *@_object_response_name(unsigned response);

/* Makes the wait-free object in its start state, and the handle of each process.
 *
 * make(of, state) makes an object of consensus in a state, ^_OBJECTS times.
 * renew(self, state) puts one into a state. No other process uses it meanwhile. */
$void @_callers(struct @_universal *universal, @_make *make,
    void *of, void (*renew)(void *self, unsigned state),
    struct @_caller callers[^_PROCESSES]);

/* Calls an operation of the object, and stores the response. */
$enum @_status
@_call(struct @_caller *caller, unsigned operation, unsigned *response);

/* Goes on to the last call that is announced now. A process that makes no calls for long holds no
 * other up if it does this from time to time. With ^_FULL another one is further behind. */
$enum @_status @_catch_up(struct @_caller *caller);

/* The process makes no more calls, and holds nobody up. */
$void @_leave(struct @_caller *caller);
";

const STATES: &str = "\
};

/* The names of the states of the wait-free object. */
static const char *const @_object_states[] = {
";

const OPERATIONS: &str = "\
};

/* The names of its operations. */
static const char *const @_object_operations[] = {
";

const RESPONSES: &str = "\
};

/* The names of its responses. */
static const char *const @_object_responses[] = {
";

const TRANSITIONS: &str = "\
};

/* Its table: for each operation and state the response and the next state. */
static const struct @_transition
    @_object_transitions[^_LENGTH(@_object_operations)]
    [^_LENGTH(@_object_states)] = {
";

const START: &str = "\
};

/* The state in which it starts: ";

const UNIVERSAL: &str = "
$const char *@_object_state_name(unsigned state)
{
    return ^_NAME_OF(@_object_states, state);
}

$const char *@_object_operation_name(unsigned operation)
{
    return ^_NAME_OF(@_object_operations, operation);
}

$const char *@_object_response_name(unsigned response)
{
    return ^_NAME_OF(@_object_responses, response);
}

/* Puts a decision back to where it began. No other process uses it meanwhile. */
static inline void
@_renew(struct @ *consensus, void (*renew)(void *self, unsigned state))
{
    for (unsigned k = 0; k < ^_NODES; k++) {
        struct @_node *node = &consensus->nodes[k];
        renew(node->object.self, @_starts[k]);
        @_empty(node);
    }
}

/* What stands in `reached` for a process that has left. */
#define ^_GONE UINT64_MAX

static_assert(^_SLOTS >= 2 && ^_BLOCKS >= 2,
    \"a call may come to the end of one block before it ends, but not of two\");

static inline void
@_new_block(struct @_block *block, @_make *make, void *of)
{
    for (unsigned slot = 0; slot < ^_SLOTS; slot++)
        @_new(&block->slots[slot], make, of);
    @_new(&block->next, make, of);
    atomic_store(&block->number, 0);
}

static inline void
@_renew_block(struct @_block *block, void (*renew)(void *self, unsigned state))
{
    for (unsigned slot = 0; slot < ^_SLOTS; slot++)
        @_renew(&block->slots[slot], renew);
    @_renew(&block->next, renew);
    atomic_store(&block->number, 0);
}

static inline struct @_caller
@_new_caller(struct @_universal *universal, unsigned number)
{
    /* The log begins with the first block of process 0. */
    unsigned spare = number == 0 ? 1 : 0;
    struct @_caller caller = {
        universal, number, 0, {0}, ^_OBJECT_START, 0, 0, 1, 0, spare, ^_OK};
    return caller;
}

$void @_callers(struct @_universal *universal, @_make *make,
    void *of, void (*renew)(void *self, unsigned state),
    struct @_caller callers[^_PROCESSES])
{
    universal->renew = renew;
    for (unsigned k = 0; k < ^_PROCESSES * ^_BLOCKS; k++) {
        struct @_block *owned = universal->blocks[k / ^_BLOCKS];
        @_new_block(&owned[k % ^_BLOCKS], make, of);
    }
    atomic_store(&universal->blocks[0][0].number, 1);
    for (unsigned number = 0; number < ^_PROCESSES; number++) {
        atomic_store(&universal->announcements[number], 0);
        atomic_store(&universal->reached[number], 1);
        callers[number] = @_new_caller(universal, number);
    }
}

/* Whether all processes have reached a later block than this one of the log. */
static inline bool @_is_left(struct @_universal *universal, uint64_t number)
{
    for (unsigned process = 0; process < ^_PROCESSES; process++)
        if (atomic_load(&universal->reached[process]) <= number)
            return false;
    return true;
}

/* Sees to it that the spare is as new. */
static inline enum @_status @_prepare_spare(struct @_caller *caller)
{
    struct @_universal *universal = caller->universal;
    struct @_block *spare = &universal->blocks[caller->number][caller->spare];
    uint64_t number = atomic_load(&spare->number);
    assert(caller->status != ^_MISUSE);
    if (caller->status != ^_OK)
        return caller->status;
    if (number > 0 && !@_is_left(universal, number))
        return ^_FULL;
    if (number > 0)
        @_renew_block(spare, universal->renew);
    return ^_OK;
}

/* Goes from the end of a block to the next one. */
static inline bool @_pass_end(struct @_caller *caller)
{
    struct @_universal *universal = caller->universal;
    struct @ *next = &universal->blocks[caller->owner][caller->place].next;
    uint64_t mine = caller->number * ^_BLOCKS + caller->spare, decided = mine;
    bool keeps = @_take_steps(next, caller->number, &decided);
    if (!keeps || decided >= ^_PROCESSES * ^_BLOCKS)
        return false;
    caller->owner = (unsigned)decided / ^_BLOCKS;
    caller->place = (unsigned)decided % ^_BLOCKS;
    caller->block++;
    caller->slot = 0;
    if (decided == mine) {
        struct @_block *block = &universal->blocks[caller->owner][caller->place];
        atomic_store(&block->number, caller->block);
        caller->spare = (caller->spare + 1) % ^_BLOCKS;
    }
    atomic_store(&universal->reached[caller->number], caller->block);
    return true;
}

/* The calls that are announced and do not stand in the slots so far. Where a later call than the
 * next one is announced, this slot is decided already, and the batch plays no part. */
static inline uint64_t @_gather(const struct @_caller *caller)
{
    uint64_t batch = 0;
    for (unsigned process = 0; process < ^_PROCESSES; process++) {
        uint64_t call = atomic_load(&caller->universal->announcements[process]);
        if (call >> 8 > caller->done[process])
            batch |= (call & 0xff) << 8 * process;
    }
    return batch;
}

/* Does the calls of a slot, and stores the response to the own one. */
static inline bool @_apply(struct @_caller *caller, uint64_t batch, unsigned *own)
{
    for (unsigned process = 0; process < ^_PROCESSES; process++) {
        unsigned byte = (unsigned)(batch >> 8 * process & 0xff);
        if (byte > ^_LENGTH(@_object_operations))
            return false;
        if (byte > 0) {
            const struct @_transition *row = @_object_transitions[byte - 1];
            if (process == caller->number)
                *own = row[caller->state].response;
            caller->state = row[caller->state].next;
            caller->done[process]++;
        }
    }
    return batch > 0;
}

/* Goes through one slot, and stores the response to the own call if it stands there. */
static inline void @_pass_slot(struct @_caller *caller, unsigned *own)
{
    bool keeps = caller->slot < ^_SLOTS || @_pass_end(caller);
    if (keeps) {
        uint64_t batch = @_gather(caller);
        struct @_block *block = &caller->universal->blocks[caller->owner][caller->place];
        keeps = @_take_steps(&block->slots[caller->slot++], caller->number, &batch)
            && @_apply(caller, batch, own);
    }
    if (!keeps)
        caller->status = ^_BROKEN_OBJECT;
}

$enum @_status
@_call(struct @_caller *caller, unsigned operation, unsigned *response)
{
    bool exists = operation < ^_LENGTH(@_object_operations);
    assert(exists);
    enum @_status status = exists ? @_prepare_spare(caller) : ^_MISUSE;
    if (status != ^_OK)
        return status;
    caller->calls++;
    uint64_t call = caller->calls << 8 | (operation + 1);
    atomic_store(&caller->universal->announcements[caller->number], call);
    unsigned own = 0;
    while (caller->status == ^_OK && caller->done[caller->number] < caller->calls)
        @_pass_slot(caller, &own);
    if (caller->status == ^_OK)
        *response = own;
    return caller->status;
}

/* Whether one of these calls does not stand in the slots so far. */
static inline bool @_is_behind(const struct @_caller *caller, const uint64_t *calls)
{
    for (unsigned process = 0; process < ^_PROCESSES; process++)
        if (caller->done[process] < calls[process])
            return true;
    return false;
}

$enum @_status @_catch_up(struct @_caller *caller)
{
    uint64_t calls[^_PROCESSES];
    unsigned own = 0;
    enum @_status status = @_prepare_spare(caller);
    if (status != ^_OK)
        return status;
    for (unsigned process = 0; process < ^_PROCESSES; process++)
        calls[process] = atomic_load(&caller->universal->announcements[process]) >> 8;
    while (caller->status == ^_OK && @_is_behind(caller, calls))
        @_pass_slot(caller, &own);
    return caller->status;
}

$void @_leave(struct @_caller *caller)
{
    caller->status = ^_MISUSE;
    atomic_store(&caller->universal->reached[caller->number], ^_GONE);
}
";

pub(super) fn c_object_word(part: ObjectPart) -> &'static str
    ensures { result.now ≡ c_object_word part }
{
    match part {
        ObjectPart::Title => TITLE,
        ObjectPart::About => ABOUT,
        ObjectPart::Full => FULL,
        ObjectPart::Interface => INTERFACE,
        ObjectPart::States => STATES,
        ObjectPart::Operations => OPERATIONS,
        ObjectPart::Responses => RESPONSES,
        ObjectPart::Transitions => TRANSITIONS,
        ObjectPart::Start => START,
        ObjectPart::StartNumber => ". */\n#define ^_OBJECT_START ",
        ObjectPart::StartEnd => "\n",
        ObjectPart::Universal => UNIVERSAL,
    }
}
