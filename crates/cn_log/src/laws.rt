//! Laws of the log. A law is a function that does nothing: its contract is the law.
ghost use Rattle.std.specs.Prelude.{◌≡◌, ◌<◌, ◌↔◌, ◌+◌, ◌++◌, ◌∷◌, [], ℕ, List, length, None, Some};
ghost use Rattle.cn_proto.specs.Plan.{nodes_of, processes_of, IsPlan};
ghost use Rattle.cn_agree.specs.Rounds.{RunsBy};
ghost use Rattle.cn_agree.specs.World.{World as RoundWorld, input_at, local_at};
ghost use Rattle.cn_agree.specs.declared.local.Local.TheVariants.{NotBegun};
ghost use Rattle.cn_log.specs.Agreement.{RoundsAgree};
ghost use Rattle.cn_log.specs.AtomicEvent.{IsAtomicEvent};
ghost use Rattle.cn_log.specs.Bypass.{IsBypassBounded};
ghost use Rattle.cn_log.specs.Callers.{BeginsWith, HasReplayedBy, HasReplayedItsOwn, IsPendingCall, IsStepped, HasNoEventOf, call_of, caller_of, calls_by, entries_by, pending_in, seen_of};
ghost use Rattle.cn_log.specs.Linearized.{BeginsInTurn, Grows, IsLinearized};
ghost use Rattle.cn_log.specs.Faults.{event_fault};
ghost use Rattle.cn_log.specs.Log.{IsEventList, MayCome, answer, batches, entries, first_look, state_of};
ghost use Rattle.cn_log.specs.Opening.{IsOpening, Opening as OpeningOf, setting, setting_of};
ghost use Rattle.cn_log.specs.OwnSteps.{IsWaitFree, event_room};
ghost use Rattle.cn_log.specs.declared.batch.Batch.{Batch as BatchOf};
ghost use Rattle.cn_log.specs.declared.entry.Entry.{Entry as EntryOf};
ghost use Rattle.cn_log.specs.declared.event.Event.{Event as EventOf};
ghost use Rattle.cn_log.specs.declared.event.Event.TheVariants.{Invoke, Step};

use crate::batch::Batch;
use crate::log_core::LogCore;
use crate::opening::Opening;
use cn_agree::laws::{atomic_steps, rounds_keep_consensus};
use cn_proto::laws::{plan_protocols_are_sound, plans_are_sound};

/// The law of rounds: the rounds of a plan are as a log needs them (`agrees`), and have entries for
/// each process (`begun`, `sizes`).
pub(crate) fn rounds_agree()
    ensures agrees { (o : OpeningOf) → IsPlan o.plan → RoundsAgree (setting_of o) (RunsBy o.plan) }
    ensures begun { (o : OpeningOf) → IsPlan o.plan → (w : RoundWorld BatchOf) → RunsBy o.plan w
        → (p : ℕ) → p < processes_of o.plan → (local_at w p ≡ NotBegun) ↔ (input_at w p ≡ None) }
    ensures sizes { (o : OpeningOf) → IsPlan o.plan → (w : RoundWorld BatchOf) → RunsBy o.plan w
        → (length w.nodes ≡ nodes_of o.plan) × (length w.locals ≡ processes_of o.plan)
        × (length w.inputs ≡ processes_of o.plan) }
{
    plan_protocols_are_sound();
    rounds_keep_consensus::<Batch>();
}

/// The law of openings in memory:
///
/// - `opening`: the plan is a plan, the start state is one of the object's, and there are 1 to
///   [`MOST_SLOTS`](crate::MOST_SLOTS) slots;
/// - `agrees`: the rounds are as a log needs them;
/// - `begun`, `sizes`: the rounds have entries for each process.
pub(crate) fn openings_are_valid(opening: &Opening)
    ensures opening { IsOpening opening.now }
    ensures agrees { RoundsAgree (setting_of opening.now) (RunsBy opening.now.plan) }
    ensures begun { (w : RoundWorld BatchOf) → RunsBy opening.now.plan w
        → (p : ℕ) → p < processes_of opening.now.plan
        → (local_at w p ≡ NotBegun) ↔ (input_at w p ≡ None) }
    ensures sizes { (w : RoundWorld BatchOf) → RunsBy opening.now.plan w
        → (length w.nodes ≡ nodes_of opening.now.plan)
        × (length w.locals ≡ processes_of opening.now.plan)
        × (length w.inputs ≡ processes_of opening.now.plan) }
{
    plans_are_sound(&opening.plan);
    rounds_agree();
}

/// The law of logs, for every plan, object, start state, number of slots and list of events:
///
/// - `linearized`: the answers are those of one sequential run of the calls, in log order;
/// - `grows`: entries stay, and new ones come behind them;
/// - `in_turn`: a slot begins only after all earlier slots are fixed;
/// - `bypass`: a call stands in the first slot that was not fixed when it was made, or in the next;
/// - `wait_free`: a call is over within a bounded number of steps of its process;
/// - `room`: there are fewer events than a log has room for.
pub fn event_lists_are_linearized()
    // promise: linearized-logs (1)
    ensures linearized { (o : OpeningOf) (events : List EventOf) → IsOpening o
        → IsEventList (setting_of o) events → IsLinearized (setting_of o) events }
    // promise: linearized-logs
    ensures grows { (o : OpeningOf) (before after : List EventOf) → IsOpening o
        → IsEventList (setting_of o) (before ++ after) → Grows (setting_of o) before after }
    // promise: linearized-logs (2)
    ensures in_turn { (o : OpeningOf) (events : List EventOf) → IsOpening o
        → IsEventList (setting_of o) events → BeginsInTurn (setting_of o) events }
    // promise: linearized-logs (3)
    ensures bypass { (o : OpeningOf) (events : List EventOf) → IsOpening o
        → IsEventList (setting_of o) events → IsBypassBounded (setting_of o) events }
    // promise: linearized-logs (4)
    ensures wait_free { (o : OpeningOf) (events : List EventOf) → IsOpening o
        → IsEventList (setting_of o) events → IsWaitFree (setting_of o) events }
    // promise: room-of-a-log
    ensures room { (o : OpeningOf) (events : List EventOf) → IsOpening o
        → IsEventList (setting_of o) events
        → length events < event_room (processes_of o.plan) o.capacity }
{
    rounds_agree();
}

/// The law of cores in memory:
///
/// - `opening`: the plan is a plan, the start state is one of the object's, and there are 1 to
///   [`MOST_SLOTS`](crate::MOST_SLOTS) slots;
/// - `events`: each event of the schedule could come at its place;
/// - all others: the clauses of [`event_lists_are_linearized`], except `room`, for the schedule.
// promise: core-of-a-closed-hall
pub fn logs_are_linearized(core: &LogCore)
    // promise: opening (IsOpening)
    ensures opening { IsOpening core.now.opening }
    ensures events { IsEventList (setting core.now) core.now.schedule }
    // promise: parts-of-a-log (IsLinearized: by_slot, by_process, one_each, slots)
    // promise: linearized-logs (1)
    ensures linearized { IsLinearized (setting core.now) core.now.schedule }
    // promise: linearized-logs
    ensures grows { (before after : List EventOf) → core.now.schedule ≡ before ++ after
        → Grows (setting core.now) before after }
    // promise: linearized-logs (2)
    ensures in_turn { BeginsInTurn (setting core.now) core.now.schedule }
    // promise: linearized-logs (3)
    ensures bypass { IsBypassBounded (setting core.now) core.now.schedule }
    // promise: linearized-logs (4)
    ensures wait_free { IsWaitFree (setting core.now) core.now.schedule }
{
    openings_are_valid(&core.opening);
    event_lists_are_linearized();
}

/// The law of faults: after any list of events, an event has a fault exactly if it cannot come.
pub fn faults_decide()
    // promise: events-of-a-core
    ensures { (o : OpeningOf) (events : List EventOf) (place : ℕ) (event : EventOf)
        → (event_fault (setting_of o) (state_of (setting_of o) events) place event ≡ None)
        ↔ MayCome (setting_of o) (state_of (setting_of o) events) event }
{}

/// The law of what a process knows:
///
/// - `front`: a prefix of a list of events is a list of events;
/// - `stays`: events of other processes change nothing of it;
/// - `invoked`: a call becomes pending, and the process has replayed the same slots as before;
/// - `pending`: the pending call is the last that the process has made. The process has replayed
///   neither this call nor every slot;
/// - `stepped`: the change by a step, for each answer;
/// - `replayed`: the fixed slots begin with those that the process has replayed.
pub fn callers_change_by_own_events()
    ensures front { (o : OpeningOf) (before rest : List EventOf)
        → IsEventList (setting_of o) (before ++ rest) → IsEventList (setting_of o) before }
    // promise: knowledge-of-a-process
    ensures stays { (o : OpeningOf) (before rest : List EventOf) (p : ℕ) → HasNoEventOf p rest
        → caller_of (setting_of o) (before ++ rest) p ≡ caller_of (setting_of o) before p }
    // promise: knowledge-of-a-process
    ensures invoked { (o : OpeningOf) (events : List EventOf) (p operation : ℕ)
        → let here = caller_of (setting_of o) events p in
        caller_of (setting_of o) (events ++ Invoke p operation ∷ []) p
        ≡ record {
          seen = here.seen;
          calls = here.calls + 1;
          phase = first_look (call_of p operation here.calls);
        } }
    // promise: knowledge-of-a-process
    ensures pending { (o : OpeningOf) (events : List EventOf) (p : ℕ) (mine : EntryOf) → IsOpening o
        → IsEventList (setting_of o) events
        → pending_in (caller_of (setting_of o) events p).phase ≡ Some mine
        → IsPendingCall (setting_of o) events p mine }
    // promise: knowledge-of-a-process
    ensures stepped { (o : OpeningOf) (events : List EventOf) (p : ℕ) (mine : EntryOf) → IsOpening o
        → IsEventList (setting_of o) (events ++ Step p ∷ [])
        → pending_in (caller_of (setting_of o) events p).phase ≡ Some mine
        → IsStepped (setting_of o) p (caller_of (setting_of o) events p) mine
        (caller_of (setting_of o) (events ++ Step p ∷ []) p) (answer (setting_of o) events p) }
    // promise: knowledge-of-a-process
    ensures replayed { (o : OpeningOf) (events : List EventOf) (p : ℕ) → IsOpening o
        → IsEventList (setting_of o) events
        → BeginsWith (batches (setting_of o) events) (caller_of (setting_of o) events p).seen }
{
    rounds_agree();
}

/// The law of the calls of a process:
///
/// - `grow`, `stay`, `called`: a call is an event of its process, and its number is the number of
///   calls that the process made before;
/// - `own`: its calls are its own entries that it has replayed, in order, and then the one without
///   an answer, if there is one;
/// - `own_stepped`: the same after a step, for each answer;
/// - `made`, `seen_made`: the entries of the process in the log, and among those that any process
///   has replayed, are the first of its calls, in order.
pub fn calls_are_in_order()
    // promise: order-of-calls
    ensures grow { (before rest : List EventOf) (p : ℕ)
        → BeginsWith (calls_by p (before ++ rest)) (calls_by p before) }
    // promise: order-of-calls
    ensures stay { (before rest : List EventOf) (p : ℕ) → HasNoEventOf p rest
        → calls_by p (before ++ rest) ≡ calls_by p before }
    // promise: order-of-calls
    ensures called { (o : OpeningOf) (events : List EventOf) (p operation : ℕ)
        → calls_by p (events ++ Invoke p operation ∷ [])
        ≡ calls_by p events ++ call_of p operation (caller_of (setting_of o) events p).calls ∷ [] }
    // promise: order-of-calls
    ensures own { (o : OpeningOf) (events : List EventOf) (p : ℕ) → IsOpening o
        → IsEventList (setting_of o) events → HasReplayedItsOwn (setting_of o) events p }
    // promise: order-of-calls
    ensures own_stepped { (o : OpeningOf) (events : List EventOf) (p : ℕ) (mine : EntryOf)
        → IsOpening o → IsEventList (setting_of o) (events ++ Step p ∷ [])
        → pending_in (caller_of (setting_of o) events p).phase ≡ Some mine
        → HasReplayedBy (setting_of o) (events ++ Step p ∷ []) p mine
        (answer (setting_of o) events p) }
    // promise: order-of-calls
    ensures made { (o : OpeningOf) (events : List EventOf) (p : ℕ) → IsOpening o
        → IsEventList (setting_of o) events
        → BeginsWith (calls_by p events) (entries_by p (entries (setting_of o) events)) }
    // promise: order-of-calls
    ensures seen_made { (o : OpeningOf) (events : List EventOf) (p q : ℕ) → IsOpening o
        → IsEventList (setting_of o) events
        → BeginsWith (calls_by p events) (entries_by p (seen_of (setting_of o) events q)) }
{
    rounds_agree();
}

/// Every event of a log is atomic:
///
/// - A call writes the announcement of its process, and nothing else that is shared changes.
/// - A look reads one announcement and changes nothing that is shared. Its process gathers the call
///   there, if it is not in the log yet. After the last look it begins in the round of its slot.
/// - Any other step is one action of this round.
///
/// The new knowledge of the process, the answer of the event, and the new content of what it
/// touched depend only on the local state of the process and on the old content.
pub fn atomic_events()
    // promise: atomic-events (IsAtomicEvent)
    ensures { (o : OpeningOf) (events : List EventOf) (event : EventOf) → IsOpening o
        → IsEventList (setting_of o) (events ++ event ∷ []) → IsAtomicEvent o events event }
{
    plan_protocols_are_sound();
    rounds_keep_consensus::<Batch>();
    atomic_steps::<Batch>();
}
