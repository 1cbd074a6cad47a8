//! Laws of plans. A law is a function that does nothing: its contract is the law.
ghost use Rattle.std.specs.Prelude.{ℕ, ◌<◌, ◌≤◌, List, length};
ghost use Rattle.cn_proto.specs.Order.{after};
ghost use Rattle.cn_proto.specs.Plan.{nodes_of, processes_of, protocol_of};
ghost use Rattle.cn_proto.specs.Sound.{IsSound};
ghost use Rattle.cn_proto.specs.Tournament.{team_of};
ghost use Rattle.cn_lives.specs.Plans.{IsRecordingPlan};

use crate::plan::RecordingPlan;
use cn_proto::laws::plans_are_sound;

/// The laws of plans in memory:
///
/// - `plan`: in the states that orders of team A leave, a plan judges that team A came first, and
///   that team B did in the others, of which the start state is one;
/// - `sound`: each place of a path exists, and the processes of a node have different roles there;
/// - `short`: no path has more places than there are nodes;
/// - `reachable`: an object never leaves the states of the table.
pub fn recording_plans_are_sound(plan: &RecordingPlan)
    // promise: sound-recording-plans (IsRecordingPlan: left, home)
    ensures plan { IsRecordingPlan plan.now }
    // promise: sound-recording-plans (IsSound)
    ensures sound { IsSound (protocol_of plan.now.plan) (processes_of plan.now.plan)
        (nodes_of plan.now.plan) (team_of (length plan.now.plan.choice.a)) }
    // promise: sound-recording-plans
    ensures short { (p : ℕ) → p < processes_of plan.now.plan
        → length ((protocol_of plan.now.plan).path p) ≤ nodes_of plan.now.plan }
    // promise: sound-recording-plans
    ensures reachable { (order : List ℕ)
        → after (protocol_of plan.now.plan).act (protocol_of plan.now.plan).start order
        < length plan.now.plan.table.states }
{
    plans_are_sound(plan.plan());
    plan.touch();
}
