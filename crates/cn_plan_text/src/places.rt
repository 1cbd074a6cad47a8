//! The places of a plan.
ghost use Rattle.std.specs.Prelude.{◌≡◌, ◌<◌};
ghost use Rattle.cn_proto.specs.Plan.{processes_of, protocol_of};
ghost use Rattle.cn_proto.specs.Sound.{IsPlace};
ghost use Rattle.cn_plan_text.specs.Places.{place_at};

use cn_proto::laws::plans_are_sound;
use cn_proto::{Place, Plan};

/// A place of a path, whose role is one of the plan's.
pub(crate) fn place_at(plan: &Plan, process: u8, place: usize) -> Place
    requires { IsPlace (protocol_of plan.now) (processes_of plan.now) process place }
    ensures place { result ≡ place_at plan.now process place }
    ensures role { result.role < processes_of plan.now }
{
    plans_are_sound(plan);
    plan.path(process)[place]
}
