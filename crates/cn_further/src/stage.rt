//! How far processes have come.
ghost use Rattle.std.specs.Prelude.{◌≡◌, ◌+◌, ◌<◌, ℕ, IsTrue, length, slice_set};
ghost use Rattle.cn_further.specs.FurtherNodes.{kept_with};
ghost use Rattle.cn_further.specs.FurtherSights.{operations_done};
ghost use Rattle.cn_further.specs.SceneLists.{kept_at, kept_of, same_kept};

use arrayvec::ArrayVec;
use cn_choice::MOST_PROCESSES;
use cn_table::Response;

/// How far a process has come.
#[derive(Clone, Copy, Default)]
pub(crate) enum Stage {
    /// It has not moved.
    #[default]
    Waiting,
    /// It has done its operation, and got this response.
    Moved(Response),
    /// It has done its operation and the further one, and got these responses.
    Done(Response, Response),
}

impl Stage {
    /// The two numbers that the process keeps: 0 for no response, else one more than it.
    pub(crate) fn kept(self) -> (u16, u16)
        ensures first { result.0 ≡ (kept_of self).0 }
        ensures second { result.1 ≡ (kept_of self).1 }
    {
        match self {
            Stage::Waiting => (0, 0),
            Stage::Moved(first) => (u16::from(first.0) + 1, 0),
            Stage::Done(first, second) => (u16::from(first.0) + 1, u16::from(second.0) + 1),
        }
    }

    /// Whether the two are the same.
    pub(crate) fn is(self, other: Stage) -> bool
        ensures { result ≡ same_kept (kept_of self) (kept_of other) }
    {
        let (one, two) = (self.kept(), other.kept());
        one.0 == two.0 && one.1 == two.1
    }

    /// The stage after one more response.
    pub(crate) fn with(self, response: Response) -> Stage
        ensures kept { kept_of result ≡ kept_with (kept_of self) response.0 }
        ensures done { operations_done self < 2
            → operations_done result ≡ operations_done self + 1 }
    {
        match self {
            Stage::Waiting => Stage::Moved(response),
            Stage::Moved(first) => Stage::Done(first, response),
            Stage::Done(first, _) => Stage::Done(first, response),
        }
    }
}

/// Whether the processes of both lists are at the same stages.
pub(crate) fn are_alike(ones: &[Stage], others: &[Stage]) -> bool
    ensures { IsTrue result → (j : ℕ) → j < length ones.now
        → kept_at ones.now j ≡ kept_at others.now j }
{
    if ones.len() != others.len() {
        return false;
    }
    for process in 0..ones.len() {
        if !ones[process].is(others[process]) {
            return false;
        }
    }
    true
}

/// The list with another stage in this place.
pub(crate) fn with_stage(
    stages: &ArrayVec<Stage, MOST_PROCESSES>,
    process: usize,
    new: Stage,
) -> ArrayVec<Stage, MOST_PROCESSES>
    requires { process < length stages.now.items }
    ensures { result.items ≡ slice_set stages.now.items process new }
{
    let mut list = ArrayVec::new();
    let _fits = list.try_extend_from_slice(stages.as_slice());
    list.as_mut_slice()[process] = new;
    list
}
