//! What processes judge.
ghost use Rattle.std.specs.Prelude.{◌≡◌, ◌<◌, ◌==◌, ◌&&◌, [], find, length, slice_index_or};
ghost use Rattle.cn_tree_plans.specs.Plan.{judged_team};

use cn_table::Response;
use std::marker::Model;

/// A process that got this response and then saw this judges that this team came first.
#[derive(Clone, Copy, Debug, PartialEq, Eq)]
pub struct Judged {
    pub response: Response,
    /// The number of the state that the process read, or of the response that it looked for; 0 where
    /// it does not look.
    pub saw: u8,
    pub team: u8,
}

/// What one process of a node judges, in order of response, then of what it saw.
#[derive(Drop)]
pub(crate) struct JudgedList {
    entries: Vec<Judged>,
}

impl Model for JudgedList {
    ghost use Rattle.std.specs.Prelude.{List};
    ghost use Rattle.cn_tree_plans.specs.declared.judged.Judged.{Judged};

    ghost Value = { List Judged };

    ghost view = { λ j. j.entries.items };
}

impl JudgedList {
    pub(crate) fn of(entries: Vec<Judged>) -> JudgedList
        ensures { result ≡ entries.items }
    {
        JudgedList { entries }
    }

    pub(crate) fn entries(&self) -> &[Judged]
        ensures { result.now ≡ self.now }
    {
        self.entries.as_slice()
    }

    /// The first entry with this response and what was seen.
    fn entry(&self, response: Response, saw: u8) -> Option<Judged>
        ensures { result
            ≡ find (λ x. (x.response.0 == response.0) && (x.saw == saw)) self.now }
    {
        self.entries
            .iter()
            .copied()
            .find(|x| x.response.0 == response.0 && x.saw == saw)
    }

    /// Its team, or team 0.
    pub(crate) fn team(&self, response: Response, saw: u8) -> u8
        ensures { result ≡ judged_team self.now response.0 saw }
    {
        match self.entry(response, saw) {
            Some(entry) => entry.team,
            None => 0,
        }
    }
}

/// What each process of a node judges.
#[derive(Drop)]
pub(crate) struct NodeJudged {
    lists: Vec<JudgedList>,
}

impl Model for NodeJudged {
    ghost use Rattle.std.specs.Prelude.{List};
    ghost use Rattle.cn_tree_plans.specs.declared.judged.Judged.{Judged};

    ghost Value = { List (List Judged) };

    ghost view = { λ j. j.lists.items };
}

impl NodeJudged {
    pub(crate) fn of(lists: Vec<JudgedList>) -> NodeJudged
        ensures { result ≡ lists.items }
    {
        NodeJudged { lists }
    }

    /// The list of the process with this number, counted from the first one of the node.
    pub(crate) fn list(&self, place: u8) -> &JudgedList
        requires { place < length self.now }
        ensures { result.now ≡ slice_index_or self.now place [] }
    {
        &self.lists[usize::from(place)]
    }
}
