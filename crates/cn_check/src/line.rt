//! The text of an entry that was found right, in which the list of team B is spelled anew.
ghost use Rattle.std.specs.Prelude.{◌≡◌, ◌≢◌, ◌<◌, ◌+◌, ◌++◌, All, IfSome, length, None, Some};
ghost use Rattle.cn_check.specs.EntryTexts.{IsRespelled};
ghost use Rattle.cn_choice.specs.declared.limits.TheConstants.{MOST_PROCESSES};

use crate::pieces::behind_piece;
use arrayvec::ArrayVec;

/// No entry has a longer text.
const LONGEST: usize = 72;

/// The text of an entry that was found right, and the greatest process of its orders, if there is
/// such an entry.
#[derive(Drop)]
pub(crate) struct Line {
    pub text: ArrayVec<u8, LONGEST>,
    pub greatest: Option<u8>,
}

/// Spells the list anew from the place on, where its text stands behind the first bytes.
fn respell(text: &mut [u8], first: usize, list: &[u8], place: usize)
    requires small { All (λ n. n < MOST_PROCESSES) list.now }
    requires room { first + (length list.now + length list.now) < length text.old }
    ensures { IsRespelled first list.now place text.old text.new }
{
    for later in place..list.len() {
        text[first + 1 + 2 * later] = b'0' + list[later];
    }
}

impl Line {
    /// No entry.
    pub fn new() -> Line
        ensures { result.greatest ≡ None }
    {
        Line {
            text: ArrayVec::new(),
            greatest: None,
        }
    }

    /// Keeps the text of an entry and the greatest process of its orders. No entry is right as
    /// well: then the next one is shown anew.
    pub fn keep(&mut self, text: &[u8], greatest: u8)
        ensures { IfSome self.new.greatest (λ g. (g ≡ greatest)
            × (self.new.text.items ≡ text.now)) }
    {
        self.text.clear();
        self.greatest = match self.text.try_extend_from_slice(text) {
            Ok(()) => Some(greatest),
            Err(_) => None,
        };
    }

    /// The bytes behind the text, if there is an entry, and they begin with it.
    pub fn behind<'a>(&self, bytes: &'a [u8]) -> Option<&'a [u8]>
        ensures known { IfSome result (λ _. self.now.greatest ≢ None) }
        ensures text { IfSome result (λ rest. bytes.now ≡ self.now.text.items ++ rest.now) }
    {
        if self.greatest.is_none() {
            return None;
        }
        behind_piece(bytes, self.text.as_slice())
    }

    /// Spells the list of team B anew from the place on; its text stands behind the first bytes.
    /// If one of the processes that change takes part in the entry, there is none from now on.
    pub fn follow(&mut self, first: usize, changed: usize, b: &[u8], place: usize)
        requires small { All (λ n. n < MOST_PROCESSES) b.now }
        requires room { IfSome self.old.greatest (λ _.
            first + (length b.now + length b.now) < length self.old.text.items) }
        ensures same { IfSome self.new.greatest (λ g. (self.old.greatest ≡ Some g)
            × (g < changed)) }
        ensures text { IfSome self.new.greatest (λ _.
            IsRespelled first b.now place self.old.text.items self.new.text.items) }
    {
        match self.greatest {
            Some(greatest) if (greatest as usize) < changed => {
                respell(self.text.as_mut_slice(), first, b, place);
            }
            _ => self.greatest = None,
        }
    }
}
