//! Lists of events in their short form: each number is one digit.
ghost use Rattle.std.specs.Prelude.{◌≡◌, ◌≢◌, ◌<◌, ◌≤◌, ◌++◌, ◌∷◌, [], ℕ, List, IfOk, IfSome, Some, All, codes, map};
ghost use Rattle.cn_io.specs.Arguments.Events.{event_of, word_of};
ghost use Rattle.cn_io.specs.Arguments.Lists.{list_up_to, number_up_to};
ghost use Rattle.cn_table.specs.Texts.{code_of};

use cn_log::Event;
use std::alloc::{AllocError, Global};

/// The number that a byte spells as its one digit.
#[tactic(auto, using(crate::proofs::ArgumentLemmas::ShortEvents::one_digit))]
fn digit(byte: u8) -> Option<u8>
    ensures number { IfSome result (λ n. number_up_to 255 (byte ∷ []) ≡ Some n) }
    ensures range { IfSome result (λ n. (48 ≤ byte) × (byte < 58)) }
{
    match byte {
        b'0'..=b'9' => Some(byte - b'0'),
        _ => None,
    }
}

/// The event that a text spells in its short form.
fn short_event(text: &[u8]) -> Option<Event>
    ensures event { IfSome result (λ e. event_of text.now ≡ Some (word_of e)) }
    ensures one { IfSome result (λ e. All (λ byte. byte ≢ code_of (codes ",")) text.now) }
{
    match text {
        [b's', process] => Some(Event::Step(digit(*process)?)),
        [b'i', process, b':', operation] => {
            let process = digit(*process)?;
            let operation = digit(*operation)?;
            Some(Event::Invoke(process, operation))
        }
        _ => None,
    }
}

/// The first event of a list, in its short form, and what stands behind the comma after it.
fn first_event(list: &[u8]) -> Option<(Event, &[u8])>
    ensures { IfSome result (λ r. (text : List ℕ)
        × (list.now ≡ text ++ code_of (codes ",") ∷ r.1.now)
        × (event_of text ≡ Some (word_of r.0)) × All (λ byte. byte ≢ code_of (codes ",")) text) }
{
    let end = if list.len() > 2 && list[2] == b',' {
        2
    } else {
        4
    };
    if list.len() <= end || list[end] != b',' {
        return None;
    }
    let event = short_event(&list[..end])?;
    Some((event, &list[end + 1..]))
}

/// The events of a list that has each in its short form, at most so many. Any other list may be one
/// of events all the same.
pub(crate) fn read_short(
    alloc: Global,
    list: &str,
    most: usize,
) -> Result<Option<Vec<Event>>, AllocError>
    ensures { IfOk result (λ found. IfSome found
        (λ events. list_up_to most event_of list.now ≡ Some (map word_of events.items))) }
{
    let mut events = Vec::new(alloc);
    let mut rest = list.as_bytes();
    while let Some((event, behind)) = first_event(rest) {
        events.push(event)?;
        rest = behind;
    }
    let Some(last) = short_event(rest) else {
        return Ok(None);
    };
    if events.len() >= most {
        return Ok(None);
    }
    events.push(last)?;
    Ok(Some(events))
}
