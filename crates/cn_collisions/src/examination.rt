//! Whether a choice is a witness, and the recorded collision of a choice that is none.
ghost use Rattle.std.specs.Prelude.{◌≡◌, ◌<◌, ◌≤◌, ◌-◌, ℕ, List, length, IfNone, IfSome, IsTrue};
ghost use Rattle.cn_choice.specs.Canonical.{raw_choice_of};
ghost use Rattle.cn_choice.specs.Collisions.{IsRecordedCollision};
ghost use Rattle.cn_choice.specs.Discerning.{IsWitness};
ghost use Rattle.cn_choice.specs.RawChoices.{IsRawChoice};
ghost use Rattle.cn_outcomes.specs.Twins.{AreTwins};
ghost use Rattle.cn_collisions.specs.Examination.{AreRecordedOrders, IsExamined, collision_with};
ghost use Rattle.cn_collisions.specs.Levels.{AreSomeSets, number_of, table_of};
ghost use Rattle.cn_collisions.specs.Views.{IsAsked, IsSubject};

use crate::asked::Asked;
use crate::collisions::collision_of;
use crate::places::place_of;
use crate::sets::Sets;
use crate::view::{Prefix, View};
use arrayvec::ArrayVec;
use cn_choice::laws::{collision_or_witness, process_of_pair};
use cn_choice::{Choice, Collision, MOST_PROCESSES, RawChoice};

/// The answer of [`examine`].
#[derive(Drop)]
pub enum Examined {
    /// The choice is a witness.
    Splits,
    /// The choice is no witness. This is its recorded collision.
    Meets(Collision),
}

/// The process of a collision and its orders. With a choice they are a [`Collision`].
#[derive(Drop)]
pub struct RecordedOrders {
    /// The process that cannot tell which team moved first.
    pub process: u8,
    /// The order that begins in team A.
    pub alpha: ArrayVec<u8, MOST_PROCESSES>,
    /// The order that begins in team B.
    pub beta: ArrayVec<u8, MOST_PROCESSES>,
}

impl RecordedOrders {
    /// The collision of a choice with this process and these orders.
    pub fn into_collision(self, choice: &Choice) -> Collision
        // promise: examination (collision_with)
        ensures { result ≡ collision_with choice.now self }
    {
        // The lists of a choice have room for no more.
        let (a, b) = (choice.a.as_slice(), choice.b.as_slice());
        prove!(a.len() <= MOST_PROCESSES && b.len() <= MOST_PROCESSES);
        Collision {
            choice: choice.copy(),
            process: self.process,
            alpha: self.alpha,
            beta: self.beta,
        }
    }
}

/// A choice as a choice and as a raw choice, and the sets for it.
#[derive(Clone, Copy)]
pub(crate) struct Subject<'s> {
    pub sets: &'s Sets<'s>,
    pub choice: &'s Choice,
    pub raw: &'s RawChoice,
    /// Where the stock of its operations stands.
    pub place: u32,
}

/// Whether the process has the same operation and team as the one before it.
fn is_twin(raw: &RawChoice, process: u8) -> bool
    requires operation { process < length raw.now.operations }
    requires team { length raw.now.marks ≡ length raw.now.operations }
    ensures some { IsTrue result → 1 ≤ process }
    ensures twins { IsTrue result → AreTwins raw.now (process - 1) }
{
    if process == 0 {
        return false;
    }
    let (here, before) = (process as usize, process as usize - 1);
    raw.operations[here] == raw.operations[before] && raw.marks[here] == raw.marks[before]
}

/// A process of the choice, before any process has moved.
fn asked_of<'s>(subject: &Subject<'s>, process: u8) -> Asked<'s>
    requires subject { IsSubject subject.now }
    requires process { process < length subject.now.raw.now.operations }
    ensures asked { IsAsked result }
    ensures raw { result.view.raw.now ≡ subject.now.raw.now }
    ensures table { result.view.sets.now ≡ subject.now.sets.now }
    ensures process { result.view.process ≡ process }
{
    let (sets, raw) = (subject.sets, subject.raw);
    let view = View { sets, raw, process };
    let operation = view.operation(process);
    let place = sets.less(sets.n, subject.place, operation);
    let start = Prefix {
        used: 0,
        state: raw.state,
        seen: None,
        size: sets.n - 1,
        place,
    };
    Asked {
        view,
        choice: subject.choice,
        start,
    }
}

/// The first collision of the least process that has one.
fn raw_collision(subject: &Subject<'_>) -> Option<RecordedOrders>
    requires { IsSubject subject.now }
    ensures none { IfNone result (IsWitness subject.now.sets.now.table.now subject.now.raw.now) }
    ensures recorded { IfSome result (λ found.
        IsRecordedCollision subject.now.sets.now.table.now subject.now.raw.now
        found.process found.alpha.items found.beta.items) }
{
    collision_or_witness();
    process_of_pair();
    let (mut alpha, mut beta) = (ArrayVec::new(), ArrayVec::new());
    let raw = subject.raw;
    for process in 0..raw.operations.len() as u8 {
        if is_twin(raw, process) {
            continue;
        }
        let asked = asked_of(subject, process);
        if collision_of(&asked, &mut alpha, &mut beta) {
            return Some(RecordedOrders {
                process,
                alpha,
                beta,
            });
        }
    }
    None
}

/// The process and the orders of the recorded collision of a choice, and none for a witness. The
/// process is the least that has a collision. In list order its `alpha` is the first of this
/// process, and its `beta` is the first with the pair of `alpha`.
///
/// The choice is one for as many processes as the sets.
pub fn recorded_orders(sets: &Sets<'_>, choice: &Choice) -> Option<RecordedOrders>
    requires sets { AreSomeSets sets.now }
    requires fits { IsRawChoice (table_of sets.now) (number_of sets.now)
        (raw_choice_of choice.now) }
    // promise: examination
    ensures none { IfNone result (IsWitness (table_of sets.now) (raw_choice_of choice.now)) }
    // promise: examination (AreRecordedOrders)
    ensures recorded { IfSome result (AreRecordedOrders (table_of sets.now) choice.now) }
{
    let raw = RawChoice::of(choice);
    let (a, b) = (choice.a.as_slice(), choice.b.as_slice());
    let place = place_of(sets, raw.operations.as_slice(), a, b);
    let subject = Subject {
        sets,
        choice,
        raw: &raw,
        place,
    };
    raw_collision(&subject)
}

/// Whether the choice is a witness, and the recorded collision of a choice that is none
/// ([`recorded_orders`]).
///
/// The choice is one for as many processes as the sets.
pub fn examine(sets: &Sets<'_>, choice: &Choice) -> Examined
    requires sets { AreSomeSets sets.now }
    requires fits { IsRawChoice (table_of sets.now) (number_of sets.now)
        (raw_choice_of choice.now) }
    // promise: examination (IsExamined)
    ensures { IsExamined (table_of sets.now) choice.now result }
{
    match recorded_orders(sets, choice) {
        Some(orders) => Examined::Meets(orders.into_collision(choice)),
        None => Examined::Splits,
    }
}
