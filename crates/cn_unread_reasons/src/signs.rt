//! Signs, which tell the team that was first to any number of processes.
ghost use Rattle.std.specs.Prelude.{◌≡◌, ◌<◌, ◌⊎◌, ◌↔◌, ℕ, All, AllPairs, Contains, IfOk, IsBitSet, IsTrue, List, OnOk, length, slice_index, take};
ghost use Rattle.cn_choice.specs.Renumbering.{other};
ghost use Rattle.cn_outcomes.specs.Subsets.{Below};
ghost use Rattle.cn_signs.specs.SignChecks.{Answers};
ghost use Rattle.cn_signs.specs.SignChoices.{HasSigns, IsKnownChoice};
ghost use Rattle.cn_unread_reasons.specs.Known.{IsKnownAnswer, IsKnownSigns};
ghost use Rattle.cn_unread_reasons.specs.SignWitnesses.{ComesFirst, ComesInOne, IsBefore, IsSignOf, IsSignWitness};
ghost use Rattle.cn_unread_reasons.specs.declared.sight.Answer.{Answer as AnswerOf};

use crate::sight::Answer;
use cn_choice::Team;
use cn_outcomes::Bits;
use cn_signs::{SignChoice, SignStates};
use cn_table::laws::tables_are_valid;
use cn_table::{Operation, Response, State, Table};
use std::alloc::{AllocError, Global};

/// Operations that have signs, and the signs.
#[derive(Drop)]
pub struct SignWitness {
    /// The start state, and the operations.
    pub choice: SignChoice,
    /// The signs of the team `choice.side`, each once: the responses to further operations that come
    /// where this team was first, and never where the other one was. They stand by the first place
    /// of the operation in `choice.further`, and then by the number of the response.
    pub signs: Vec<Answer>,
}

/// Whether the operation gets the response in some state of the set.
fn comes_in(table: &Table, set: Bits, answer: Answer) -> bool
    requires operation { answer.operation.0 < length table.now.operations }
    requires known { Below (length table.now.states) set }
    ensures { IsTrue result
        ↔ Answers table.now answer.operation.0 (IsBitSet set) answer.response.0 }
{
    for state in 0..table.states() {
        let (response, _) = table.apply(answer.operation, State(state));
        if set.contains(state) && response.0 == answer.response.0 {
            return true;
        }
    }
    false
}

/// Whether it gets it in some state of the first set, and in none of the second.
fn comes_in_one(table: &Table, own: Bits, others: Bits, answer: Answer) -> bool
    requires operation { answer.operation.0 < length table.now.operations }
    requires own { Below (length table.now.states) own }
    requires others { Below (length table.now.states) others }
    ensures { IsTrue result ↔ ComesInOne table.now own others answer }
{
    comes_in(table, own, answer) && !comes_in(table, others, answer)
}

/// Appends the responses to the operation that come in the first set, and not in the second.
fn push_signs(
    signs: &mut Vec<Answer>,
    table: &Table,
    own: Bits,
    others: Bits,
    operation: Operation,
) -> Result<(), AllocError>
    requires operation { operation.0 < length table.now.operations }
    requires own { Below (length table.now.states) own }
    requires others { Below (length table.now.states) others }
    ensures same { OnOk result ((a : AnswerOf)
        → Contains signs.new.items a ↔ (Contains signs.old.items a
        ⊎ ((a.operation ≡ operation) × ComesInOne table.now own others a))) }
    ensures order { (further : List ℕ) → AllPairs (IsBefore further) signs.old.items
        → ((a : AnswerOf) → Contains signs.old.items a
        → ComesFirst further a.operation.0 operation.0)
        → OnOk result (AllPairs (IsBefore further) signs.new.items) }
    ensures known { All (IsKnownAnswer table.now) signs.old.items
        → OnOk result (All (IsKnownAnswer table.now) signs.new.items) }
{
    tables_are_valid(table);
    for number in 0..table.responses() {
        let response = Response(number);
        let answer = Answer {
            operation,
            response,
        };
        if comes_in_one(table, own, others, answer) {
            signs.push(answer)?;
        }
    }
    Ok(())
}

/// Whether the operation at the place of the list is one of those before it.
fn is_repeated(operations: &[u8], place: usize) -> bool
    requires { place < length operations.now }
    ensures { IsTrue result
        ↔ Contains (take place operations.now) (slice_index operations.now place) }
{
    let number = operations[place];
    operations[..place].iter().any(|one| *one == number)
}

/// The responses to these operations that come in the first set, and not in the second, in order.
fn signs_of(
    alloc: Global,
    table: &Table,
    further: &[u8],
    own: Bits,
    others: Bits,
) -> Result<Vec<Answer>, AllocError>
    requires further { All (λ o. o < length table.now.operations) further.now }
    requires own { Below (length table.now.states) own }
    requires others { Below (length table.now.states) others }
    ensures same { IfOk result (λ signs. (a : AnswerOf) → Contains signs.items a
        ↔ (Contains further.now a.operation.0 × ComesInOne table.now own others a)) }
    ensures order { IfOk result (λ signs. AllPairs (IsBefore further.now) signs.items) }
    ensures known { IfOk result (λ signs. All (IsKnownAnswer table.now) signs.items) }
{
    let mut signs = Vec::new(alloc);
    for (place, number) in further.iter().enumerate() {
        if !is_repeated(further, place) {
            push_signs(&mut signs, table, own, others, Operation(*number))?;
        }
    }
    Ok(signs)
}

/// The other team.
fn other_team(team: Team) -> Team
    ensures { result ≡ other team }
{
    match team {
        Team::A => Team::B,
        Team::B => Team::A,
    }
}

/// The signs of the choice, in order.
fn all_signs(alloc: Global, table: &Table, choice: &SignChoice) -> Result<Vec<Answer>, AllocError>
    requires { IsKnownChoice table.now choice.now }
    ensures signs { IfOk result (λ signs.
        (a : AnswerOf) → Contains signs.items a ↔ IsSignOf table.now choice.now a) }
    ensures order { IfOk result (λ signs.
        AllPairs (IsBefore choice.now.further.items) signs.items) }
    ensures known { IfOk result (λ signs. All (IsKnownAnswer table.now) signs.items) }
{
    let states = SignStates::of(table, choice);
    let own = states.of_team(choice.side);
    let others = states.of_team(other_team(choice.side));
    signs_of(alloc, table, choice.further.as_slice(), own, others)
}

/// The choice with its signs.
pub(crate) fn sign_witness(
    alloc: Global,
    table: &Table,
    choice: SignChoice,
) -> Result<SignWitness, AllocError>
    requires { HasSigns table.now choice }
    ensures witness { IfOk result (IsSignWitness table.now) }
    ensures known { IfOk result (IsKnownSigns table.now) }
{
    let signs = all_signs(alloc, table, &choice)?;
    Ok(SignWitness { choice, signs })
}
