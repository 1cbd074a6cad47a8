//! The rules by which the operations of a type alone bound its number.
ghost use Rattle.std.specs.Prelude.{◌≡◌, ◌↔◌, IsTrue};
ghost use Rattle.cn_interference.specs.Rules.{most_by, rule_name, Applies, IsRuleOf};

use crate::{hiding, interfering, none_answers};
use cn_table::Table;

/// A rule by which the operations of a type alone bound its number.
#[derive(Clone, Copy, Debug, PartialEq, Eq)]
pub enum Rule {
    /// Any two operations interfere in every state, and no operation answers anything: the number
    /// is 1.
    InterferenceWithoutAnswers,
    /// Of any two operations, in every state, one tells nothing of the other: the number is 1.
    HiddenOperations,
    /// The type has two states: the number is at most 2.
    TwoStates,
    /// Any two operations interfere in every state: the number is at most 2.
    Interference,
}

impl Rule {
    /// Whether the rule applies to the type.
    pub fn applies(self, table: &Table) -> bool
        // promise: rules (Applies)
        ensures { IsTrue result ↔ Applies table.now self }
    {
        match self {
            Rule::InterferenceWithoutAnswers => interfering(table) && none_answers(table),
            Rule::HiddenOperations => hiding(table),
            Rule::TwoStates => table.states() == 2,
            Rule::Interference => interfering(table),
        }
    }

    /// The greatest number of a type to which the rule applies.
    pub fn most(self) -> u8
        // promise: rules (most_by)
        ensures { result ≡ most_by self }
    {
        match self {
            Rule::InterferenceWithoutAnswers | Rule::HiddenOperations => 1,
            Rule::TwoStates | Rule::Interference => 2,
        }
    }

    /// The word for the rule.
    pub fn name(self) -> &'static str
        // promise: rules (rule_name)
        ensures { result.now ≡ rule_name self }
    {
        match self {
            Rule::InterferenceWithoutAnswers => "interference_without_answers",
            Rule::HiddenOperations => "hidden_operations",
            Rule::TwoStates => "two_states",
            Rule::Interference => "interference",
        }
    }
}

/// The first rule that applies to the type, if any does.
pub fn rule_of(table: &Table) -> Option<Rule>
    // promise: rules (IsRuleOf)
    ensures { IsRuleOf table.now result }
{
    if Rule::InterferenceWithoutAnswers.applies(table) {
        Some(Rule::InterferenceWithoutAnswers)
    } else if Rule::HiddenOperations.applies(table) {
        Some(Rule::HiddenOperations)
    } else if Rule::TwoStates.applies(table) {
        Some(Rule::TwoStates)
    } else if Rule::Interference.applies(table) {
        Some(Rule::Interference)
    } else {
        None
    }
}
