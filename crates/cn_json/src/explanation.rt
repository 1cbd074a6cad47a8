//! Why the number of a type is what it is, as JSON.
ghost use Rattle.std.specs.Prelude.{◌≡◌, IfOk, IfSome, codes, length, string_bytes};
ghost use Rattle.serde_json.specs.Written.{compact_text};
ghost use Rattle.cn_reasons.specs.Explanation.{IsExplanation};
ghost use Rattle.cn_reasons.specs.Known.{IsKnownPair, IsKnownRefutation, IsKnownWay};
ghost use Rattle.cn_json.specs.Collisions.{collision_data};
ghost use Rattle.cn_json.specs.Explanation.{apart_data, explanation_data, rule_data, shortest_data, ways_left, ways_told};
ghost use Rattle.cn_json.specs.Tokens.{Appends, member_tokens, value_tokens};
ghost use Rattle.cn_json.specs.Values.{list_data, option_data, primitive_data};

use crate::json_text::JsonText;
use crate::json_text::Primitive::{self, Byte, Null, Number, Text};
use crate::numbers::write_type_number;
use crate::value::JsonValue;
use cn_interference::{OperationPair, Rule};
use cn_reasons::{Explanation, Refutation, Way};
use cn_sentences::ShortestCost;
use cn_table::Table;
use std::alloc::{AllocError, Global};

/// About as many bytes as a collision takes. The text gets room for all of them at once.
const COLLISION_BYTES: usize = 704;

impl JsonValue for OperationPair {
    ghost IsKnown = { IsKnownPair };

    ghost json = { apart_data };

    fn write(&self, out: &mut JsonText, table: &Table) -> Result<(), AllocError> {
        out.array(table, &[self.first, self.second])
    }
}

impl JsonValue for ShortestCost {
    ghost IsKnown = { λ t cost. Unit {0} };

    ghost json = { λ t cost. shortest_data cost };

    fn write(&self, out: &mut JsonText, table: &Table) -> Result<(), AllocError> {
        out.object(&[
            ("objects", Number(u64::from(self.objects))),
            ("processes", Byte(self.processes)),
            ("steps", Byte(self.steps)),
        ])
    }
}

/// The word of the rule, or null.
pub(crate) fn rule_value<'a>(rule: Option<Rule>) -> Primitive<'a>
    ensures { primitive_data result ≡ option_data rule_data rule }
{
    match rule {
        Some(rule) => Text(rule.name()),
        None => Null,
    }
}

/// Writes the key of the collisions, and those that are told, each of which is let go.
fn write_collisions(
    out: &mut JsonText,
    table: &Table,
    refutation: Option<Refutation<Way>>,
) -> Result<(), AllocError>
    requires { IfSome refutation (IsKnownRefutation (IsKnownWay table.now)) }
    ensures { Appends result out.old out.new (member_tokens (codes "collisions")
        (list_data (collision_data table.now) (ways_told refutation))) }
{
    match refutation {
        Some(Refutation { ways, .. }) => out.array_of("collisions", table, ways),
        None => out.array_at::<Way>("collisions", table, &[]),
    }
}

/// The number of collisions that are not told.
fn ways_left(refutation: &Option<Refutation<Way>>) -> usize
    ensures { result ≡ ways_left refutation.now }
{
    match refutation {
        Some(refutation) => refutation.more,
        None => 0,
    }
}

/// How many collisions are told.
fn told_count(refutation: &Option<Refutation<Way>>) -> usize
    ensures { result ≡ length (ways_told refutation.now) }
{
    match refutation {
        Some(refutation) => refutation.ways.len(),
        None => 0,
    }
}

fn write_explanation(
    out: &mut JsonText,
    explanation: Explanation,
    shortest: Option<ShortestCost>,
) -> Result<(), AllocError>
    requires { IsExplanation explanation }
    ensures { Appends result out.old out.new
        (value_tokens (explanation_data explanation shortest)) }
{
    let refutation = explanation.refutation;
    let (table, more) = (&explanation.table, ways_left(&refutation));
    out.begin_object()?;
    out.array_at("apart", table, &explanation.apart)?;
    write_collisions(out, table, refutation)?;
    out.option_at("lasting", table, &explanation.lasting)?;
    out.members(&[
        ("limit", Byte(explanation.limit)),
        ("more", Number(more as u64)),
        ("name", Text(table.name())),
    ])?;
    out.key("number")?;
    write_type_number(out, explanation.number)?;
    out.member("rule", rule_value(explanation.rule))?;
    out.option_at("shortest", table, &shortest)?;
    out.member("version", Byte(explanation.version))?;
    out.option_at("witness", table, &explanation.witness)?;
    out.end_object()
}

/// Why the number of a type is what it is, as one compact JSON object:
///
/// - `apart`: the pairs of operations that do not interfere in some state;
/// - `collisions`: the collisions of the certificate that are told, all of them or the first
///   [`MOST_TOLD`](cn_form::MOST_TOLD). Each has the `processes` of its choice, in order, with
///   their `operation` and `team`; its `start` state; the `process` that cannot tell; and two runs,
///   `a_first` and `b_first`. A run has its `steps`, each with `process`, `operation`, `response`
///   and the `state` after it, and the `pair` of a response and a state that the process gets.
/// - `lasting`: `null`, or two operations that last: the `single` one, that of `many`, the `start`
///   state, and the states that are left where each came first, `single_states` and `many_states`;
/// - `limit` and `version`: those of the certificate;
/// - `more`: how many collisions it has besides;
/// - `name`: the name of the type;
/// - `number`: the number, written as in a [`Classification`](crate::Classification);
/// - `rule`: `null`, or the word of the rule by which the operations alone bound the number;
/// - `shortest`: `null`, or what the shortest plan costs that is given: its `objects`, for how many
///   `processes` it is, and the greatest number of own `steps` of a process;
/// - `witness`: `null`, or its `start` state and its `processes`, with the pairs that each can get
///   where a process of team A is first, `a_first`, and where one of team B is, `b_first`.
///
/// # Errors
///
/// `AllocError` if memory runs out.
pub fn explanation_json(
    alloc: Global,
    explanation: Explanation,
    shortest: Option<ShortestCost>,
) -> Result<String, AllocError>
    requires { IsExplanation explanation }
    // promise: answers-as-json (explanation_data: rule_data, apart_data, lasting_data,
    //     witness_data, collision_data, ways_left)
    // promise: why-without-a-limit
    // promise: shortest-cost-by-why (explanation_data: shortest_data)
    ensures { IfOk result (λ text. string_bytes text
        ≡ compact_text (explanation_data explanation shortest)) }
{
    let told = told_count(&explanation.refutation);
    let mut out = JsonText::with_capacity(alloc, told.saturating_mul(COLLISION_BYTES))?;
    write_explanation(&mut out, explanation, shortest)?;
    Ok(out.finish())
}
