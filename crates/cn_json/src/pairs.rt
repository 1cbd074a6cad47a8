//! The numbers of sets of operations as JSON.
ghost use Rattle.std.specs.Prelude.{◌≡◌, ◌≢◌, [], All, IfOk, string_bytes};
ghost use Rattle.serde_json.specs.Written.{compact_text};
ghost use Rattle.cn_pairs.specs.SetNumbers.{AreSetNumbers, set_lists};
ghost use Rattle.cn_pairs.specs.Smallest.{AreSmallest};
ghost use Rattle.cn_json.specs.Pairs.{pairs_data, set_data, set_number_data, AreKnown};
ghost use Rattle.cn_json.specs.Tokens.{Appends, value_tokens};

use crate::json_text::JsonText;
use crate::json_text::Primitive::Text;
use crate::numbers::write_exact;
use crate::value::JsonValue;
use cn_pairs::{Pairs, SetNumber};
use cn_table::{Operation, Table};
use std::alloc::{AllocError, Global};

impl JsonValue for Vec<Operation> {
    ghost IsKnown = { λ t set. AreKnown t set.items };

    ghost json = { set_data };

    fn write(&self, out: &mut JsonText, table: &Table) -> Result<(), AllocError> {
        out.array(table, self)
    }
}

impl JsonValue for SetNumber {
    ghost IsKnown = { λ t s. AreKnown t s.operations.items };

    ghost json = { set_number_data };

    fn write(&self, out: &mut JsonText, table: &Table) -> Result<(), AllocError> {
        out.begin_object()?;
        out.key("number")?;
        write_exact(out, self.number)?;
        out.array_at("operations", table, &self.operations)?;
        out.end_object()
    }
}

fn write_pairs(out: &mut JsonText, table: &Table, pairs: &Pairs) -> Result<(), AllocError>
    requires alone { All (λ s. AreKnown table.now s.operations.items) pairs.now.alone.items }
    requires pairs { All (λ s. AreKnown table.now s.operations.items) pairs.now.pairs.items }
    requires smallest { All (λ set. AreKnown table.now set.items) pairs.now.smallest.items }
    ensures { Appends result out.old out.new (value_tokens (pairs_data table.now pairs.now)) }
{
    out.begin_object()?;
    out.array_at("alone", table, &pairs.alone)?;
    out.member("name", Text(table.name()))?;
    out.key("number")?;
    write_exact(out, pairs.number)?;
    out.array_at("pairs", table, &pairs.pairs)?;
    out.array_at("smallest", table, &pairs.smallest)?;
    out.end_object()
}

/// The numbers of a type, of each of its operations alone and of each pair of operations, and the
/// smallest sets of operations with the number of the type, as one compact JSON object:
/// `{"alone":[..],"name":..,"number":..,"pairs":[..],"smallest":[..]}`. A set is the array of the
/// names of its operations. In `alone` and in `pairs` it stands at `operations`, and the number of
/// the type with these operations alone at `number`. A number is written as that of a
/// [`Classification`](crate::Classification) with no limit.
///
/// The sets are those that [`pairs_of`](cn_pairs::pairs_of) answers for the table.
///
/// # Errors
///
/// `AllocError` if memory runs out.
pub fn pairs_json(alloc: Global, table: &Table, pairs: &Pairs) -> Result<String, AllocError>
    requires alone { AreSetNumbers table.now 1 pairs.now.alone.items }
    requires pairs { AreSetNumbers table.now 2 pairs.now.pairs.items }
    requires smallest { pairs.now.smallest.items ≢ []
        → AreSmallest table.now pairs.now.number (set_lists pairs.now.smallest) }
    // promise: answers-as-json (pairs_data: set_number_data, exact_data)
    ensures { IfOk result (λ text. string_bytes text
        ≡ compact_text (pairs_data table.now pairs.now)) }
{
    let mut out = JsonText::new(alloc);
    write_pairs(&mut out, table, pairs)?;
    Ok(out.finish())
}
