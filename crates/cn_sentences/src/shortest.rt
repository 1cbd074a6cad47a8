//! How short the protocols of a type get.
ghost use Rattle.std.specs.Prelude.{◌≡◌, ◌++◌, OnOk, string_bytes};
ghost use Rattle.cn_sentences.specs.Shortest.{objects_words, shortest_line};

use cn_pieces::push_pieces;
use std::alloc::AllocError;

/// What the shortest plan of a type costs.
#[derive(Clone, Copy, Debug, PartialEq, Eq)]
pub struct ShortestCost {
    /// The number of processes that it is for.
    pub processes: u8,
    /// The greatest number of own steps of a process.
    pub steps: u8,
    /// The number of objects.
    pub objects: u32,
}

/// So many objects.
fn push_objects(text: &mut String, objects: u32) -> Result<(), AllocError>
    ensures { OnOk result (string_bytes text.new ≡ string_bytes text.old ++ objects_words objects) }
{
    match objects {
        1 => text.push_str("1 object"),
        _ => write!(text, "{objects} objects"),
    }
}

/// Writes what the shortest plan of a type costs, and that this is no lower bound for other
/// protocols.
///
/// # Errors
///
/// `AllocError` if memory runs out. The text may then have a part of the line.
#[tactic(auto, unfolding(crate::specs::Shortest::shortest_line))]
pub fn push_shortest(text: &mut String, cost: ShortestCost) -> Result<(), AllocError>
    ensures { OnOk result (string_bytes text.new ≡ string_bytes text.old ++ shortest_line cost) }
{
    let (processes, steps) = (cost.processes, cost.steps);
    write!(
        text,
        "Shortest plan: {processes} processes agree in at most {steps} steps each, through "
    )?;
    push_objects(text, cost.objects)?;
    push_pieces(
        text,
        &[
            " (cnum show --shortest). No plan of this kind takes fewer steps, but other protocols may.\n",
        ],
    )
}
