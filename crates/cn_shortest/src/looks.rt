//! How the processes of a node may look at its object.
ghost use Rattle.std.specs.Prelude.{IfOk};
ghost use Rattle.cn_shortest.specs.Looks.{AreResponses, AreSights};

use cn_meetings::Sight;
use cn_table::{Operation, Table};
use cn_views::silent_operations;
use std::alloc::{AllocError, Global};

/// How the processes of a node may look at its object behind their operations. At each node all of
/// them look in one way.
#[derive(Clone, Copy, Debug, PartialEq, Eq)]
pub enum Looks {
    /// They read the state, or do not look.
    AtStates,
    /// They never read: they do an operation that changes nothing and see its response, or do not
    /// look.
    AtResponses,
    /// They do not look.
    AtNothing,
}

/// Puts the sights by responses behind the others, one for each silent operation.
fn add_responses(sights: &mut Vec<Sight>, table: &Table) -> Result<(), AllocError>
    ensures { IfOk result (λ _. AreResponses table.now sights.old.items sights.new.items) }
{
    let silent = silent_operations(table);
    let list = silent.as_slice();
    for place in 0..list.len() {
        sights.push(Sight::Response(Operation(list[place])))?;
    }
    Ok(())
}

/// The sights of the type by which the processes may look. Nobody looks by the first one.
pub(crate) fn sights(alloc: Global, table: &Table, looks: Looks) -> Result<Vec<Sight>, AllocError>
    ensures { IfOk result (λ sights. AreSights table.now looks sights.items) }
{
    let mut sights = Vec::new(alloc);
    sights.push(Sight::Nothing)?;
    match looks {
        Looks::AtStates => {
            sights.push(Sight::State)?;
            Ok(sights)
        }
        Looks::AtResponses => {
            add_responses(&mut sights, table)?;
            Ok(sights)
        }
        Looks::AtNothing => Ok(sights),
    }
}
