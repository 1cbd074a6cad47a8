//! The meetings of a certificate.
ghost use Rattle.std.specs.Prelude.{◌≡◌, map, IfOk};
ghost use Rattle.cn_tree_check.specs.Right.{meeting_of};

use cn_tree_cert::TreeNode;
use cn_tree_plans::Meeting;
use std::alloc::{AllocError, Global};

/// The meeting of a node.
fn meeting_of(alloc: Global, node: &TreeNode) -> Result<Meeting, AllocError>
    ensures { IfOk result (λ m. m ≡ meeting_of node.now) }
{
    let operations = Vec::from_slice(alloc, node.operations.as_slice())?;
    Ok(Meeting {
        start: node.start,
        sight: node.sight,
        operations,
    })
}

/// The meetings of all nodes.
pub(crate) fn all_meetings(alloc: Global, nodes: &[TreeNode]) -> Result<Vec<Meeting>, AllocError>
    ensures { IfOk result (λ meetings. meetings.items ≡ map meeting_of nodes.now) }
{
    let mut meetings = Vec::new(alloc);
    for node in nodes {
        meetings.push(meeting_of(alloc, node)?)?;
    }
    Ok(meetings)
}
