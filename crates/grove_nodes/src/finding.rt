ghost use Rattle.grove_nodes.specs.Weighing.{FindsNode};

use crate::Status;
use grove_tree::Tree;

/// The number of the node of a path.
#[tactic(auto, using(crate::proofs::PathTexts::no_text))]
pub fn find_node(tree: &Tree, path: &[u8], node: &mut u32) -> Status
    ensures { FindsNode tree.now path.now node.old node.new result }
{
    // The limits that hold of every tree are told with its length.
    let _nodes = tree.len();
    let Ok(path) = str::from_utf8(path) else {
        return Status::Refused;
    };
    match tree.find(path) {
        Some(found) => {
            *node = found.number();
            Status::Done
        }
        None => Status::Refused,
    }
}
