ghost use Rattle.std.specs.Prelude.{◌≡◌};
ghost use Rattle.grove_wire.specs.Reading.{node_on};

use crate::{Place, WireFault};
use grove_tree::{Node, Tree};

/// The node with a path, or `NoPath` at the place.
pub(crate) fn node_on(tree: &Tree, place: Place, path: &str) -> Result<Node, WireFault>
    ensures { result ≡ node_on tree.now place path.now }
{
    match tree.find(path) {
        Some(node) => Ok(node),
        None => Err(WireFault::NoPath(place)),
    }
}
