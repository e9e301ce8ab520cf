ghost use Rattle.std.specs.Prelude.{◌≡◌, ◌<◌, ◌^◌, ◌↔◌, length, IsTrue};

use grove_access::Records;
use grove_tree::{Node, Tree};

/// Have both trees the same rows?
pub fn same_trees(tree: &Tree, other: &Tree) -> bool
    ensures { IsTrue result ↔ (tree.now ≡ other.now) }
{
    if !tree.same_names(other) {
        return false;
    }
    for number in 0..tree.len() {
        let node = Node::new(number);
        if tree.weight(node) != other.weight(node) {
            return false;
        }
    }
    true
}

/// Are the records the same?
pub fn same_records(records: &Records, others: &Records) -> bool
    requires { length records.now < 2 ^ 32 }
    ensures { IsTrue result ↔ (records.now ≡ others.now) }
{
    if records.len() != others.len() {
        return false;
    }
    for number in 0..records.len() {
        let node = Node::new(number as u32);
        if records.get(node) != others.get(node) {
            return false;
        }
    }
    true
}
