use grove_tree::Node;

/// A record that a transaction has out, as it was last known outside.
#[derive(Clone, Copy, Debug, PartialEq, Eq)]
pub struct Known {
    pub node: Node,
    pub value: i64,
}
