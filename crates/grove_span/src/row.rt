use grove_tree::Node;

/// A node that a list forces.
#[derive(Clone, Copy, Debug, PartialEq, Eq)]
pub struct SpanRow {
    pub node: Node,
    /// The place of the parent among the rows; the topmost node has none there.
    pub parent: Option<u32>,
    pub weight: u32,
    /// The number of the first access of the node itself, where there is one.
    pub first: Option<u32>,
    /// The number of the last access of the node itself, where there is one.
    pub last: Option<u32>,
    /// How many slots lie before its first access.
    pub from: Option<u32>,
    /// How many slots lie before the end of its last access.
    pub until: Option<u32>,
}
