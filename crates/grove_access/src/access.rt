use grove_tree::Node;

/// What an access does to the record of its node.
#[derive(Clone, Copy, Debug, PartialEq, Eq)]
pub enum Op {
    /// Replies the record.
    Get,
    /// Stores the number.
    Set(i64),
    /// Stores the sum of record and number and replies it; where the sum leaves `i64`, replies so and stores nothing.
    Add(i64),
    /// Takes the number away from the record and replies what is left; where the record is below the number, or the
    /// difference leaves `i64`, replies so and stores nothing.
    Take(i64),
}

/// One access of a list.
#[derive(Clone, Copy, Debug, PartialEq, Eq)]
pub struct Access {
    pub node: Node,
    pub op: Op,
    /// How many slots it takes.
    pub length: u32,
}
