/// A row that a tree is built from.
#[derive(Debug, Drop)]
pub struct Row {
    /// The row of the parent, earlier in the list; the first row alone has none.
    pub parent: Option<u32>,
    /// 1 to 32 bytes of `a` to `z`, `0` to `9`, `_`, `-`; empty in the first row alone.
    pub name: String,
    /// What a slot of holding the node costs: 1 to 1,000.
    pub weight: u32,
}
