ghost use Rattle.std.specs.Prelude.{◌≡◌, ◌<◌, ◌^◌, length, vec_len};

use grove_tree::Node;
use std::marker::Model;

/// What a certificate puts on one forced node: an amount for each constraint on its lock and its release.
#[derive(Clone, Copy, Debug, PartialEq, Eq)]
pub struct FlowRow {
    pub node: Node,
    /// The parent is locked no later than the node.
    pub above: u64,
    /// The parent isn't released before the node is locked.
    pub held: u64,
    /// The node is locked before its first access.
    pub first: u64,
    /// The node isn't released before its last access is done.
    pub last: u64,
    /// The node isn't released before it is locked.
    pub own: u64,
}

/// The rows of a certificate. Whether they are one is for `check` to say.
#[derive(Debug, Drop)]
pub struct Flow {
    rows: Vec<FlowRow>,
}

impl Model for Flow {
    ghost use Rattle.std.specs.Prelude.{List, ◌<◌, ◌^◌, length};
    ghost use Rattle.grove_proof.specs.declared.flow.FlowRow.{FlowRow};

    ghost Value = { List FlowRow };

    ghost view = { λ flow. flow.rows.items };

    ghost invariant = { λ flow. length flow.rows.items < 2 ^ 32 };
}

impl Flow {
    pub fn new(rows: Vec<FlowRow>) -> Flow
        requires { vec_len rows < 2 ^ 32 }
        ensures { result ≡ rows.items }
    {
        Flow { rows }
    }

    pub fn rows(&self) -> &[FlowRow]
        ensures rows { result.now ≡ self.now }
        ensures few { length self.now < 2 ^ 32 }
    {
        &self.rows
    }
}
