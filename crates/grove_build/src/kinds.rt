ghost use Rattle.std.specs.Prelude.{◌≡◌, ◌<◌, ◌≤◌, pos};
ghost use Rattle.grove_build.specs.Networks.{arc, bound, arc_to, amount_of};

use grove_flow::Arc;
use grove_proof::FlowRow;
use grove_span::SpanRow;

/// The arcs that a row may have, in the network's order. Row `k` has the lock `2k` and the release `2k + 1`.
#[derive(Clone, Copy, Debug)]
pub enum Kind {
    /// From the parent's lock to the node's.
    Above,
    /// From the node's lock to the parent's release.
    Held,
    /// From the node's lock to the base.
    First,
    /// From the base to the node's release.
    Last,
    /// From the node's lock to its release.
    Own,
}

impl Kind {
    /// Where the row has such an arc, the number of its parent, or how many slots lie before what bounds it.
    pub fn bound(self, row: &SpanRow) -> Option<u32>
        ensures { result ≡ bound row.now self }
    {
        match self {
            Kind::Above | Kind::Held => row.parent,
            Kind::First => row.from,
            Kind::Last => row.until,
            Kind::Own => Some(0),
        }
    }

    /// The arc of the row with the number k, in a network with this base.
    pub fn arc(self, base: u32, k: u32, bound: u32) -> Arc
        requires place { k < 4096 }
        requires bound { bound ≤ 64000 }
        ensures { result ≡ arc_to base k self bound }
    {
        match self {
            Kind::Above => level(2 * bound, 2 * k),
            Kind::Held => level(2 * k, 2 * bound + 1),
            Kind::First => Arc {
                from: 2 * k,
                to: base,
                least: -i64::from(bound),
            },
            Kind::Last => Arc {
                from: base,
                to: 2 * k + 1,
                least: i64::from(bound),
            },
            Kind::Own => level(2 * k, 2 * k + 1),
        }
    }

    /// What the row of the flow sends along it.
    pub fn amount(self, flow: &FlowRow) -> u64
        ensures { result ≡ amount_of self flow.now }
    {
        match self {
            Kind::Above => flow.above,
            Kind::Held => flow.held,
            Kind::First => flow.first,
            Kind::Last => flow.last,
            Kind::Own => flow.own,
        }
    }
}

/// The second is no earlier than the first.
fn level(from: u32, to: u32) -> Arc
    ensures { result ≡ arc from to (pos 0) }
{
    Arc { from, to, least: 0 }
}
