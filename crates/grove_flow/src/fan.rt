ghost use Rattle.std.specs.Prelude.{◌≡◌, length, IfOk};
ghost use Rattle.grove_flow.specs.Networks.{AreArcsOf};
ghost use Rattle.grove_flow.specs.Fans.{AreFans, IsFan, end_of};

use crate::{Arc, Network};
use grove_base::NoMemory;
use std::alloc::Global;

/// An end of an arc.
#[derive(Clone, Copy)]
pub enum End {
    From,
    To,
}

impl End {
    fn of(self, arc: Arc) -> usize
        ensures { result ≡ end_of self arc }
    {
        match self {
            End::From => arc.from as usize,
            End::To => arc.to as usize,
        }
    }
}

/// The arcs with one end at a variable, for each variable, as a chain from the last of them back.
#[derive(Drop)]
pub struct Fan {
    pub end: End,
    /// For each variable, the last arc with that end there.
    pub last: Vec<Option<usize>>,
    /// For each arc, the one before it with that end at the same variable.
    pub before: Vec<Option<usize>>,
}

impl Fan {
    fn new(alloc: Global, network: &Network, end: End) -> Result<Self, NoMemory>
        requires arcs { AreArcsOf network.now.arcs.items (length network.now.needs.items) }
        ensures fan { IfOk result (λ fan. IsFan end network.now fan) }
    {
        let mut last = vec![in alloc; None; network.needs.len()]?;
        let mut before = vec![in alloc; None; network.arcs.len()]?;
        for (i, arc) in network.arcs.iter().enumerate() {
            let v = end.of(*arc);
            before[i] = last[v];
            last[v] = Some(i);
        }
        Ok(Fan { end, last, before })
    }
}

/// The arcs at each variable, by either end.
#[derive(Drop)]
pub struct Fans {
    pub outs: Fan,
    pub ins: Fan,
}

impl Fans {
    pub fn new(alloc: Global, network: &Network) -> Result<Self, NoMemory>
        requires arcs { AreArcsOf network.now.arcs.items (length network.now.needs.items) }
        ensures fans { IfOk result (λ fans. AreFans network.now fans) }
    {
        let outs = Fan::new(alloc, network, End::From)?;
        let ins = Fan::new(alloc, network, End::To)?;
        Ok(Fans { outs, ins })
    }
}
