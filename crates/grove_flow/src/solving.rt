ghost use Rattle.std.specs.Prelude.{◌<◌, length, IfOk};
ghost use Rattle.grove_flow.specs.Networks.{IsNetwork, IsStart};
ghost use Rattle.grove_flow.specs.Flows.{IsSolution};
ghost use Rattle.grove_flow.specs.States.{AreNear, AreRebased};

use crate::search::Search;
use crate::state::State;
use crate::{Network, Solution};
use grove_base::NoMemory;
use std::alloc::Global;

/// Sends what the network needs along its arcs, beginning from places that meet every arc. An arc with an
/// amount is tight at the end, so no places that meet the arcs have a smaller sum of needs times places.
///
/// This is the primal-dual method by successive shortest paths: the places are the potentials, and an arc's slack is
/// its reduced cost.
///
/// The only error is running out of memory.
pub fn solve(alloc: Global, network: &Network, start: &[i64]) -> Result<Solution, NoMemory>
    requires network { IsNetwork network.now.needs.items network.now.arcs.items }
    requires start { IsStart network.now.needs.items network.now.arcs.items start.now }
    ensures solution { IfOk result
        (λ solution. IsSolution network.now.needs.items network.now.arcs.items solution.amounts.items
        solution.places.items) }
{
    let mut state = State::new(alloc, network, start)?;
    let mut search = Search::new(alloc, network)?;
    state.fulfil(network, &mut search)?;
    rebase(&mut state.places);
    Ok(Solution {
        amounts: state.amounts,
        places: state.places,
    })
}

// Moves all places alike, so that the base, the last one, comes to 0.
fn rebase(places: &mut [i64])
    requires some { 0 < length places.old }
    requires near { AreNear places.old }
    ensures { AreRebased (length places.old) places.old places.new }
{
    let base = places[places.len() - 1];
    for place in places.iter_mut() {
        *place -= base;
    }
}
