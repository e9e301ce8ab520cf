ghost use Rattle.std.specs.Prelude.{◌≡◌, ◌*◌, length, IfOk};
ghost use Rattle.grove_access.specs.Lists.{nodes_of, lengths_of};
ghost use Rattle.grove_flow.specs.Flows.{IsSolution};
ghost use Rattle.grove_build.specs.Networks.{IsSpan, IsSolved, AreSlots, arcs_from, needs_of, weights_of};

use crate::network::{network_of, start_of};
use crate::places::{gaps_of, lower};
use crate::proposing::propose;
use grove_access::AccessList;
use grove_flow::{Network, Solution, is_solution, latest, solve};
use grove_span::SpanRow;
use grove_tree::{NoMemory, Tree};
use std::alloc::Global;

/// What is sent along the arcs of the rows' network, and the latest gaps that this allows.
#[derive(Debug, Drop)]
pub struct Solved {
    pub amounts: Vec<u64>,
    /// For each row the gap of its lock and that of its unlock, and a 0 after all.
    pub gaps: Vec<u32>,
}

pub fn solve_rows(
    alloc: Global,
    tree: &Tree,
    list: &AccessList,
    rows: &[SpanRow],
    weights: &[u32],
    slots: &[u32],
) -> Result<Solved, NoMemory>
    requires span { IsSpan tree.now (nodes_of list.now) (lengths_of list.now) rows.now }
    requires weights { weights.now ≡ weights_of tree.now rows.now }
    requires slots { AreSlots (lengths_of list.now) (length (nodes_of list.now)) slots.now }
    ensures { IfOk result
        (λ solved. IsSolved tree.now (lengths_of list.now) (length (nodes_of list.now)) rows.now solved.amounts.items
        solved.gaps.items) }
{
    // The limits that hold of every tree and every list are told with their lengths.
    let _nodes = tree.len();
    let _accesses = list.len();
    let end = slots[slots.len() - 1];
    let network = network_of(alloc, rows, weights)?;
    let mut solution = solution_of(alloc, tree, list, rows, slots, &network)?;
    lower(&mut solution.places, end);
    let places = latest(alloc, &network, &solution, i64::from(end))?;
    let gaps = gaps_of(alloc, slots, &places)?;
    Ok(Solved {
        amounts: solution.amounts,
        gaps,
    })
}

/// The solution that is proposed, where it is one, else one that is searched for.
fn solution_of(
    alloc: Global,
    tree: &Tree,
    list: &AccessList,
    rows: &[SpanRow],
    slots: &[u32],
    network: &Network,
) -> Result<Solution, NoMemory>
    requires span { IsSpan tree.now (nodes_of list.now) (lengths_of list.now) rows.now }
    requires slots { AreSlots (lengths_of list.now) (length (nodes_of list.now)) slots.now }
    requires arcs { network.now.arcs.items ≡ arcs_from (2 * length rows.now) 0 rows.now }
    requires needs { network.now.needs.items ≡ needs_of tree.now rows.now }
    ensures { IfOk result
        (λ solution. IsSolution network.now.needs.items network.now.arcs.items solution.amounts.items
        solution.places.items) }
{
    // The limits that hold of every tree and every list are told with their lengths.
    let _nodes = tree.len();
    let _accesses = list.len();
    let end = slots[slots.len() - 1];
    let proposal = propose(alloc, network, rows, slots)?;
    let holds = is_solution(alloc, network, &proposal.amounts, &proposal.places)?;
    if holds {
        return Ok(proposal);
    }
    let start = start_of(alloc, rows, end)?;
    let solution = solve(alloc, network, &start)?;
    Ok(solution)
}
