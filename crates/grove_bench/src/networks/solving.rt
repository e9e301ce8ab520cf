ghost use Rattle.std.specs.Prelude.{ℕ, ◌<◌, ◌≤ℤ◌, length};
ghost use Rattle.grove_flow.specs.Networks.{AreArcsOf, IsModest, place};
ghost use Rattle.grove_flow.specs.Flows.{IsSolution};

use crate::networks::checking::{are_at_most, is_modest, is_network, is_start};
use crate::numbers::{next, next_count};
use crate::planning::tell;
use anyhow::{Context, Result, ensure};
use grove_flow::{Arc, Network, Solution, is_solution, latest, solve};
use std::alloc::{AllocGlobal, Global};
use std::rt::Clock;
use std::str::SplitWhitespace;
use std::time::Instant;

/// Solves each of so many networks, and tests the answer. Of each comes how many variables and how many arcs it has; of
/// each arc where it begins, where it ends and its least; the needs of the variables; the places to begin from; and the
/// highest place. It fails at the first that can't be solved, or whose answer isn't a solution.
pub fn solve_each<R: AllocGlobal + Print + Clock>(
    rt: &R,
    told: &mut SplitWhitespace<'_>,
) -> Result<()> {
    let count = next_count(told)?;
    for number in 0..count {
        solve_next(rt, told).context(format_args!("network {number}"))?;
    }
    println!(rt; "{count} networks solved")?;
    Ok(())
}

fn solve_next<R: AllocGlobal + Print + Clock>(
    rt: &R,
    told: &mut SplitWhitespace<'_>,
) -> Result<()> {
    let variables = next_count(told)?;
    let arcs = next_arcs(rt.alloc(), told)?;
    let needs = next_numbers(rt.alloc(), told, variables)?;
    let start = next_numbers(rt.alloc(), told, variables)?;
    let top = next(told)?;
    let network = Network { arcs, needs };
    solve_one(rt, &network, &start, top)
}

fn next_arcs(alloc: Global, told: &mut SplitWhitespace<'_>) -> Result<Vec<Arc>> {
    let mut arcs = Vec::new(alloc);
    for _arc in 0..next_count(told)? {
        arcs.push(next_arc(told)?)?;
    }
    Ok(arcs)
}

fn next_arc(told: &mut SplitWhitespace<'_>) -> Result<Arc> {
    let from = next_count(told)?;
    let to = next_count(told)?;
    let least = next(told)?;
    Ok(Arc { from, to, least })
}

fn next_numbers(alloc: Global, told: &mut SplitWhitespace<'_>, count: u32) -> Result<Vec<i64>> {
    let mut numbers = Vec::new(alloc);
    for _number in 0..count {
        numbers.push(next(told)?)?;
    }
    Ok(numbers)
}

fn solve_one<R: AllocGlobal + Print + Clock>(
    rt: &R,
    network: &Network,
    start: &[i64],
    top: i64,
) -> Result<()> {
    ensure!(
        is_network(&network.needs, &network.arcs) && is_start(&network.needs, &network.arcs, start),
        "it can't be solved"
    );
    let since = Instant::now(rt)?;
    let answer = solve(rt.alloc(), network, start)?;
    tell(rt, "solve", since)?;
    println!(rt; "amounts {:?}", answer.amounts)?;
    println!(rt; "places {:?}", answer.places)?;
    test(rt, network, &answer, top)
}

fn test<R: AllocGlobal + Print + Clock>(
    rt: &R,
    network: &Network,
    answer: &Solution,
    top: i64,
) -> Result<()>
    requires { AreArcsOf network.now.arcs.items (length network.now.needs.items) }
{
    let since = Instant::now(rt)?;
    let holds = is_solution(rt.alloc(), network, &answer.amounts, &answer.places)?;
    tell(rt, "test", since)?;
    ensure!(holds, "its answer isn't a solution");
    if are_at_most(&answer.places, top) && is_modest(top) {
        settle(rt, network, answer, top)?;
    }
    Ok(())
}

/// The latest places, where none is above the highest one.
fn settle<R: AllocGlobal + Print + Clock>(
    rt: &R,
    network: &Network,
    answer: &Solution,
    top: i64,
) -> Result<()>
    requires modest { IsModest top }
    requires arcs { AreArcsOf network.now.arcs.items (length network.now.needs.items) }
    requires solution { IsSolution network.now.needs.items network.now.arcs.items answer.now.amounts.items
        answer.now.places.items }
    requires capped { (v : ℕ) → v < length answer.now.places.items → place answer.now.places.items v ≤ℤ top }
{
    let since = Instant::now(rt)?;
    let places = latest(rt.alloc(), network, answer, top)?;
    tell(rt, "latest", since)?;
    println!(rt; "settled {places:?}")?;
    Ok(())
}
