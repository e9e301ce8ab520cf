ghost use Rattle.grove_access.specs.Lists.{nodes_of, AreNodes};

use crate::numbers::{next_count, next_list, next_lists, next_tree};
use anyhow::{Result, ensure};
use grove_access::AccessList;
use grove_build::{Planned, plan, plan_batch};
use grove_plan::judge;
use grove_proof::check;
use grove_span::span;
use grove_tree::{OpenGate, Tree};
use std::alloc::AllocGlobal;
use std::rt::Clock;
use std::str::SplitWhitespace;
use std::thread::Threads;
use std::time::Instant;

/// How often a list is planned.
const RUNS: u32 = 50;

/// Prints what was done and the nanoseconds that it took.
pub fn tell<R: Print + Clock>(rt: &R, what: &str, since: Instant) -> Result<()> {
    let spent = since.elapsed(rt)?.as_nanos();
    println!(rt; "{what} {spent}")?;
    Ok(())
}

/// Times the span of a list, its plan, and the judge and the checker of that, each 50 times, and prints the costs.
pub fn time_plan<R: AllocGlobal + Print + Clock>(
    rt: &R,
    told: &mut SplitWhitespace<'_>,
) -> Result<()> {
    let tree = next_tree(rt.alloc(), told)?;
    let list = next_list(rt.alloc(), &tree, told)?;
    for _run in 0..RUNS {
        time_calls(rt, &tree, &list)?;
    }
    Ok(())
}

fn time_calls<R: AllocGlobal + Print + Clock>(rt: &R, tree: &Tree, list: &AccessList) -> Result<()>
    requires { AreNodes tree.now (nodes_of list.now) }
{
    let since = Instant::now(rt)?;
    span(rt.alloc(), tree, list)?;
    tell(rt, "span", since)?;
    let since = Instant::now(rt)?;
    let planned = plan(rt.alloc(), tree, list)?;
    tell(rt, "plan", since)?;
    time_checks(rt, tree, list, &planned)
}

/// Times the judge, and the checker, which judges too.
fn time_checks<R: AllocGlobal + Print + Clock>(
    rt: &R,
    tree: &Tree,
    list: &AccessList,
    planned: &Planned,
) -> Result<()>
    requires { AreNodes tree.now (nodes_of list.now) }
{
    let since = Instant::now(rt)?;
    let judged = judge(rt.alloc(), tree, list, &planned.plan)?;
    tell(rt, "judge", since)?;
    let since = Instant::now(rt)?;
    let checked = check(rt.alloc(), tree, list, &planned.plan, &planned.flow)?;
    tell(rt, "check", since)?;
    println!(rt; "cost {judged} {checked}")?;
    Ok(())
}

/// Times a batch by so many workers, whose number comes before the tree and the lists.
pub fn time_plans<R: AllocGlobal + Print + Clock + Threads + Sync>(
    rt: &R,
    told: &mut SplitWhitespace<'_>,
) -> Result<()> {
    let workers = next_count(told)?;
    let tree = next_tree(rt.alloc(), told)?;
    let lists = next_lists(rt.alloc(), &tree, told)?;
    time_batch(rt, &tree, &lists, workers)
}

fn time_batch<R: AllocGlobal + Print + Clock + Threads + Sync>(
    rt: &R,
    tree: &Tree,
    lists: &[AccessList],
    workers: u32,
) -> Result<()> {
    ensure!(
        1 <= workers && workers <= 16,
        "there are too few workers or too many"
    );
    ensure!(
        lists.len() <= 256 && lists.iter().all(|list| list.fits(tree)),
        "the lists don't fit"
    );
    let since = Instant::now(rt)?;
    plan_batch(rt, rt.alloc(), tree, lists, workers, &OpenGate)?;
    tell(rt, "plans", since)
}
