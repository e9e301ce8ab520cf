//! What standard input tells, number by number.
ghost use Rattle.std.specs.Prelude.{IfOk};
ghost use Rattle.grove_access.specs.Lists.{nodes_of, AreNodes};

use anyhow::{Context, Result, bail, ensure};
use grove_access::{Access, AccessList, Op, Records};
use grove_core::Job;
use grove_plan::{Plan, Step};
use grove_tree::{Node, Row, Tree};
use std::alloc::Global;
use std::str::SplitWhitespace;

/// More steps than any plan here has.
const STEPS: usize = 1 << 20;

/// The next number.
pub fn next(told: &mut SplitWhitespace<'_>) -> Result<i64> {
    let word = told.next().context("the numbers end too early")?;
    Ok(word.parse()?)
}

/// The next number, of a node or of how many there are of something.
pub fn next_count(told: &mut SplitWhitespace<'_>) -> Result<u32> {
    Ok(u32::try_from(next(told)?)?)
}

/// A tree: how many nodes there are; of each its parent, the root's its own number, and its weight.
pub fn next_tree(alloc: Global, told: &mut SplitWhitespace<'_>) -> Result<Tree> {
    let mut rows = Vec::new(alloc);
    for number in 0..next_count(told)? {
        rows.push(next_row(alloc, told, number)?)?;
    }
    Ok(Tree::build(alloc, &rows)?)
}

fn next_row(alloc: Global, told: &mut SplitWhitespace<'_>, number: u32) -> Result<Row> {
    let parent = next_count(told)?;
    let weight = next_count(told)?;
    if parent == number {
        return Ok(Row {
            parent: None,
            name: String::new(alloc),
            weight,
        });
    }
    Ok(Row {
        parent: Some(parent),
        name: format!(in alloc; "n{number}")?,
        weight,
    })
}

/// A list over the tree: how many accesses there are, which all add 1; of each its node and its length.
pub fn next_list(alloc: Global, tree: &Tree, told: &mut SplitWhitespace<'_>) -> Result<AccessList>
    ensures { IfOk result (λ list. AreNodes tree.now (nodes_of list)) }
{
    let mut accesses = Vec::new(alloc);
    for _access in 0..next_count(told)? {
        accesses.push(next_access(told)?)?;
    }
    Ok(AccessList::new(alloc, tree, &accesses)?)
}

fn next_access(told: &mut SplitWhitespace<'_>) -> Result<Access> {
    let node = Node::new(next_count(told)?);
    let length = next_count(told)?;
    Ok(Access {
        node,
        op: Op::Add(1),
        length,
    })
}

/// How many lists there are, and each.
pub fn next_lists(
    alloc: Global,
    tree: &Tree,
    told: &mut SplitWhitespace<'_>,
) -> Result<Vec<AccessList>> {
    let mut lists = Vec::new(alloc);
    for _list in 0..next_count(told)? {
        lists.push(next_list(alloc, tree, told)?)?;
    }
    Ok(lists)
}

/// How many jobs there are; of each its list, how many steps its plan has, and these.
pub fn next_jobs(alloc: Global, tree: &Tree, told: &mut SplitWhitespace<'_>) -> Result<Vec<Job>> {
    let mut jobs = Vec::new(alloc);
    for _job in 0..next_count(told)? {
        jobs.push(next_job(alloc, tree, told)?)?;
    }
    Ok(jobs)
}

fn next_job(alloc: Global, tree: &Tree, told: &mut SplitWhitespace<'_>) -> Result<Job> {
    let list = next_list(alloc, tree, told)?;
    let plan = next_plan(alloc, told)?;
    Ok(Job { list, plan })
}

fn next_plan(alloc: Global, told: &mut SplitWhitespace<'_>) -> Result<Plan> {
    let mut steps = Vec::new(alloc);
    for _step in 0..next_count(told)? {
        steps.push(next_step(told)?)?;
    }
    ensure!(steps.len() < STEPS, "a plan has too many steps");
    Ok(Plan::new(steps))
}

/// `lock` or `unlock` and a node, or `access` and its number.
fn next_step(told: &mut SplitWhitespace<'_>) -> Result<Step> {
    let word = told.next().context("the steps end too early")?;
    let number = next_count(told)?;
    match word {
        "lock" => Ok(Step::Lock(Node::new(number))),
        "unlock" => Ok(Step::Unlock(Node::new(number))),
        "access" => Ok(Step::Access(number)),
        _ => bail!("no step has this name"),
    }
}

/// As many records as the tree has nodes, all 0.
pub fn zeros(alloc: Global, tree: &Tree) -> Result<Records> {
    let zeros = vec![in alloc; 0i64; tree.len() as usize]?;
    Ok(Records::new(alloc, &zeros)?)
}
