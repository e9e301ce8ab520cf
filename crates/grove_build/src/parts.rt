ghost use Rattle.std.specs.Prelude.{◌≡◌, ◌+◌, ◌<◌, ◌/◌, ◌^◌, length, IfOk, All};
ghost use Rattle.std.specs.List.{AllZip};
ghost use Rattle.std.specs.Thread.{IsSync};
ghost use Rattle.grove_access.specs.Lists.{nodes_of, AreNodes};
ghost use Rattle.grove_build.specs.Batches.{IsPlanned};

use crate::planning::{Planned, plan};
use grove_access::AccessList;
use grove_tree::{Gate, NoMemory, Tree};
use std::alloc::Global;
use std::thread::{Threads, join};

/// Plans the lists, of which the first has the given number. With two workers or more, a slice of two lists or more is
/// cut in two and both halves are planned at once, the first by half of the workers; where no thread can be started,
/// the first half is planned first.
#[cycle(halving)]
pub fn plan_parts<R: Threads + Sync, G: Gate + Sync>(
    rt: &R,
    alloc: Global,
    tree: &Tree,
    gate: &G,
    workers: u32,
    number: u32,
    parts: &[&AccessList],
) -> Result<Vec<Planned>, NoMemory>
    requires room { number + length parts.now < 2 ^ 32 }
    requires fit { All (λ part. AreNodes tree.now (nodes_of part.now)) parts.now }
    ensures { IfOk result (λ all. AllZip (λ part planned. IsPlanned tree.now part.now planned) parts.now all.items) }
{
    let count = parts.len();
    if workers < 2 || count < 2 {
        return plan_each(alloc, tree, gate, number, parts);
    }
    let (first, second) = parts.split_at(count / 2);
    let (late, early) = join(
        rt,
        || -> Result<Vec<Planned>, NoMemory>
            requires { IsSync R.row × IsSync G.row × (number + count < 2 ^ 32) × (length second.now + count / 2 ≡ count)
                × All (λ part. AreNodes tree.now (nodes_of part.now)) second.now }
            ensures { IfOk result
                (λ all. AllZip (λ part planned. IsPlanned tree.entry.now part.now planned) second.entry.now all.items) }
        {
            plan_parts(
                rt,
                alloc,
                tree,
                gate,
                workers - workers / 2,
                number + (count / 2) as u32,
                second,
            )
        },
        || -> Result<Vec<Planned>, NoMemory>
            requires { IsSync R.row × IsSync G.row × (number + length first.now < 2 ^ 32)
                × All (λ part. AreNodes tree.now (nodes_of part.now)) first.now }
            ensures { IfOk result
                (λ all. AllZip (λ part planned. IsPlanned tree.entry.now part.now planned) first.entry.now all.items) }
        { plan_parts(rt, alloc, tree, gate, workers / 2, number, first) },
    );
    let mut all = early?;
    let mut rest = late?;
    all.append(&mut rest)?;
    Ok(all)
}

/// Plans the lists one after the other.
fn plan_each<G: Gate>(
    alloc: Global,
    tree: &Tree,
    gate: &G,
    number: u32,
    parts: &[&AccessList],
) -> Result<Vec<Planned>, NoMemory>
    requires room { number + length parts.now < 2 ^ 32 }
    requires fit { All (λ part. AreNodes tree.now (nodes_of part.now)) parts.now }
    ensures { IfOk result (λ all. AllZip (λ part planned. IsPlanned tree.now part.now planned) parts.now all.items) }
{
    let mut all = Vec::new(alloc);
    for (place, part) in parts.iter().enumerate() {
        gate.at(number + place as u32, 0);
        let planned = plan(alloc, tree, part)?;
        all.push(planned)?;
    }
    Ok(all)
}
