use crate::again::tell;
use crate::again::values::{A, access, get, job_at_a, leaves_below};
use grove_access::{Op, Records};
use grove_core::{Core, Event, Job, all_fit, serial_order};
use grove_run::run_batch;
use grove_tree::{Gate, OpenGate, Tree};
use std::alloc::{AllocGlobal, Global};
use std::sync::Wait;
use std::thread::Threads;

/// Does the steps of a job that reads what another has yet to set, and then those of that one.
pub fn run_core<R: AllocGlobal + Print>(rt: &R) -> Option<()> {
    let tree = leaves_below(rt.alloc(), 1)?;
    let sets = job_at_a(rt.alloc(), &tree, &[access(A, Op::Set(1))])?;
    let gets = job_at_a(rt.alloc(), &tree, &[get(A)])?;
    run_in_turn(rt, &tree, &[sets, gets])
}

fn run_in_turn<R: AllocGlobal + Print>(rt: &R, tree: &Tree, jobs: &[Job]) -> Option<()> {
    let records = Records::new(rt.alloc(), &[0, 7, 0]).ok()?;
    if !records.fits(tree) || !all_fit(tree, jobs) || jobs.len() > 256 {
        return None;
    }
    tell(rt, "jobs", &jobs.len());
    let mut core = Core::open(rt.alloc(), tree, &records, jobs).ok()?;
    tell(rt, "Core::open", &core.jobs().len());
    for txn in [1, 1, 1, 0, 0, 0] {
        core.step(Event::Take(txn)).ok()?;
    }
    tell_core(rt, &core)
}

fn tell_core<R: AllocGlobal + Print>(rt: &R, core: &Core) -> Option<()> {
    if !core.is_finished() {
        return None;
    }
    let order = serial_order(rt.alloc(), core).ok()?;
    tell(rt, "serial_order", &order);
    tell_outcome(rt, core);
    Some(())
}

/// What each job replied, and the records that are left.
fn tell_outcome<R: Print>(rt: &R, core: &Core) {
    for txn in 0..core.jobs().len() as u32 {
        tell(rt, "replies", &core.replies(txn));
    }
    tell(rt, "records", core.records());
}

/// A gate at which nobody waits, but which doesn't tell so: jobs are then done by workers, as few as there are.
struct Turnstile;

impl Gate for Turnstile {
    fn at(&self, _txn: u32, _step: u32) {}
}

/// Runs two jobs that add to the same record and read it: by the caller alone, and by one worker.
pub fn run_jobs<R: AllocGlobal + Print + Threads + Wait + Sync>(rt: &R) -> Option<()> {
    let tree = leaves_below(rt.alloc(), 1)?;
    let jobs = [two_adds(rt.alloc(), &tree)?, two_adds(rt.alloc(), &tree)?];
    run_by_one(rt, &tree, &jobs, &OpenGate)?;
    run_by_one(rt, &tree, &jobs, &Turnstile)
}

fn two_adds(alloc: Global, tree: &Tree) -> Option<Job> {
    job_at_a(alloc, tree, &[access(A, Op::Add(1)), get(A)])
}

fn run_by_one<G: Gate + Sync, R: AllocGlobal + Print + Threads + Wait + Sync>(
    rt: &R,
    tree: &Tree,
    jobs: &[Job],
    gate: &G,
) -> Option<()> {
    let records = Records::new(rt.alloc(), &[0, 10, 0]).ok()?;
    if !records.fits(tree) || !all_fit(tree, jobs) || jobs.len() > 256 {
        return None;
    }
    tell(rt, "jobs", &jobs.len());
    let finished = run_batch(rt, rt.alloc(), tree, &records, jobs, 1, gate).ok()?;
    tell(rt, "run_batch", &finished.order());
    tell_outcome(rt, finished.core());
    Some(())
}
