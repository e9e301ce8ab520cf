use crate::numbers::{next_count, next_jobs, next_tree, zeros};
use crate::planning::tell;
use anyhow::{Result, ensure};
use grove_access::Records;
use grove_core::{Core, Event, Job, all_fit, judge_all, serial_order};
use grove_plan::Step;
use grove_run::{run_batch, run_legal};
use grove_tree::{Gate, Tree};
use std::alloc::AllocGlobal;
use std::rt::Clock;
use std::str::SplitWhitespace;
use std::sync::Wait;
use std::thread::{Threads, sleep};
use std::time::{Duration, Instant};

/// More rounds than a run here takes, of which each has a try of each job.
const ROUNDS: u32 = 1 << 22;

/// A gate at which each access takes so many milliseconds: its worker sleeps before it. The job holds its nodes
/// meanwhile, and the worker no lock of the run's own. Before locks and unlocks nobody sleeps.
#[derive(Drop)]
struct Work<'a, R> {
    rt: &'a R,
    jobs: &'a [Job],
    slot: u64,
}

impl<R: Clock> Gate for Work<'_, R> {
    fn at(&self, txn: u32, step: u32) {
        let job = self.jobs.get(txn as usize);
        let step = job.and_then(|job| job.plan.steps().get(step as usize));
        if let Some(Step::Access(_)) = step {
            sleep(self.rt, Duration::from_millis(self.slot));
        }
    }

    fn is_open(&self) -> bool {
        self.slot == 0
    }
}

/// Runs the same jobs again and again by so many workers, after a first time that isn't told and judges their plans.
/// Before the tree and the jobs stand how many workers there are, how many runs, and how many milliseconds an access
/// takes.
pub fn time_runs<R: AllocGlobal + Print + Clock + Threads + Wait + Sync>(
    rt: &R,
    told: &mut SplitWhitespace<'_>,
) -> Result<()> {
    let workers = next_count(told)?;
    let runs = next_count(told)?;
    let slot = u64::from(next_count(told)?);
    let tree = next_tree(rt.alloc(), told)?;
    let jobs = next_jobs(rt.alloc(), &tree, told)?;
    let work = Work {
        rt,
        jobs: &jobs,
        slot,
    };
    run_once(rt, &tree, &work, workers as usize)?;
    run_often(rt, &tree, &work, workers as usize, runs)
}

/// The run that isn't told, by which the plans are judged.
fn run_once<R: AllocGlobal + Print + Clock + Threads + Wait + Sync>(
    rt: &R,
    tree: &Tree,
    work: &Work<'_, R>,
    workers: usize,
) -> Result<()> {
    let records = zeros(rt.alloc(), tree)?;
    ensure!(
        records.fits(tree) && all_fit(tree, work.jobs) && work.jobs.len() <= 256,
        "the jobs don't fit"
    );
    run_batch(rt, rt.alloc(), tree, &records, work.jobs, workers, work)?;
    Ok(())
}

fn run_often<R: AllocGlobal + Print + Clock + Threads + Wait + Sync>(
    rt: &R,
    tree: &Tree,
    work: &Work<'_, R>,
    workers: usize,
    runs: u32,
) -> Result<()> {
    let jobs = work.jobs;
    let records = zeros(rt.alloc(), tree)?;
    ensure!(
        records.fits(tree) && all_fit(tree, jobs) && jobs.len() <= 256,
        "the jobs don't fit"
    );
    judge_all(rt.alloc(), tree, jobs)?;
    for _run in 0..runs {
        let since = Instant::now(rt)?;
        run_legal(rt, rt.alloc(), tree, &records, jobs, workers, work)?;
        tell(rt, "run", since)?;
    }
    Ok(())
}

/// Opens a core of the jobs that come after their tree, tries a step of each in turn until none is accepted, and asks
/// for the serial order.
pub fn time_core<R: AllocGlobal + Print + Clock>(
    rt: &R,
    told: &mut SplitWhitespace<'_>,
) -> Result<()> {
    let tree = next_tree(rt.alloc(), told)?;
    let jobs = next_jobs(rt.alloc(), &tree, told)?;
    let records = zeros(rt.alloc(), &tree)?;
    open_core(rt, &tree, &records, &jobs)
}

fn open_core<R: AllocGlobal + Print + Clock>(
    rt: &R,
    tree: &Tree,
    records: &Records,
    jobs: &[Job],
) -> Result<()> {
    ensure!(
        records.fits(tree) && all_fit(tree, jobs) && jobs.len() <= 256,
        "the jobs don't fit"
    );
    let since = Instant::now(rt)?;
    let mut core = Core::open(rt.alloc(), tree, records, jobs)?;
    tell(rt, "open", since)?;
    run_core(rt, &mut core)
}

fn run_core<R: AllocGlobal + Print + Clock>(rt: &R, core: &mut Core) -> Result<()> {
    let since = Instant::now(rt)?;
    let rounds = take_in_turn(core);
    tell(rt, "run", since)?;
    ensure!(core.is_finished(), "some job is left");
    let since = Instant::now(rt)?;
    let finished = serial_order(rt.alloc(), core)?.len();
    tell(rt, "order", since)?;
    let steps = core.history().len();
    println!(rt; "{finished} jobs finished in {steps} steps and {rounds} rounds")?;
    Ok(())
}

/// Tries a `Take` of each job in turn, until a round has none that is accepted. Gives the number of rounds before.
fn take_in_turn(core: &mut Core) -> u32 {
    let jobs = core.jobs().len() as u32;
    for round in 0..ROUNDS {
        let mut accepted = false;
        for txn in 0..jobs {
            accepted |= core.step(Event::Take(txn)).is_ok();
        }
        if !accepted {
            return round;
        }
    }
    ROUNDS
}
