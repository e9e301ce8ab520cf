//! Calls whose allocations a sweep fails, those of each word in turn. What each came to is a line. Where memory runs
//! out, a line `memory` is printed, and the calls are made again: those that changed nothing all, and those of a store
//! from the refused one on.

mod planning;
mod running;
mod stores;
mod values;

use anyhow::{Context, Result};
use std::alloc::AllocGlobal;
use std::fmt::Debug;
use std::sync::Wait;
use std::thread::Threads;
pub use values::store_below;

/// Makes the calls of this name; if they are refused memory, once more.
pub fn make<R: AllocGlobal + Print + Threads + Wait + Sync>(rt: &R, calls: &str) -> Result<()> {
    if make_once(rt, calls).is_none() {
        println!(rt; "memory")?;
        make_once(rt, calls).context("refused twice")?;
    }
    Ok(())
}

/// None: memory ran out, or there are no calls of this name.
fn make_once<R: AllocGlobal + Print + Threads + Wait + Sync>(rt: &R, calls: &str) -> Option<()> {
    match calls {
        "plan" => planning::plan_deep(rt),
        "check" => planning::plan_flat(rt, 1),
        "lengths" => planning::plan_flat(rt, 10),
        "batch" => planning::plan_batches(rt),
        "core" => running::run_core(rt),
        "run" => running::run_jobs(rt),
        "answer" => stores::answer_lines(rt),
        "round" => stores::answer_together(rt),
        _ => None,
    }
}

/// Prints what was called and what it came to. If that can't be printed, the sweep misses it.
fn tell<R: Print>(rt: &R, call: &str, came: &impl Debug) {
    let _printed = println!(rt; "{call} {came:?}");
}

/// Prints a call and the reply that it came to.
fn tell_reply<R: Print>(rt: &R, call: &str, reply: &[u8]) {
    tell(rt, call, &str::from_utf8(reply).unwrap_or("no text"));
}
