//! Makes calls of the libraries for the benchmarks and the sweeps, those of each word in turn. Without words it prints
//! nothing.
#![tactic(auto)]

mod again;
mod networks;
mod numbers;
mod planning;
mod running;
mod session;

use anyhow::{Result, bail};
use std::alloc::{AllocGlobal, Global};
use std::rt::Clock;
use std::str::SplitWhitespace;
use std::sync::Wait;
use std::thread::Threads;
use std::{env, io};

/// As large a block as the C library's allocator takes a sign from.
const KEPT: usize = 1 << 24;

fn main(rt: HostRuntime) -> Result<()> {
    keep_freed_memory(rt.alloc());
    for word in env::args(&rt)?.skip(1) {
        make_calls(&rt, word.as_str())?;
    }
    Ok(())
}

/// Lets the C library's allocator keep what is freed, as the program does.
fn keep_freed_memory(alloc: Global) {
    let block: Result<Vec<u8>, _> = Vec::with_capacity(alloc, KEPT);
    drop(block);
}

fn make_calls<R: AllocGlobal + Input + Print + Eprint + Clock + Threads + Wait + Sync>(
    rt: &R,
    word: &str,
) -> Result<()> {
    if word == "session" {
        return session::answer_input(rt);
    }
    if let Some(calls) = word.strip_suffix("-again") {
        return again::make(rt, calls);
    }
    let text = io::read_to_string(rt.alloc(), rt.reader())?;
    time(rt, word, &mut text.split_whitespace())
}

/// Times the calls of this name on what standard input tells.
fn time<R: AllocGlobal + Print + Clock + Threads + Wait + Sync>(
    rt: &R,
    name: &str,
    told: &mut SplitWhitespace<'_>,
) -> Result<()> {
    match name {
        "plan" => planning::time_plan(rt, told),
        "plans" => planning::time_plans(rt, told),
        "core" => running::time_core(rt, told),
        "runs" => running::time_runs(rt, told),
        "solve" => networks::solve_each(rt, told),
        _ => bail!("no call has this name"),
    }
}
