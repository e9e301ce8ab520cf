use crate::again::store_below;
use anyhow::{Context, Result};
use grove_session::{ReaderSource, SessionFault, WriterSink, session};
use grove_store::Store;
use std::alloc::AllocGlobal;
use std::io;
use std::sync::Wait;
use std::thread::Threads;

/// Answers the lines of standard input by a store, one after the other, and says on standard error how many there were,
/// or how the session ended.
pub fn answer_input<R: AllocGlobal + Input + Print + Eprint + Threads + Wait + Sync>(
    rt: &R,
) -> Result<()> {
    let mut store = store_below(rt.alloc(), 5).context("memory")?;
    match talk(rt, &mut store) {
        Ok(lines) => eprintln!(rt; "lines {lines}")?,
        Err(fault) => eprintln!(rt; "{fault}")?,
    }
    Ok(())
}

fn talk<R: AllocGlobal + Input + Print + Eprint + Threads + Wait + Sync>(
    rt: &R,
    store: &mut Store,
) -> Result<u64, SessionFault> {
    let mut source = ReaderSource::new(rt.reader());
    let mut sink = WriterSink::new(io::writer(rt));
    session(rt, store, &mut source, &mut sink)
}
