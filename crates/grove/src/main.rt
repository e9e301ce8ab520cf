//! The program: reads a command line and a document, does the command, and prints what comes of it.
#![tactic(auto)]

use answer::Stop;
use command::{run_command, say_no_order};
use file_sink::FileSink;
use file_source::FileSource;
use grove_session::WriterSink;
use grove_words::not_text;
use output::report;
use std::alloc::Global;
use std::env;
use std::io::{ErrorKind, IsTerminal};
use std::process::ExitCode;

mod answer;
mod answering;
mod asking;
mod closed_streams;
mod command;
mod data_file;
mod data_opening;
mod data_refusal;
mod data_telling;
mod document;
mod explained;
mod failure;
mod file_sink;
mod file_source;
mod hint_lines;
mod hinting;
mod output;
mod replacing;
mod response;
mod response_reader;
mod round_keeper;
mod saving;
mod server;
mod serving;
mod tables;

/// As large a block as the C library's allocator takes a sign from.
const KEPT: usize = 1 << 24;

fn main(rt: HostRuntime) -> ExitCode {
    keep_freed_memory(rt.alloc());
    let stdin = rt.stdin();
    let is_typed = stdin.is_terminal();
    let mut input = FileSource::new(stdin);
    let mut out = FileSink::new(rt.stdout());
    let mut err = WriterSink::new(rt.stderr());
    let status = match env::args(&rt) {
        Ok(words) => match words.skip(1).collect::<Vec<String>>(rt.alloc()) {
            Ok(words) => run_command(&rt, &rt, &words, is_typed, &mut input, &mut out, &mut err),
            Err(_) => report(Stop::Memory, &mut err),
        },
        Err(error) if error.kind() == ErrorKind::OutOfMemory => report(Stop::Memory, &mut err),
        Err(_) => say_no_order(rt.alloc(), not_text(rt.alloc()), &mut out, &mut err),
    };
    ExitCode::from(status)
}

/// Lets the C library's allocator keep what is freed, else threads wait for each other at the system's memory. It keeps
/// about as much as the largest block that it gave back so far: here one is asked for, and given back untouched. Where
/// it is refused, all goes on without.
fn keep_freed_memory(alloc: Global) {
    let block: Result<Vec<u8>, _> = Vec::with_capacity(alloc, KEPT);
    drop(block);
}
