//! What a file of rounds has, told beside a server that may have it open.
ghost use Rattle.std.specs.Prelude.{◌≡◌, ◌≤◌, ◌++◌, true, false, codes, decimal, IfOk, string_bytes};
ghost use Rattle.grove.specs.Answers.{Tells};
ghost use Rattle.grove.specs.Outcomes.{TellsFile, TellsStore};

use crate::answer::{Answer, Stop};
use crate::answering::data_refused;
use crate::data_opening::{NoData, store_in, unreadable};
use crate::document::file_bytes;
use crate::failure::DataFailure;
use grove_log::read;
use grove_serve::Host;
use grove_wire::document_text;
use std::alloc::{AllocError, Global};
use std::rt::Files;

/// More bytes than a file of rounds has.
const MOST_BYTES: usize = 67_108_864;

/// How many bytes stand before the first frame, and how many of each are not its payload.
const HEAD: usize = 44;

const FRAME: usize = 40;

/// Tells the document of the store that the file has, or how the file is. It is only read.
pub fn tell_data<'d, R: Host + Files>(rt: &R, name: &str, checks: bool) -> Result<Answer<'d>, Stop>
    ensures { IfOk result (Tells (TellsFile checks) 0) }
{
    let alloc = rt.alloc();
    let bytes = file_bytes(rt, name, MOST_BYTES)?;
    if bytes.is_empty() {
        return Err(Stop::from(DataFailure::Empty));
    }
    if bytes.len() > MOST_BYTES {
        return Err(Stop::from(DataFailure::Foreign));
    }
    match told_of(alloc, &bytes, checks) {
        Ok(lines) => Ok(Answer::Done(lines)),
        Err(NoData::Refused(refusal)) => data_refused(alloc, refusal),
        Err(NoData::Stopped(why)) => Err(why),
    }
}

/// The document of the store that the bytes stand for, or how they are.
fn told_of(alloc: Global, bytes: &[u8], checks: bool) -> Result<String, NoData>
    ensures { IfOk result (λ lines. TellsStore checks (string_bytes lines)) }
{
    if checks {
        state_of(alloc, bytes)
    } else {
        document_of(alloc, bytes)
    }
}

/// The document of the store, on a line.
fn document_of(alloc: Global, bytes: &[u8]) -> Result<String, NoData>
    ensures { IfOk result (λ lines. TellsStore false (string_bytes lines)) }
{
    let store = store_in(alloc, bytes, 1)?;
    let document = document_text(alloc, store.tree(), store.records())?;
    Ok(format!(in alloc; "{document}\n")?)
}

/// The rounds of the store, the bytes of the file, and what its end is like.
fn state_of(alloc: Global, bytes: &[u8]) -> Result<String, NoData>
    ensures { IfOk result (λ lines. TellsStore true (string_bytes lines)) }
{
    let store = store_in(alloc, bytes, 1)?;
    let length = bytes.len();
    let end = end_of(alloc, length.saturating_sub(whole_length(bytes)?))?;
    Ok(state_text(alloc, store.rounds(), length, &end)?)
}

/// The lines of so many rounds and so many bytes, with this end.
fn state_text(alloc: Global, rounds: u64, length: usize, end: &str) -> Result<String, AllocError>
    ensures { IfOk result (λ lines. string_bytes lines
        ≡ codes "rounds " ++ (decimal rounds ++ (codes "\nbytes " ++ (decimal length ++ end.now)))) }
{
    format!(in alloc; "rounds {rounds}\nbytes {length}{end}")
}

/// What is said of the end of a file, of which so many bytes are torn.
fn end_of(alloc: Global, torn: usize) -> Result<String, AllocError> {
    if torn == 0 {
        String::from_str(alloc, "\nwhole\n")
    } else {
        format!(in alloc; "\ntorn {torn}\n")
    }
}

/// How many of the bytes are whole: the head, and frames behind it.
fn whole_length(bytes: &[u8]) -> Result<usize, NoData> {
    let mut payloads = match read(bytes) {
        Ok(payloads) => payloads,
        Err(fault) => return Err(unreadable(fault)),
    };
    let mut length = HEAD;
    for _ in 0..bytes.len() {
        match payloads.next_payload() {
            Some(payload) => {
                length = length.saturating_add(payload.len()).saturating_add(FRAME);
            }
            None => break,
        }
    }
    Ok(length)
}
