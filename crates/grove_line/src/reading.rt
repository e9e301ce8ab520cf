//! What a line asks for, read from its text.
ghost use Rattle.std.specs.Prelude.{◌≡◌, None, Some, Err, IfOk};
ghost use Rattle.serde_json.specs.Data.{Data};
ghost use Rattle.serde_json.specs.Read.{read};
ghost use Rattle.grove_wire.specs.Outcomes.{Gives};
ghost use Rattle.grove_wire.specs.RequestLaws.{AskedFits};
ghost use Rattle.grove_wire.specs.Requests.{asked_of, request_of};
ghost use Rattle.grove_line.specs.CheckReading.{asked};
ghost use Rattle.grove_line.specs.OnlyMember.{asks};
ghost use Rattle.grove_line.specs.TokenValues.{value_at, Starts};

use crate::only::read_only;
use crate::unread::Unread;
use grove_tree::Tree;
use grove_wire::{Finder, Request, WireFault};
use json::{Reader, Scratch};
use std::alloc::Global;
use std::str;

/// How deep arrays and objects may nest.
const MOST_NESTED: usize = 127;

/// The request that the line is, over the tree, or its first fault.
pub(crate) fn read_request(
    alloc: Global,
    scratch: &mut Scratch,
    tree: &Tree,
    line: &[u8],
) -> Result<Request, WireFault>
    ensures read { Gives asked_of result (request_of tree.now line.now) }
    ensures fits { IfOk result (λ request. AskedFits tree.now (asked_of request)) }
{
    let Ok(text) = str::from_utf8(line) else {
        return Err(WireFault::BadJson);
    };
    match read_text(alloc, scratch, tree, text) {
        Ok(outcome) => outcome,
        Err(Unread::BadJson) => Err(WireFault::BadJson),
        Err(Unread::Memory) => Err(WireFault::Memory),
    }
}

/// The same of a text, after whose value nothing comes.
fn read_text(
    alloc: Global,
    scratch: &mut Scratch,
    tree: &Tree,
    text: &str,
) -> Result<Result<Request, WireFault>, Unread>
    ensures read { IfOk result (λ outcome. (d : Data) × (read text.now ≡ Some d)
        × (asked outcome ≡ asks tree.now d)) }
    ensures unread { result ≡ Err Unread.BadJson → read text.now ≡ None }
{
    let mut reader = Reader::new(text, scratch)?;
    let outcome = read_value(alloc, tree, &mut reader)?;
    match reader.next() {
        Some(_) => Err(Unread::BadJson),
        None => Ok(outcome),
    }
}

/// The same of the value that comes next.
fn read_value<'a>(
    alloc: Global,
    tree: &Tree,
    reader: &mut Reader<'a>,
) -> Result<Result<Request, WireFault>, Unread>
    ensures read { IfOk result (λ outcome. Starts 127 reader.old reader.new (λ d. asked outcome ≡ asks tree.now d)) }
    ensures unread { result ≡ Err Unread.BadJson → value_at 127 reader.old ≡ None }
{
    let mut finder: Finder<'_, 'a> = Finder::new(alloc, tree, 0)?;
    read_only(alloc, &mut finder, reader, MOST_NESTED)
}
