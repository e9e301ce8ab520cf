ghost use Rattle.std.specs.Prelude.{IfOk};
ghost use Rattle.grove_wire.specs.Outcomes.{Gives};
ghost use Rattle.grove_wire.specs.RequestLaws.{AskedFits};
ghost use Rattle.grove_wire.specs.Requests.{asked_of, request_of};

use crate::reading::read_request;
use grove_tree::Tree;
use grove_wire::{Request, WireFault};
use json::Scratch;
use std::alloc::Global;
use std::fmt;

/// After a line with more bytes no memory is kept.
const MOST_KEPT: usize = 64 * 1024;

/// What reads lines, with memory of its own that it keeps from one to the next: none before the first line, and then
/// some 16 KiB and the length of the longest, but no more than 64 KiB.
#[derive(Drop)]
pub struct LineReader {
    scratch: Option<Box<Scratch>>,
}

impl LineReader {
    pub fn new() -> LineReader {
        LineReader { scratch: None }
    }

    /// The request that a line is, over the tree. What isn't JSON is `BadJson`; what is no object of just one member
    /// with a name that there is, is `Shape` of the whole. A plan's and a batch's accesses may tell lengths, and a
    /// check has a version as a document has.
    pub fn read(&mut self, alloc: Global, tree: &Tree, line: &[u8]) -> Result<Request, WireFault>
        ensures read { Gives asked_of result (request_of tree.now line.now) }
        ensures fits { IfOk result (λ request. AskedFits tree.now (asked_of request)) }
    {
        let mut scratch = match self.scratch.take() {
            Some(scratch) => scratch,
            None => Box::new(alloc, Scratch::new(alloc))?,
        };
        let request = read_request(alloc, &mut scratch, tree, line);
        if line.len() <= MOST_KEPT {
            self.scratch = Some(scratch);
        }
        request
    }
}

impl fmt::Debug for LineReader {
    fn fmt<W: fmt::Write>(&self, f: &mut fmt::Formatter<W>) -> fmt::Result {
        f.write_str("LineReader")
    }
}
