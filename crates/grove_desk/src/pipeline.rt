ghost use Rattle.std.specs.Prelude.{◌<◌, ◌≤◌, ◌↔◌, length, IsTrue, IfOk, IfSome};
ghost use Rattle.grove_session.specs.declared.answers.TheConstants.{LINE_LIMIT};
ghost use Rattle.grove_desk.specs.Histories.{IsDeskReceipt};

use crate::door::{Door, NamesOf, WhoReads};
use crate::fault::NoReceipt;
use crate::state::State;
use crate::{Opening, Receipt};
use grove_line::{Line, LineReader};
use grove_store::Keeper;
use grove_tree::NoMemory;
use memchr::memchr;
use std::alloc::Global;
use std::mem;

/// So many lines of a visitor at most are put together.
pub(crate) const MOST_TOGETHER: usize = 16;

/// They have no more bytes together, with a line feed each.
const MOST_BYTES: usize = 64 * 1024;

/// Lines of a visitor that are put together, in order. Each is answered after those before it, and none after one that
/// has no receipt.
#[derive(Drop)]
pub(crate) struct Pipeline<B: Opening, K: Keeper> {
    lines: Vec<State<B, K>>,
    /// What so many of the first ones were answered is taken.
    taken: usize,
    /// So many of the first ones are settled.
    settled: usize,
}

impl<B: Opening, K: Keeper> Pipeline<B, K> {
    /// A copy of one line.
    pub(crate) fn of_line(
        alloc: Global,
        door: &Door<B>,
        reader: &mut LineReader,
        reads: WhoReads,
        line: &[u8],
    ) -> Result<Self, NoMemory>
        requires { length line.now ≤ LINE_LIMIT }
    {
        let mut lines = Vec::with_capacity(alloc, 1)?;
        lines.push(State::Waiting(door.line(alloc, reader, reads, line)?))?;
        Ok(Pipeline {
            lines,
            taken: 0,
            settled: 0,
        })
    }

    /// Copies of the whole lines at the front of the bytes: as many as are put together, up to the first that is too
    /// long for that.
    pub(crate) fn of_bytes(
        alloc: Global,
        door: &Door<B>,
        reader: &mut LineReader,
        reads: WhoReads,
        bytes: &[u8],
    ) -> Result<Self, NoMemory> {
        let mut lines = Vec::new(alloc);
        let mut room = MOST_BYTES;
        let mut rest = bytes;
        while let Some(length) = memchr(b'\n', rest) {
            if lines.len() >= MOST_TOGETHER || length >= room {
                break;
            }
            let line = door.line(alloc, reader, reads, &rest[..length])?;
            lines.push(State::Waiting(line))?;
            room -= length + 1;
            rest = &rest[length + 1..];
        }
        Ok(Pipeline {
            lines,
            taken: 0,
            settled: 0,
        })
    }

    /// Is every line's answer taken?
    pub(crate) fn is_empty(&self) -> bool
        ensures { IsTrue result ↔ (length self.now.lines.items ≤ self.now.taken) }
    {
        self.taken >= self.lines.len()
    }

    /// Does the first line that isn't settled wait to be taken?
    pub(crate) fn is_waiting(&self) -> bool
        ensures { IsTrue result → self.now.settled < length self.now.lines.items }
    {
        matches!(self.lines.get(self.settled), Some(State::Waiting(_)))
    }

    /// How many of the lines wait.
    pub(crate) fn waiting(&self) -> usize {
        self.lines.iter().filter(|state| state.is_waiting()).count()
    }

    /// Is every line settled?
    pub(crate) fn is_settled(&self) -> bool
        ensures { IsTrue result ↔ (length self.now.lines.items ≤ self.now.settled) }
    {
        self.settled >= self.lines.len()
    }

    /// Is any whose answer isn't taken?
    pub(crate) fn has_settled(&self) -> bool {
        self.settled > self.taken
    }

    /// The first line that waits. It leaves then; lines before it may be out.
    pub(crate) fn start(&mut self) -> Option<Line<NamesOf<B>>> {
        let place = self.lines.iter().position(|state| state.is_waiting())?;
        match mem::replace(&mut self.lines[place], State::Running) {
            State::Waiting(line) => Some(line),
            State::Running | State::Done(_) | State::Taken => None,
        }
    }

    /// Where the first of the lines that are out has got to. No line stays behind one that has no receipt.
    pub(crate) fn settle(&mut self, state: State<B, K>) {
        let Some(place) = self.lines.iter().position(|state| state.is_running()) else {
            return;
        };
        let is_done = state.is_done();
        let is_refused = state.is_refused();
        self.lines[place] = state;
        if is_done {
            self.settled = place + 1;
        }
        if is_refused {
            self.lines.truncate(self.settled);
        }
    }

    /// Takes what the first line was answered whose answer isn't taken yet, where it is settled.
    pub(crate) fn take_first(&mut self) -> Option<Result<Receipt, NoReceipt>>
        ensures { IfSome result (λ done. IfOk done (IsDeskReceipt K.stands_for B.store B.kept)) }
    {
        if !self.has_settled() || self.is_empty() {
            return None;
        }
        let first = mem::replace(&mut self.lines[self.taken], State::Taken);
        self.taken += 1;
        match first {
            State::Done(Ok(receipt)) => Some(Ok(receipt.into_receipt())),
            State::Done(Err(why)) => Some(Err(why)),
            State::Waiting(_) | State::Running | State::Taken => None,
        }
    }
}
