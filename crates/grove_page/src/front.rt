ghost use Rattle.std.specs.Prelude.{◌≡◌, [], false, List, ℕ, Some, IfOk};
ghost use Rattle.grove_store.specs.StoreStates.{StoreState};
ghost use Rattle.grove_desk.specs.Desks.{TellsLater};
ghost use Rattle.grove_desk.specs.Histories.{Led};
ghost use Rattle.grove_desk.specs.Hints.{caller};
ghost use Rattle.grove_page.specs.Pages.{VisitsDesk, ends_refused, is_refused};

use crate::RepliesSink;
use grove_desk::{Awaited, DeskFault, Told};
use grove_session::{SessionFault, Sink};
use grove_store::Store;
use grove_tree::NoMemory;

/// How the lines of a body were answered.
#[derive(Clone, Copy, Debug)]
pub struct Visited {
    /// The number of lines, or why no more of them are answered.
    pub ended: Result<u64, SessionFault>,
    /// There was just one line, and it is refused.
    pub is_refused: bool,
}

impl Visited {
    /// A visit that ended so, after which the visitor had been told this.
    pub fn new(ended: Result<u64, SessionFault>, told: Told) -> Visited
        ensures ended { result.ended ≡ ended }
        ensures refused { result.is_refused ≡ ends_refused ended told }
    {
        let is_refused = matches!(ended, Ok(1)) && !matches!(told, Told::Accepted);
        Visited { ended, is_refused }
    }
}

/// What a page is served of: it answers lines, and gives copies of its store.
pub trait Front<R> {
    /// The store that it was opened with.
    ghost opening: { Self → StoreState };

    /// What a visit asks of the runtime: that threads may share it.
    ghost asks: { Type 0 };

    /// Answers the lines of the bytes, one after the other, each with its reply and a line feed. Refusals have hints if
    /// that is asked for and there is memory for them.
    fn answer(&self, rt: &R, lines: &[u8], hints: bool, sink: &mut RepliesSink) -> Visited
        requires asks { asks }
        requires empty { ⟦<RepliesSink as Sink>⟧.contents sink.old ≡ Some [] }
        requires sound { ⟦<RepliesSink as Sink>⟧.has_failed sink.old ≡ false }
        ensures { (out : List ℕ) × (⟦<RepliesSink as Sink>⟧.contents sink.new ≡ Some out)
            × VisitsDesk (caller hints (opening self.now)) lines.now result.ended out
            × (result.is_refused ≡ is_refused result.ended out) };

    /// A copy of the store of one moment.
    fn snapshot(&self, rt: &R) -> Result<Store, DeskFault>
        requires asks { asks }
        ensures { IfOk result (Led (opening self.now)) };

    /// What is counted of the server, and of each node too if that is asked for.
    fn metrics(&self, rt: &R, by_node: bool) -> Result<String, NoMemory>
        requires asks { asks };

    /// A copy of the store once a round later than this one is done, or as it stands if that takes too long.
    fn snapshot_after(&self, rt: &R, after: u64) -> Result<Awaited, DeskFault>
        requires asks { asks }
        ensures { IfOk result (TellsLater (opening self.now) after) };

    /// Whether lines are still answered: they aren't once what a round left couldn't be kept.
    fn is_sound(&self, rt: &R) -> bool
        requires asks { asks };

    /// Learns that a request has come whole.
    fn note_request(&self);
}
