//! What a guest asks of a desk: lines, which are counted, and logged if they are refused, and copies of its store.
ghost use Rattle.std.specs.Prelude.{◌≡◌, ◌<◌, ◌^◌, true, false, List, ℕ};
ghost use Rattle.std.specs.Io.KnownBytes.{Appends, Consumes};
ghost use Rattle.grove_session.specs.Sessions.{SessionEnds};
ghost use Rattle.grove_desk.specs.Hints.{caller, CallerState, IsCallerReply};

use crate::guest::Guest;
use crate::host::Host;
use crate::leaving::has_left;
use crate::metrics_text::metrics_text;
use grove_base::NoMemory;
use grove_desk::{Awaited, Desk, DeskFault, Opening, Visit};
use grove_page::{Front, RepliesSink, Visited, visit};
use grove_session::{SessionFault, Sink, Source, session};
use grove_store::{Keeper, Store};
use std::alloc::AllocGlobal;
use std::marker::Model;
use std::net::TcpStream;
use std::sync::Wait;
use std::time::{Clock, Duration};

/// For so many seconds a round is waited for.
const LONGEST_WAIT: u64 = 30;

/// Answers the lines of the guest's source at the desk, one after the other, with hints in refusals if these are asked
/// for.
pub fn session_at<'a, B: Opening, K: Keeper + Drop, R: Host, I: Source, O: Sink>(
    rt: &R,
    desk: &'a Desk<B, K>,
    guest: &'a Guest<'a>,
    hints: bool,
    source: &mut I,
    sink: &mut O,
) -> Result<u64, SessionFault>
    requires sound_source { I.has_failed source.old ≡ false }
    requires sound_sink { O.has_failed sink.old ≡ false }
    requires reads { I.read_count source.old < 2 ^ 63 }
    ensures { (input out : List ℕ) × (new : CallerState)
        × Consumes (I.remaining source.old) (I.remaining source.new) input
        × Appends (O.contents sink.old) (O.contents sink.new) out
        × SessionEnds true IsCallerReply (caller hints desk.now.opening) result (I.remaining source.new)
        input out new }
{
    let mut visitor = Visit::watched(desk, guest, hints).together();
    session(rt, &mut visitor, source, sink)
}

/// A desk to which the requests of a guest go. Of all guests' long bodies one at a time is answered: so only that one's
/// lines are copied.
#[derive(Drop)]
pub struct ServedDesk<'a, B: Opening, K: Keeper> {
    desk: &'a Desk<B, K>,
    guest: &'a Guest<'a>,
    /// The connection over which the requests come.
    stream: &'a TcpStream,
}

impl<'a, B: Opening, K: Keeper> Model for ServedDesk<'a, B, K> {
    ghost use Rattle.grove_desk.specs.Desks.{DeskState};

    ghost Value = { DeskState };

    ghost view = { λ served. served.desk.now };
}

impl<'a, B: Opening, K: Keeper + Drop> ServedDesk<'a, B, K> {
    pub fn new(desk: &'a Desk<B, K>, guest: &'a Guest<'a>, stream: &'a TcpStream) -> Self {
        ServedDesk {
            desk,
            guest,
            stream,
        }
    }

    /// Has all connections end before long, if that is why the answers to a body ended.
    fn note_end<R: Wait>(&self, rt: &R, ended: Result<u64, SessionFault>) {
        if let Err(SessionFault::Unkept) = ended {
            self.guest.slots().streams().fail(rt);
        }
    }

    /// A copy of the store, if it is kept.
    fn kept_copy<R: Wait + AllocGlobal>(&self, rt: &R) -> Result<Option<Store>, NoMemory> {
        match self.desk.snapshot(rt, rt.alloc()) {
            Ok(store) => Ok(Some(store)),
            Err(DeskFault::Memory) => Err(NoMemory),
            Err(DeskFault::Unkept | DeskFault::Foreign) => Ok(None),
        }
    }

    /// Waits for a round later than this one, as long as a desk does, or until the client has left.
    fn await_round<R: Wait + Clock>(&self, rt: &R, after: u64) -> Result<(), NoMemory> {
        let pause = Duration::from_secs(1);
        for _second in 0..LONGEST_WAIT {
            let is_past = self.desk.await_round(rt, after, pause)?;
            if is_past || has_left(self.stream) || self.desk.has_failed(rt) {
                break;
            }
        }
        Ok(())
    }
}

impl<'a, B: Opening, K: Keeper + Drop, R: Host> Front<R> for ServedDesk<'a, B, K> {
    ghost use Rattle.std.specs.Thread.{IsSync};

    ghost opening = { λ served. served.opening };

    ghost asks = { IsSync R.row };

    fn answer(&self, rt: &R, lines: &[u8], hints: bool, sink: &mut RepliesSink) -> Visited {
        let _turn = self.guest.slots().turn_of_body(rt, lines.len());
        let mut visitor = Visit::watched(self.desk, self.guest, hints);
        let ended = visit(rt, &mut visitor, lines, sink);
        self.note_end(rt, ended);
        Visited::new(ended, visitor.told())
    }

    fn snapshot(&self, rt: &R) -> Result<Store, DeskFault> {
        Desk::snapshot(self.desk, rt, rt.alloc())
    }

    fn metrics(&self, rt: &R, by_node: bool) -> Result<String, NoMemory> {
        let store = if by_node { self.kept_copy(rt)? } else { None };
        let plans = self.desk.plan_counts(rt);
        metrics_text(rt, self.guest.slots(), plans, store.as_ref())
    }

    fn snapshot_after(&self, rt: &R, after: u64) -> Result<Awaited, DeskFault> {
        self.await_round(rt, after)?;
        Desk::snapshot_after(self.desk, rt, rt.alloc(), after, Duration::ZERO)
    }

    fn is_sound(&self, rt: &R) -> bool {
        !self.desk.has_failed(rt)
    }

    fn note_request(&self) {
        self.guest.note_request();
    }
}
