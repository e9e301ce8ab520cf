ghost use Rattle.std.specs.Prelude.{IfOk};
ghost use Rattle.grove_desk.specs.Desks.{TellsLater, store_told};
ghost use Rattle.grove_desk.specs.Histories.{IsKept};

use crate::{Awaited, Desk, DeskFault, Opening};
use grove_store::Keeper;
use grove_tree::NoMemory;
use std::alloc::Global;
use std::sync::Wait;
use std::time::{Clock, Duration};

impl<B: Opening, K: Keeper + Drop> Desk<B, K> {
    /// A copy of the store once a round later than this one is done, or as it stands if none is done for so long. It
    /// takes no line's turn meanwhile, and is woken only for such a round. As `snapshot` it may wait for rounds that
    /// one caller leads.
    pub fn snapshot_after<R: Wait + Clock>(
        &self,
        rt: &R,
        alloc: Global,
        after: u64,
        longest: Duration,
    ) -> Result<Awaited, DeskFault>
        ensures later { IfOk result (TellsLater self.now.opening after) }
        ensures kept { IfOk result (λ awaited. IsKept K.stands_for (store_told awaited)) }
    {
        let _is_past = self.await_round(rt, after, longest)?;
        let store = self.snapshot(rt, alloc)?;
        if store.rounds() > after {
            Ok(Awaited::Later(store))
        } else {
            Ok(Awaited::Unchanged(store))
        }
    }

    /// Waits until a round later than this one is done, but no longer than this, and says whether one is. No copy of
    /// the store is made.
    pub fn await_round<R: Wait + Clock>(
        &self,
        rt: &R,
        after: u64,
        longest: Duration,
    ) -> Result<bool, NoMemory> {
        let mut board = self.board.lock(rt);
        board.await_round(after)?;
        let bell = self.bells.of_round(after);
        let (mut board, _) = bell.wait_timeout_while(
            rt,
            board,
            longest,
            |board| !board.is_past(after),
        );
        board.leave_round(after);
        Ok(board.is_past(after))
    }
}
