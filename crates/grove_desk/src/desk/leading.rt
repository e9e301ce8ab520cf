//! How a caller comes to what its lines are answered: it leads rounds, or waits for who does.
ghost use Rattle.std.specs.Prelude.{◌≡◌, ◌<◌, [], All, IfOk};
ghost use Rattle.grove_desk.specs.Histories.{IsDeskReceipt};
ghost use Rattle.grove_desk.specs.Boards.{Takes};

use super::ALONE;
use crate::board::Board;
use crate::door::NamesOf;
use crate::fault::NoReceipt;
use crate::ledger::Ledger;
use crate::pipeline::Pipeline;
use crate::turn::{Leading, Turn};
use crate::{Desk, Opening, Receipt, RoundWatch};
use grove_line::Asked;
use grove_store::Keeper;
use grove_tree::{Gate, NoMemory};
use std::alloc::Global;
use std::sync::atomic::Ordering;
use std::sync::{MutexGuard, Wait};
use std::thread::Threads;

impl<B: Opening, K: Keeper + Drop> Desk<B, K> {
    /// Puts lines once there is room for them, and gives their ticket and what their caller does next.
    pub(super) fn put<R: Wait>(
        &self,
        rt: &R,
        lines: Pipeline<B, K>,
        leading: Leading,
        taken: &mut Vec<Asked<NamesOf<B>>>,
    ) -> Result<(u64, Turn<Pipeline<B, K>, Ledger<B, K>>), NoMemory>
        requires { taken.old.items ≡ [] }
        ensures lines { IfOk result (λ put. Takes put.1 taken.new.items) }
    {
        let mut board = self.board.lock(rt);
        board.stay_outside();
        let mut board = self
            .bells
            .room
            .wait_while(rt, board, |board| board.is_full());
        board.come_in();
        self.note_others(board.has_lines());
        match board.put(lines) {
            Ok(ticket) => Ok((ticket, self.await_turn(rt, board, ticket, leading, taken))),
            Err(NoMemory) => {
                drop(board);
                // The room that they leave is another one's.
                self.bells.let_in(1);
                Err(NoMemory)
            }
        }
    }

    /// Waits for what the lines of this ticket were answered, and gives the first answer and the rest. Whenever it
    /// finds the store there, it leads: it answers the first lines that wait itself, outside the lock, and puts back
    /// the store and what they were answered.
    pub(super) fn attend<R: Threads + Wait + Sync, G: Gate + Sync, W: RoundWatch<R>>(
        &self,
        rt: &R,
        alloc: Global,
        ticket: u64,
        turn: Turn<Pipeline<B, K>, Ledger<B, K>>,
        leading: Leading,
        taken: &mut Vec<Asked<NamesOf<B>>>,
        gate: &G,
        watch: &W,
    ) -> (Result<Receipt, NoReceipt>, Pipeline<B, K>)
        requires { Takes turn taken.old.items }
        ensures { IfOk result.0 (IsDeskReceipt K.stands_for B.store B.kept) }
    {
        let mut turn = turn;
        for _ in rt.forever() {
            turn = match turn {
                Turn::Leave(mut lines) => match lines.take_first() {
                    Some(first) => return (first, lines),
                    None => Turn::Wait,
                },
                Turn::Lead(mut ledger) => {
                    let answered = ledger.answer(rt, alloc, taken, gate, watch);
                    self.put_back(rt, ledger, ticket, leading, taken, answered)
                }
                Turn::Wait => self.await_turn(rt, self.board.lock(rt), ticket, leading, taken),
            };
        }
        unreachable!()
    }

    /// Notes whether lines are put beside those of others.
    fn note_others(&self, are_there: bool) {
        let alone = self.alone.load(Ordering::Relaxed);
        if are_there && alone > 0 {
            self.alone.store(0, Ordering::Relaxed);
        } else if !are_there && alone < ALONE {
            self.alone.store(alone + 1, Ordering::Relaxed);
        }
    }

    /// What the caller of this ticket does next. If it is to wait, it looks once more after it was woken.
    fn await_turn<R: Wait>(
        &self,
        rt: &R,
        board: MutexGuard<'_, Board<B, K>>,
        ticket: u64,
        leading: Leading,
        taken: &mut Vec<Asked<NamesOf<B>>>,
    ) -> Turn<Pipeline<B, K>, Ledger<B, K>>
        requires { taken.old.items ≡ [] }
        ensures { Takes result taken.new.items }
    {
        let mut board = board;
        let mut turn = board.turn(ticket, false, leading, taken);
        if let Turn::Wait = turn {
            board = self.bells.of(ticket).wait(rt, board);
            turn = board.turn(ticket, false, leading, taken);
        }
        let room = board.room();
        drop(board);
        self.bells.let_in(room);
        turn
    }

    /// Puts back the store and what the lines were answered, wakes those who wait for that, and says what the caller
    /// that led does next.
    fn put_back<R: Wait>(
        &self,
        rt: &R,
        ledger: Ledger<B, K>,
        ticket: u64,
        leading: Leading,
        taken: &mut Vec<Asked<NamesOf<B>>>,
        answered: Result<Vec<Receipt>, NoReceipt>,
    ) -> Turn<Pipeline<B, K>, Ledger<B, K>>
        requires { IfOk answered (λ receipts. All (IsDeskReceipt K.stands_for B.store B.kept) receipts.items) }
        ensures { Takes result taken.new.items }
    {
        let mut board = self.board.lock(rt);
        board.put_back(ledger, taken, answered);
        let turn = board.turn(ticket, leading == Leading::Once, leading, taken);
        let rings = board.rings();
        let room = board.room();
        drop(board);
        self.bells.ring(&rings);
        self.bells.let_in(room);
        turn
    }
}
