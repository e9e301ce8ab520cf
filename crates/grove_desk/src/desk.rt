ghost use Rattle.std.specs.Prelude.{◌≡◌, ◌≤◌, false, length, None, Err, IfOk, IfSome};
ghost use Rattle.std.specs.Option.{option_copied};
ghost use Rattle.grove_session.specs.declared.answers.TheConstants.{LINE_LIMIT};
ghost use Rattle.grove_tree.specs.Weights.{unweighed};
ghost use Rattle.grove_desk.specs.Lines.{IsReceiptFor, AnswersAnother};
ghost use Rattle.grove_desk.specs.Histories.{Led, IsReached, IsKept, IsKeptReceipt, IsDeskReceipt};
ghost use Rattle.grove_desk.specs.Receipts.{ReceiptState, IsAllowed, IsForeignReceipt, ComesAfter};

use crate::bells::Bells;
use crate::board::Board;
use crate::door::{Door, WhoReads};
use crate::errand::Errand;
use crate::fault::NoReceipt;
use crate::ledger::Ledger;
use crate::pipeline::Pipeline;
use crate::turn::Leading;
use crate::{DeskFault, Opening, Receipt, RoundWatch, Unwatched};
pub use closing::Closed;
use grove_session::LINE_LIMIT;
use grove_store::{InMemory, Keeper, Store};
use grove_tree::{Gate, NoMemory};
use std::alloc::Global;
use std::marker::Model;
use std::sync::atomic::{AtomicU64, Ordering};
use std::sync::{Mutex, Wait};
use std::thread::Threads;

mod closing;
mod counting;
mod leading;
mod waiting;

/// A caller that put lines so many times in a row with none of others on the board seems to be the only one.
const ALONE: u64 = 16;

/// A line with more bytes than this is put once no other such line is being answered.
const LARGE_LINE: usize = 64 * 1024;

/// A store that many callers share. Each puts a line and waits for its receipt; one of them, whoever finds the store
/// there, takes it with the first lines that wait, answers them by rounds, and puts it back. What it was opened with is
/// known by its type: so no other store gets behind its lock. What the last of these rounds left is kept by the keeper
/// before their lines have receipts. Once it can't be kept, the desk refuses every line and every copy of its store.
#[derive(Drop)]
pub struct Desk<B: Opening, K: Keeper = InMemory> {
    kept: bool,
    board: Mutex<Board<B, K>>,
    bells: Bells,
    /// Taken by the one large line that is answered.
    large: Mutex<()>,
    /// So many times in a row lines were put with none of others on the board.
    alone: AtomicU64,
    door: Door<B>,
}

impl<B: Opening, K: Keeper> Model for Desk<B, K> {
    ghost use Rattle.std.specs.Prelude.{◌≡◌};
    ghost use Rattle.grove_desk.specs.Desks.{DeskState};

    ghost Value = { DeskState };

    ghost view = { λ desk. record { opening = B.store; kept = desk.kept } };

    ghost invariant = { λ desk. desk.kept ≡ B.kept };
}

impl<B: Opening, K: Keeper + Drop> Desk<B, K> {
    /// A desk at which this store is shared, with what keeps it, and with a journal of every round where `kept` is set.
    /// It copies the store's tree, so that callers read their own lines; without memory for that, who leads reads them.
    pub fn open(alloc: Global, store: Store, keeper: K, kept: bool) -> Self
        requires store { store ≡ B.store }
        requires kept { kept ≡ B.kept }
        requires stands { K.stands_for keeper store }
        ensures { result ≡ record { opening = store; kept = kept } }
    {
        let door = Door::new(alloc, &store);
        let ledger = Ledger::new(alloc, store, keeper, kept);
        Desk {
            kept,
            board: Mutex::new(Board::new(alloc, ledger)),
            bells: Bells::new(),
            large: Mutex::new(()),
            alone: AtomicU64::new(0),
            door,
        }
    }

    /// Answers a line of at most 1,048,576 bytes, alone or in a round with others that wait, and gives its receipt. It
    /// may wait for others, and while lines of 16 callers wait it puts none; one of more than 65,536 bytes waits until
    /// none such is answered, so that no line waits for several of them. `seen` is a receipt that the new one has to
    /// come after. This caller's gate is called only in a round that it runs itself. `Memory`: the line had no effect.
    /// `Foreign`: it may have had one. `Unkept`: it may have had one that isn't kept, and every line from then on is
    /// refused so.
    pub fn answer<R: Threads + Wait + Sync, G: Gate + Sync>(
        &self,
        rt: &R,
        alloc: Global,
        seen: Option<&Receipt>,
        line: &[u8],
        gate: &G,
    ) -> Result<Receipt, DeskFault>
        requires { length line.now ≤ LINE_LIMIT }
        ensures line { IfOk result (λ receipt. receipt.line ≡ line.now) }
        ensures allowed { IfOk result (IsAllowed (unweighed self.now.opening.rows)) }
        ensures reached { IfOk result (IsReached self.now.opening) }
        ensures kept { IfOk result (IsKeptReceipt K.stands_for self.now.opening) }
        ensures follows { IfOk result (ComesAfter self.now.kept (option_copied seen.entry)) }
        ensures unnumbered { IfOk result (λ receipt. self.now.kept ≡ false → receipt.number ≡ 0) }
        ensures foreign { result ≡ Err DeskFault.Foreign
            → (receipt : ReceiptState) × IsDeskReceipt K.stands_for self.now.opening self.now.kept receipt
            × IsForeignReceipt self.now.kept line.now (option_copied seen.entry) receipt }
    {
        let mut errand = Errand::new(Leading::Once);
        self.answer_next(rt, alloc, &mut errand, seen, line, gate, &Unwatched)
    }

    /// The same of the next line of a visitor. If lines of it are left that were put together, it is the first of them:
    /// they are put unless that one is settled, or this one if none are left. Of the rounds that this caller leads is
    /// learned.
    pub(crate) fn answer_next<R: Threads + Wait + Sync, G: Gate + Sync, W: RoundWatch<R>>(
        &self,
        rt: &R,
        alloc: Global,
        errand: &mut Errand<B, K>,
        seen: Option<&Receipt>,
        line: &[u8],
        gate: &G,
        watch: &W,
    ) -> Result<Receipt, DeskFault>
        requires { length line.now ≤ LINE_LIMIT }
        ensures receipt { IfOk result
            (IsReceiptFor K.stands_for self.now line.now (option_copied seen.entry)) }
        ensures foreign { result ≡ Err DeskFault.Foreign
            → AnswersAnother K.stands_for self.now line.now (option_copied seen.entry) }
    {
        if let Some(done) = settled_first(&mut errand.lines) {
            return self.checked(done?, seen, line);
        }
        let leading = errand.leading;
        let _turn = if line.len() > LARGE_LINE {
            Some(self.large.lock(rt))
        } else {
            None
        };
        let mut taken = Vec::with_capacity(alloc, leading.most_taken())?;
        let put = self.lines_to_put(alloc, errand, line)?;
        let (ticket, turn) = self.put(rt, put, leading, &mut taken)?;
        let (first, rest) = self.attend(rt, alloc, ticket, turn, leading, &mut taken, gate, watch);
        errand.lines = Some(rest);
        self.checked(first?, seen, line)
    }

    /// The receipt, if it is this line's and comes after the one that was seen.
    fn checked(
        &self,
        receipt: Receipt,
        seen: Option<&Receipt>,
        line: &[u8],
    ) -> Result<Receipt, DeskFault>
        requires { IsDeskReceipt K.stands_for B.store B.kept receipt }
        ensures receipt { IfOk result
            (IsReceiptFor K.stands_for self.now line.now (option_copied seen.entry)) }
        ensures foreign { result ≡ Err DeskFault.Foreign
            → AnswersAnother K.stands_for self.now line.now (option_copied seen.entry) }
    {
        if receipt.is_of(line) && receipt.follows(seen, self.kept) {
            Ok(receipt)
        } else {
            Err(DeskFault::Foreign)
        }
    }

    /// The lines that are left, or else a copy of this one.
    fn lines_to_put(
        &self,
        alloc: Global,
        errand: &mut Errand<B, K>,
        line: &[u8],
    ) -> Result<Pipeline<B, K>, NoMemory>
        requires { length line.now ≤ LINE_LIMIT }
    {
        match errand.lines.take() {
            Some(left) if !left.is_empty() => Ok(left),
            _ => Pipeline::of_line(
                alloc,
                &self.door,
                &mut errand.reader,
                self.who_reads(),
                line,
            ),
        }
    }

    /// Puts the whole lines at the front of the bytes together for a visitor, unless lines of it are left.
    pub(crate) fn look_ahead(&self, alloc: Global, errand: &mut Errand<B, K>, bytes: &[u8]) {
        if errand.has_lines() {
            return;
        }
        let reads = self.who_reads();
        let lines = Pipeline::of_bytes(alloc, &self.door, &mut errand.reader, reads, bytes);
        if let Ok(lines) = lines {
            errand.lines = Some(lines);
        }
    }

    /// Who reads lines that are put now: their caller, unless it seems to be the only one.
    fn who_reads(&self) -> WhoReads {
        if self.alone.load(Ordering::Relaxed) < ALONE {
            WhoReads::Caller
        } else {
            WhoReads::Leader
        }
    }

    /// How many lines wait: they were put, and haven't left yet.
    pub fn waiting<R: Wait>(&self, rt: &R) -> u32 {
        u32::try_from(self.board.lock(rt).waiting()).unwrap_or(u32::MAX)
    }

    /// Has it failed to keep a round? It waits for none.
    pub fn has_failed<R: Wait>(&self, rt: &R) -> bool {
        self.board.lock(rt).has_failed()
    }

    /// A copy of the store as it stands between two rounds, and is kept. It may wait for rounds that one caller leads;
    /// the next ones begin after the copies that were asked for by then.
    pub fn snapshot<R: Wait>(&self, rt: &R, alloc: Global) -> Result<Store, DeskFault>
        ensures led { IfOk result (Led self.now.opening) }
        ensures kept { IfOk result (IsKept K.stands_for) }
    {
        self.board.lock(rt).want_copy();
        for _ in rt.forever() {
            let mut board = self.board.lock(rt);
            if let Some(copy) = board.store_copy(alloc) {
                let rings = board.rings();
                drop(board);
                self.bells.ring(&rings);
                return copy;
            }
            let _again = self.bells.looks.wait(rt, board);
        }
        unreachable!()
    }
}

/// What the first of the lines was answered, if it is settled.
fn settled_first<B: Opening, K: Keeper>(
    lines: &mut Option<Pipeline<B, K>>,
) -> Option<Result<Receipt, NoReceipt>>
    ensures { IfSome result (λ done. IfOk done (IsDeskReceipt K.stands_for B.store B.kept)) }
{
    match lines {
        Some(lines) => lines.take_first(),
        None => None,
    }
}
