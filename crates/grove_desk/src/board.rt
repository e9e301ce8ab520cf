ghost use Rattle.std.specs.Prelude.{◌≡◌, ◌<◌, [], length, All, IfOk, IfSome, IfNone};
ghost use Rattle.grove_desk.specs.Histories.{Led, IsKept, IsDeskReceipt};
ghost use Rattle.grove_desk.specs.Boards.{Takes};

use crate::bells::Rings;
use crate::desk_receipt::DeskReceipt;
use crate::door::NamesOf;
use crate::fault::NoReceipt;
use crate::ledger::Ledger;
use crate::pipeline::Pipeline;
use crate::slot::Slot;
use crate::state::State;
use crate::turn::{Leading, Turn};
use crate::{DeskFault, Opening, Receipt};
use grove_build::PlanCounts;
use grove_line::{Asked, Line};
use grove_store::{Keeper, Store};
use grove_tree::NoMemory;
use std::alloc::Global;

/// How many callers may wait with their lines, and the most lines that are answered in one round.
pub(crate) const MOST_LINES: usize = 16;

/// The most lines that leave with the store at once.
pub(crate) const MOST_TAKEN: usize = 256;

/// What lies behind a desk's lock: the store with its journal, unless they are out, and the lines that were put and not
/// yet taken, in the order in which they were put.
#[derive(Drop)]
pub(crate) struct Board<B: Opening, K: Keeper> {
    ledger: Option<Ledger<B, K>>,
    slots: Vec<Slot<B, K>>,
    tickets: u64,
    /// How many callers wait for a copy of the store. While there are any, it isn't taken.
    copies: u64,
    /// How many callers wait for room for their lines.
    outside: u64,
    /// The store's count of rounds when it was last here.
    rounds: u64,
    /// What the store had counted of plans by then.
    plans: PlanCounts,
    /// Had the keeper failed to keep a round by then?
    failed: bool,
    /// For each caller who waits for a later round: which one it has to be later than.
    awaited: Vec<u64>,
}

impl<B: Opening, K: Keeper + Drop> Board<B, K> {
    pub(crate) fn new(alloc: Global, ledger: Ledger<B, K>) -> Self {
        Board {
            rounds: ledger.rounds(),
            plans: ledger.plan_counts(),
            failed: ledger.has_failed(),
            ledger: Some(ledger),
            slots: Vec::new(alloc),
            tickets: 0,
            copies: 0,
            outside: 0,
            awaited: Vec::new(alloc),
        }
    }

    /// The store with its journal, where they are here.
    pub(crate) fn into_ledger(self) -> Option<Ledger<B, K>> {
        let Board { ledger, .. } = self;
        ledger
    }

    /// Puts lines behind all others, and gives their ticket.
    pub(crate) fn put(&mut self, lines: Pipeline<B, K>) -> Result<u64, NoMemory> {
        let ticket = self.tickets;
        self.slots.push(Slot { ticket, lines })?;
        self.tickets = self.tickets.wrapping_add(1);
        Ok(ticket)
    }

    /// Are there lines?
    pub(crate) fn has_lines(&self) -> bool {
        !self.slots.is_empty()
    }

    /// How many lines wait.
    pub(crate) fn waiting(&self) -> usize {
        self.slots.iter().fold(0usize, |sum, slot| sum.saturating_add(slot.lines.waiting()))
    }

    /// How many callers wait for their lines to be taken.
    fn callers(&self) -> usize {
        self.slots
            .iter()
            .filter(|slot| slot.lines.is_waiting())
            .count()
    }

    pub(crate) fn is_full(&self) -> bool {
        self.callers() >= MOST_LINES
    }

    /// A caller waits for room.
    pub(crate) fn stay_outside(&mut self) {
        self.outside = self.outside.saturating_add(1);
    }

    /// It has found room.
    pub(crate) fn come_in(&mut self) {
        self.outside = self.outside.saturating_sub(1);
    }

    /// For how many of those who wait for it there is room.
    pub(crate) fn room(&self) -> u64 {
        self.outside
            .min(MOST_LINES.saturating_sub(self.callers()) as u64)
    }

    /// Is a round later than this one done?
    pub(crate) fn is_past(&self, after: u64) -> bool {
        self.rounds > after
    }

    /// What the store had counted of plans when it was last here.
    pub(crate) fn plan_counts(&self) -> PlanCounts {
        self.plans
    }

    /// Had the keeper failed to keep a round when the store was last here?
    pub(crate) fn has_failed(&self) -> bool {
        self.failed
    }

    /// A caller waits for a round later than this one.
    pub(crate) fn await_round(&mut self, after: u64) -> Result<(), NoMemory> {
        Ok(self.awaited.push(after)?)
    }

    /// It waits no more.
    pub(crate) fn leave_round(&mut self, after: u64) {
        if let Some(place) = self.awaited.iter().position(|awaited| *awaited == after) {
            self.awaited.swap_remove(place);
        }
    }

    /// Whom to wake: the callers whose lines are settled, those who waited for a round that is done and, where the
    /// store is here, all who want a copy of it; or else the first caller whose lines wait, who is to lead.
    pub(crate) fn rings(&self) -> Rings {
        let is_here = self.ledger.is_some();
        let mut rings = Rings::new(is_here && self.copies > 0);
        let mut is_led = !is_here || self.copies > 0;
        for slot in &self.slots {
            let waits = slot.lines.is_waiting();
            if slot.lines.is_settled() {
                rings.add(slot.ticket);
            } else if waits && !is_led {
                rings.add_leader(slot.ticket);
            }
            is_led |= waits;
        }
        self.add_rounds(&mut rings);
        rings
    }

    /// And those who waited for a round that is done.
    fn add_rounds(&self, rings: &mut Rings) {
        for after in &self.awaited {
            if self.is_past(*after) {
                rings.add_round(*after);
            }
        }
    }

    /// Keeps the store here, once it is back, until it was copied.
    pub(crate) fn want_copy(&mut self) {
        self.copies = self.copies.saturating_add(1);
    }

    /// A copy of the store, for a caller who wanted one, where the store is here.
    pub(crate) fn store_copy(&mut self, alloc: Global) -> Option<Result<Store, DeskFault>>
        ensures led { IfSome result (λ copy. IfOk copy (Led B.store)) }
        ensures kept { IfSome result (λ copy. IfOk copy (IsKept K.stands_for)) }
    {
        let ledger = self.ledger.as_ref()?;
        let copy = ledger.store_copy(alloc);
        self.copies = self.copies.saturating_sub(1);
        Some(copy)
    }

    /// What the caller of this ticket does next: it leaves where all of its lines are settled, or one is and it may go
    /// then; it takes the store with the first lines that wait, where both are here; and else it waits.
    pub(crate) fn turn(
        &mut self,
        ticket: u64,
        may_go: bool,
        leading: Leading,
        taken: &mut Vec<Asked<NamesOf<B>>>,
    ) -> Turn<Pipeline<B, K>, Ledger<B, K>>
        requires { taken.old.items ≡ [] }
        ensures { Takes result taken.new.items }
    {
        if let Some(lines) = self.collect(ticket, may_go) {
            return Turn::Leave(lines);
        }
        match self.take(leading, taken) {
            Some(ledger) => Turn::Lead(ledger),
            None => Turn::Wait,
        }
    }

    /// Takes the lines of this ticket off the board, where all are settled, or one is and their caller may go then.
    fn collect(&mut self, ticket: u64, may_go: bool) -> Option<Pipeline<B, K>> {
        let place = place_of(&self.slots, ticket)?;
        let lines = &self.slots[place].lines;
        if !lines.is_settled() && !(may_go && lines.has_settled()) {
            return None;
        }
        let Slot { lines, .. } = self.slots.remove(place);
        Some(lines)
    }

    /// Takes the store with the lines that wait, where both are here: the first ones of all callers, then the second
    /// ones, and so on, as many as there is room for.
    fn take(&mut self, leading: Leading, taken: &mut Vec<Asked<NamesOf<B>>>) -> Option<Ledger<B, K>>
        requires { taken.old.items ≡ [] }
        ensures some { IfSome result (λ _. 0 < length taken.new.items) }
        ensures none { IfNone result (taken.new.items ≡ []) }
    {
        if self.ledger.is_none() || self.copies > 0 {
            return None;
        }
        for _ in 0..leading.most_of_each() {
            take_next(&mut self.slots, taken);
        }
        if taken.is_empty() {
            return None;
        }
        self.ledger.take()
    }

    /// Puts the store back, and leaves to the callers of the lines what they were answered: those of the first lines,
    /// as many as there are receipts, or all of them a refusal. The other lines wait again, where they were.
    pub(crate) fn put_back(
        &mut self,
        ledger: Ledger<B, K>,
        taken: &mut Vec<Asked<NamesOf<B>>>,
        answered: Result<Vec<Receipt>, NoReceipt>,
    )
        requires { IfOk answered (λ receipts. All (IsDeskReceipt K.stands_for B.store B.kept) receipts.items) }
        ensures { taken.new.items ≡ [] }
    {
        match answered {
            Ok(receipts) => settle_answered(&mut self.slots, taken, receipts),
            Err(why) => settle_refused(&mut self.slots, taken, why),
        }
        self.rounds = ledger.rounds();
        self.plans = ledger.plan_counts();
        self.failed = ledger.has_failed();
        self.ledger = Some(ledger);
    }
}

/// Takes the next line of each caller that waits, as many as there is room for.
fn take_next<B: Opening, K: Keeper>(
    slots: &mut Vec<Slot<B, K>>,
    taken: &mut Vec<Asked<NamesOf<B>>>,
) {
    for slot in slots.iter_mut() {
        if taken.len() == taken.capacity() {
            break;
        }
        if let Some(line) = slot.lines.start() {
            taken.push_reserved(Asked {
                ticket: slot.ticket,
                line,
            });
        }
    }
}

/// Leaves the first of the lines their receipts. The others wait again.
fn settle_answered<B: Opening, K: Keeper>(
    slots: &mut Vec<Slot<B, K>>,
    taken: &mut Vec<Asked<NamesOf<B>>>,
    receipts: Vec<Receipt>,
)
    requires { All (IsDeskReceipt K.stands_for B.store B.kept) receipts.items }
    ensures { taken.new.items ≡ [] }
{
    let mut receipts = receipts.into_iter();
    for asked in taken.drain(..) {
        let state = state_of(receipts.next(), asked.line);
        settle(slots, asked.ticket, state);
    }
}

/// Leaves each of the lines the refusal.
fn settle_refused<B: Opening, K: Keeper>(
    slots: &mut Vec<Slot<B, K>>,
    taken: &mut Vec<Asked<NamesOf<B>>>,
    why: NoReceipt,
)
    ensures { taken.new.items ≡ [] }
{
    for asked in taken.drain(..) {
        settle(slots, asked.ticket, State::Done(Err(why)));
    }
}

/// Where a line has got to that has this receipt, or none.
fn state_of<B: Opening, K: Keeper>(receipt: Option<Receipt>, line: Line<NamesOf<B>>) -> State<B, K>
    requires { IfSome receipt (IsDeskReceipt K.stands_for B.store B.kept) }
{
    match receipt {
        Some(receipt) => State::Done(Ok(DeskReceipt::new(receipt))),
        None => State::Waiting(line),
    }
}

/// Where the first line that is out under this ticket has got to now.
fn settle<B: Opening, K: Keeper>(slots: &mut Vec<Slot<B, K>>, ticket: u64, state: State<B, K>) {
    if let Some(place) = place_of(slots, ticket) {
        slots[place].lines.settle(state);
    }
}

/// Where the slot of a ticket stands.
fn place_of<B: Opening, K: Keeper>(slots: &[Slot<B, K>], ticket: u64) -> Option<usize>
    ensures { IfSome result (λ place. place < length slots.now) }
{
    slots.iter().position(|slot| slot.ticket == ticket)
}
