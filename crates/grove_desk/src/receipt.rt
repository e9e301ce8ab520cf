ghost use Rattle.std.specs.Prelude.{◌≡◌, ◌↔◌, IsTrue, IfOk};
ghost use Rattle.std.specs.Option.{option_copied};
ghost use Rattle.grove_store.specs.Refusals.{TellsRefusal};
ghost use Rattle.grove_desk.specs.Receipts.{ComesAfter};

use grove_store::Refusal;
use grove_tree::NoMemory;
use std::alloc::Global;
use std::marker::Model;

/// What a desk tells of a line that it answered.
#[derive(Debug, Drop)]
pub struct Receipt {
    /// The place of the line among all lines that were answered, counted from 0 and held at the greatest number; 0
    /// where no journal is kept.
    pub number: u64,
    pub line: Vec<u8>,
    /// The reply, without a line feed.
    pub reply: Vec<u8>,
    /// Why the line is refused, if it is.
    pub(crate) refusal: Option<Refusal>,
    /// The store's count of rounds once the line was answered.
    pub rounds: u64,
}

impl Model for Receipt {
    ghost use Rattle.grove_store.specs.Refusals.{TellsRefusal};
    ghost use Rattle.grove_desk.specs.Receipts.{ReceiptState};

    ghost Value = { ReceiptState };

    ghost view = { λ receipt. record {
      number = receipt.number;
      line = receipt.line.items;
      reply = receipt.reply.items;
      rounds = receipt.rounds;
    } };

    ghost invariant = { λ receipt. TellsRefusal receipt.refusal receipt.reply.items };
}

impl Receipt {
    /// Why the line is refused, if it is.
    pub fn refusal(&self) -> Option<Refusal>
        ensures tells { TellsRefusal result self.now.reply }
    {
        self.refusal
    }

    /// The same receipt once more.
    pub(crate) fn copy(&self, alloc: Global) -> Result<Receipt, NoMemory>
        ensures { IfOk result (λ copy. copy ≡ self.now) }
    {
        Ok(Receipt {
            number: self.number,
            line: Vec::from_slice(alloc, &self.line)?,
            reply: Vec::from_slice(alloc, &self.reply)?,
            refusal: self.refusal,
            rounds: self.rounds,
        })
    }

    /// What a later receipt is compared with, without the line and the reply.
    pub(crate) fn seen(&self, alloc: Global) -> Receipt
        ensures { (result.number ≡ self.now.number) × (result.rounds ≡ self.now.rounds) }
    {
        Receipt {
            number: self.number,
            line: Vec::new(alloc),
            reply: Vec::new(alloc),
            refusal: None,
            rounds: self.rounds,
        }
    }

    pub(crate) fn into_reply(self) -> Vec<u8>
        ensures { result.items ≡ self.reply }
    {
        let Receipt { reply, .. } = self;
        reply
    }

    /// Is it the receipt of this line?
    pub(crate) fn is_of(&self, line: &[u8]) -> bool
        ensures { IsTrue result ↔ (self.now.line ≡ line.now) }
    {
        self.line.as_slice() == line
    }

    /// Are both receipts the same?
    pub(crate) fn same(&self, other: &Receipt) -> bool
        ensures { IsTrue result ↔ (self.now ≡ other.now) }
    {
        self.number == other.number
            && self.line.as_slice() == other.line.as_slice()
            && self.reply.as_slice() == other.reply.as_slice()
            && self.rounds == other.rounds
    }

    /// Does it come after one that was seen?
    pub(crate) fn follows(&self, seen: Option<&Receipt>, kept: bool) -> bool
        ensures { IsTrue result ↔ ComesAfter kept (option_copied seen.entry) self.now }
    {
        match seen {
            Some(seen) => { seen.rounds <= self.rounds && (!kept || seen.number < self.number) }
            None => true,
        }
    }
}
