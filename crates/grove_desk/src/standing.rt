ghost use Rattle.std.specs.Prelude.{◌≡◌, ◌↔◌, All, IsTrue, slice_get};
ghost use Rattle.std.specs.Option.{option_copied};
ghost use Rattle.grove_desk.specs.Histories.{StandsIn, Ascend, receipts_in};

use crate::{JournalEntry, Receipt};

/// Do the numbers rise from receipt to receipt?
pub(crate) fn ascend(receipts: &[Receipt]) -> bool
    ensures { IsTrue result ↔ Ascend receipts.now }
{
    for place in 1..receipts.len() {
        let earlier = &receipts[place - 1];
        let later = &receipts[place];
        if earlier.number >= later.number {
            return false;
        }
    }
    true
}

/// Is each receipt that of its number?
pub(crate) fn stand(rounds: &[JournalEntry], receipts: &[Receipt]) -> bool
    ensures { IsTrue result ↔ All (StandsIn rounds.now) receipts.now }
{
    for receipt in receipts {
        if !stands_in(rounds, receipt) {
            return false;
        }
    }
    true
}

/// Is the receipt that of its number?
fn stands_in(rounds: &[JournalEntry], receipt: &Receipt) -> bool
    ensures { IsTrue result ↔ StandsIn rounds.now receipt.now }
{
    match receipt_at(rounds, receipt.number) {
        Some(found) => found.same(receipt),
        None => false,
    }
}

/// The receipt of a number.
fn receipt_at(rounds: &[JournalEntry], number: u64) -> Option<&Receipt>
    ensures { option_copied result ≡ slice_get (receipts_in rounds.now) number }
{
    let mut rest = number;
    for round in rounds {
        let count = round.receipts.len() as u64;
        if rest < count {
            return round.receipts.get(rest as usize);
        }
        rest -= count;
    }
    None
}
