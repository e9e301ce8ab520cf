ghost use Rattle.std.specs.Prelude.{◌≡◌, true};

use crate::fixtures::{Host, two_leaves};
use grove_access::Records;
use grove_desk::{Closed, Desk, Opening, Receipt};
use grove_store::{InMemory, Store};
use grove_tree::OpenGate;
use std::marker::Brand;

const ADD: &[u8] = b"{\"batch\":[[[\"add\",\"/a\",1]]]}";

/// The replies to two such batches where nobody else waits.
const REPLIES: [&[u8]; 2] = [
    b"{\"places\":[0],\"replies\":[[11]],\"round\":1}",
    b"{\"places\":[0],\"replies\":[[12]],\"round\":2}",
];

/// A store of one worker over a root and two leaves with records 0, 10 and 20.
pub fn small_store(rt: &impl Host) -> Store {
    let tree = two_leaves(rt, rt.alloc());
    let records = Records::new(rt.alloc(), &[0, 10, 20]).expect(rt, "room for records");
    assert!(rt; records.fits(&tree));
    Store::open(rt.alloc(), tree, records, 1).expect(rt, "a store")
}

/// Closes the desk: there were so many rounds, and calls of so many lines each.
fn close_after<B: Opening>(
    rt: &impl Host,
    desk: Desk<B>,
    receipts: &[Receipt],
    rounds: u64,
    lines: &[usize],
) {
    let closed = desk.close(rt.alloc(), receipts).ok();
    let Closed { store, journal, .. } = closed.expect(rt, "a desk that closes");
    assert!(rt; store.rounds() == rounds && journal.len() == lines.len());
    assert!(rt;
        journal
            .iter()
            .zip(lines)
            .all(|(entry, lines)| entry.receipts.len() == *lines)
    );
}

/// The receipt of a batch that adds 1 to `/a`.
fn add<B: Opening, R: Host>(rt: &R, desk: &Desk<B>, seen: Option<&Receipt>) -> Receipt {
    desk.answer(rt, rt.alloc(), seen, ADD, &OpenGate)
        .expect(rt, "a receipt")
}

#[test]
fn lines_of_one_caller_are_rounds_of_their_own_and_the_journal_has_them(rt: HostRuntime) {
    let store = small_store(&rt);
    two_rounds::<Brand, HostRuntime>(&rt, store);
}

fn two_rounds<B: Opening, R: Host>(rt: &R, store: Store)
    requires store { store ≡ B.store }
    requires kept { B.kept ≡ true }
{
    let desk = Desk::<B>::open(rt.alloc(), store, InMemory, true);
    let first = add(rt, &desk, None);
    let second = add(rt, &desk, Some(&first));
    assert!(rt; first.number == 0 && first.reply.as_slice() == REPLIES[0]);
    assert!(rt; second.number == 1 && second.reply.as_slice() == REPLIES[1]);
    close_after(rt, desk, &[first, second], 2, &[1, 1]);
}

#[test]
fn a_desk_does_not_close_on_receipts_in_another_order(rt: HostRuntime) {
    let store = small_store(&rt);
    closing_is_refused::<Brand, HostRuntime>(&rt, store);
}

fn closing_is_refused<B: Opening, R: Host>(rt: &R, store: Store)
    requires store { store ≡ B.store }
    requires kept { B.kept ≡ true }
{
    let desk = Desk::<B>::open(rt.alloc(), store, InMemory, true);
    let first = add(rt, &desk, None);
    let second = add(rt, &desk, Some(&first));
    let refused = desk.close(rt.alloc(), &[second, first]).err();
    let store = refused.flatten().expect(rt, "the store comes back");
    assert!(rt; store.rounds() == 2);
}
