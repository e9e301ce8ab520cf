ghost use Rattle.std.specs.Prelude.{◌≡◌, false};

use crate::desks::small_store;
use crate::fixtures::Host;
use grove_desk::{Desk, Opening, Visit};
use grove_session::Answers;
use grove_store::{InMemory, Store};
use grove_tree::OpenGate;
use std::marker::Brand;

const ADD: &[u8] = b"{\"batch\":[[[\"add\",\"/a\",1]]]}";

const GET: &[u8] = b"{\"batch\":[[[\"get\",\"/a\"]]]}";

/// Three such lines.
const ADDS: &[u8] =
    b"{\"batch\":[[[\"add\",\"/a\",1]]]}\n{\"batch\":[[[\"add\",\"/a\",1]]]}\n{\"batch\":[[[\"add\",\"/a\",1]]]}\n";

/// What another caller finds once one of them is done, and once all are.
const FOUND: [&[u8]; 2] = [
    b"{\"places\":[0],\"replies\":[[11]],\"round\":2}",
    b"{\"places\":[0],\"replies\":[[13]],\"round\":4}",
];

/// The replies to the first two, with that caller's round between them, and without.
const APART: [&[u8]; 2] = [
    b"{\"places\":[0],\"replies\":[[11]],\"round\":1}",
    b"{\"places\":[0],\"replies\":[[12]],\"round\":3}",
];

const TOGETHER: [&[u8]; 2] = [
    b"{\"places\":[0],\"replies\":[[11]],\"round\":1}",
    b"{\"places\":[0],\"replies\":[[12]],\"round\":2}",
];

#[test]
fn lines_that_come_together_are_done_in_turn_or_together(rt: HostRuntime) {
    let store = small_store(&rt);
    lines_are_done::<Brand, HostRuntime>(&rt, store, false, FOUND[0], APART);
    let store = small_store(&rt);
    lines_are_done::<Brand, HostRuntime>(&rt, store, true, FOUND[1], TOGETHER);
}

/// A visitor with three lines comes to two of them, with another caller's round between, and leaves.
fn lines_are_done<B: Opening, R: Host>(
    rt: &R,
    store: Store,
    together: bool,
    found: &[u8],
    replies: [&[u8]; 2],
)
    requires store { store ≡ B.store }
    requires kept { B.kept ≡ false }
{
    let desk = Desk::<B>::open(rt.alloc(), store, InMemory, false);
    let mut visit = Visit::new(&desk);
    if together {
        visit = visit.together();
    }
    visit.look_ahead(rt, ADDS);
    let first = visit.answer(rt, ADD).expect(rt, "a reply");
    assert!(rt; first.as_slice() == replies[0]);
    let other = desk
        .answer(rt, rt.alloc(), None, GET, &OpenGate)
        .expect(rt, "a receipt");
    assert!(rt; other.reply.as_slice() == found);
    let second = visit.answer(rt, ADD).expect(rt, "a reply");
    assert!(rt; second.as_slice() == replies[1]);
    assert_eq!(rt; desk.waiting(rt), 0);
    visit.leave(rt);
}
