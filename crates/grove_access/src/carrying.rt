ghost use Rattle.std.specs.Prelude.{◌≡◌, ◌<◌, [], ◌∷◌, ◌++◌, None, IfNone, MatchOption, vec_len, vec_capacity};
ghost use Rattle.grove_access.specs.Effects.{answer};
ghost use Rattle.grove_access.specs.Carries.{known_at, value_after, without, settled, AreApart};
ghost use Rattle.grove_access.specs.KnownPlaces.{StandsAt};

use crate::records::done;
use crate::{Access, Entry, Known, Op, Reply};
use grove_tree::Node;

/// The known value of a node, where it is out.
pub fn known_value(known: &[Known], node: Node) -> Option<i64>
    requires { AreApart known.now }
    ensures { result ≡ known_at known.now node }
{
    let place = place_of(known, node)?;
    Some(value_of(known[place]))
}

fn value_of(item: Known) -> i64
    ensures { result ≡ item.value }
{
    item.value
}

/// Where a node stands. It is sought from the end: what was taken out last is mostly given back first.
fn place_of(known: &[Known], node: Node) -> Option<usize>
    requires { AreApart known.now }
    ensures { MatchOption result (known_at known.now node ≡ None) (λ place. StandsAt known.now node place) }
{
    for place in (0..known.len()).rev() {
        if known[place].node == node {
            return Some(place);
        }
    }
    None
}

/// What the entries leave in the record of a node.
pub fn value_left(entries: &[Entry], node: Node, value: i64) -> i64
    ensures { result ≡ value_after entries.now node value }
{
    let mut left = value;
    for entry in entries {
        if entry.access.node == node {
            left = done(entry.access.op, left).0;
        }
    }
    left
}

/// The reply of an operation on a record.
pub fn reply_on(op: Op, value: i64) -> Reply
    ensures { result ≡ answer op value }
{
    done(op, value).1
}

/// Puts a node at the end, where there is room.
pub fn hold(known: &mut Vec<Known>, node: Node, value: i64)
    requires { vec_len known.old < vec_capacity known.old }
    ensures items { known.new.items ≡ known.old.items ++ record { node = node; value = value } ∷ [] }
    ensures capacity { vec_capacity known.new ≡ vec_capacity known.old }
{
    known.push_reserved(Known { node, value });
}

/// Puts an entry at the end, where there is room.
pub fn note(entries: &mut Vec<Entry>, number: u32, access: Access, reply: Reply)
    requires { vec_len entries.old < vec_capacity entries.old }
    ensures items { entries.new.items ≡ entries.old.items ++ record { number = number; access = access; reply = reply }
        ∷ [] }
    ensures capacity { vec_capacity entries.new ≡ vec_capacity entries.old }
{
    entries.push_reserved(Entry {
        number,
        access,
        reply,
    });
}

/// Takes a node out, where it is there, and answers its known value.
pub fn release(known: &mut Vec<Known>, node: Node) -> Option<i64>
    requires { AreApart known.old.items }
    ensures value { result ≡ known_at known.old.items node }
    ensures items { known.new.items ≡ without known.old.items node }
    ensures none { IfNone result (known.new ≡ known.old) }
    ensures capacity { vec_capacity known.new ≡ vec_capacity known.old }
{
    let place = place_of(known, node)?;
    Some(value_of(known.remove(place)))
}

/// Puts each node's present value in place of the known one.
pub fn settle_all(known: &mut Vec<Known>, entries: &[Entry])
    ensures items { known.new.items ≡ settled entries.now known.old.items }
    ensures capacity { vec_capacity known.new ≡ vec_capacity known.old }
{
    if entries.is_empty() {
        return;
    }
    for place in 0..known.len() {
        known[place] = settled_item(known[place], entries);
    }
}

fn settled_item(item: Known, entries: &[Entry]) -> Known
    ensures { result ≡ record { node = item.node; value = value_after entries.now item.node item.value } }
{
    Known {
        node: item.node,
        value: value_left(entries, item.node, item.value),
    }
}
