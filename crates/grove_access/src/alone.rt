ghost use Rattle.std.specs.Prelude.{◌≡◌, ◌<◌, ◌≤◌, [], ◌∷◌, ◌++◌, length, vec_len, vec_capacity, IfOk, OnOk, OnErr};
ghost use Rattle.grove_access.specs.Lists.{nodes_of, AreBelow};
ghost use Rattle.grove_access.specs.Effects.{records_after, replies_to};

use crate::{AccessList, Records, Reply};
use grove_tree::NoMemory;
use std::alloc::Global;

/// Does the accesses of the list in order, with no other transaction beside it. It is refused before any change.
pub fn run_alone(
    alloc: Global,
    records: &mut Records,
    list: &AccessList,
) -> Result<Vec<Reply>, NoMemory>
    requires fits { AreBelow (length records.old) (nodes_of list.now) }
    ensures records { OnOk result (records.new ≡ records_after list.now records.old) }
    ensures replies { IfOk result (λ replies. replies.items ≡ replies_to list.now records.old) }
    ensures refused { OnErr result (records.new ≡ records.old) }
{
    let mut replies = Vec::with_capacity(alloc, list.len() as usize)?;
    for access in 0..list.len() {
        let reply = records.apply(&list.get(access));
        put(&mut replies, reply);
    }
    Ok(replies)
}

// Puts a reply at the end, where there is room.
fn put(replies: &mut Vec<Reply>, reply: Reply)
    requires { vec_len replies.old < vec_capacity replies.old }
    ensures items { replies.new.items ≡ replies.old.items ++ reply ∷ [] }
    ensures capacity { vec_capacity replies.old ≤ vec_capacity replies.new }
{
    let _ = replies.push(reply);
}
