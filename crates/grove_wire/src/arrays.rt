//! The items of an array, each read at its number.
ghost use Rattle.std.specs.Prelude.{◌≡◌, ◌<◌, ◌≤◌, ◌^◌, Ok, IfOk, IfErr, length, vec_len};
ghost use Rattle.grove_wire.specs.Arrays.{EachRead, FewRead, ReadsAt, Stopped};

use crate::{Place, WireFault};
use serde_json::Value;
use std::alloc::Global;

/// What `read` gives of each item at its number, up to the first fault. More items than `most` are `Limit` at the
/// place.
pub(crate) fn read_few<T: Drop, F: Fn(u32, &Value) -> Result<T, WireFault>>(
    alloc: Global,
    most: usize,
    place: Place,
    items: &[Value],
    read: F,
) -> Result<Vec<T>, WireFault>
    requires callable { F.IsAlwaysCallable read }
    requires numbered { most < 2 ^ 32 }
    ensures all { IfOk result (λ all. FewRead most place (ReadsAt F.Fn read) items.now (Ok all.items)) }
    ensures few { IfOk result (λ all. vec_len all ≤ most) }
    ensures stopped { IfErr result (λ fault. Stopped fault (FewRead most place (ReadsAt F.Fn read) items.now)) }
{
    if items.len() > most {
        return Err(WireFault::Limit(place));
    }
    read_each(alloc, items, read)
}

/// The same of an array that is short enough.
fn read_each<T: Drop, F: Fn(u32, &Value) -> Result<T, WireFault>>(
    alloc: Global,
    items: &[Value],
    read: F,
) -> Result<Vec<T>, WireFault>
    requires callable { F.IsAlwaysCallable read }
    requires few { length items.now < 2 ^ 32 }
    ensures all { IfOk result (λ all. EachRead (ReadsAt F.Fn read) 0 items.now (Ok all.items)) }
    ensures many { IfOk result (λ all. vec_len all ≡ length items.now) }
    ensures stopped { IfErr result (λ fault. Stopped fault (EachRead (ReadsAt F.Fn read) 0 items.now)) }
{
    let mut all = Vec::new(alloc);
    for (at, item) in items.iter().enumerate() {
        let one = read(at as u32, item)?;
        all.push(one)?;
    }
    Ok(all)
}
