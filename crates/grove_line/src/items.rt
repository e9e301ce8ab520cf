//! The items of an array, each read at its place.
ghost use Rattle.std.specs.Prelude.{◌≡◌, ◌≤◌, ◌<◌, ◌^◌, List, length, vec_len, None, Err, IfOk};
ghost use Rattle.grove_line.specs.TokenValues.{value_at, items_at, AreItems, Starts};
ghost use Rattle.grove_line.specs.ArrayItems.{AreReadAs, IsReadAs};
ghost use Rattle.serde_json.specs.Data.{Data};

use crate::unread::Unread;
use crate::values::{Opened, open, pass, pass_opened};
use grove_wire::{Finder, Place, WireFault};
use json::Reader;
use std::alloc::Global;

/// What each item of an array is read as.
pub(crate) trait Item {
    ghost use Rattle.std.specs.Prelude.{Result};
    ghost use Rattle.serde_json.specs.Data.{Data};
    ghost use Rattle.grove_tree.specs.Trees.{Rows};
    ghost use Rattle.grove_wire.specs.declared.fault.WireFault.{WireFault as Fault};
    ghost use Rattle.grove_wire.specs.declared.place.Place.{Place as At};

    type Read: Drop;

    ghost reads: { Rows → At → Data → Result Self.Read Fault };

    /// Reads the item that comes next, which stands at the place.
    fn next<'a>(
        alloc: Global,
        finder: &mut Finder<'_, 'a>,
        reader: &mut Reader<'a>,
        depth: usize,
        place: Place,
    ) -> Result<Result<Self::Read, WireFault>, Unread>
        ensures read { IfOk result (λ outcome. Starts depth reader.old reader.new
            (λ d. outcome ≡ reads finder.old place d)) }
        ensures unread { result ≡ Err Unread.BadJson → value_at depth reader.old ≡ None }
        ensures tree { finder.new ≡ finder.old };
}

/// The items of the array that comes next and stands at the place, each read at its number: all of them, or the first
/// fault. More than so many are `Limit`, and what is no array is `Shape`.
pub(crate) fn items<'a, I: Item>(
    alloc: Global,
    finder: &mut Finder<'_, 'a>,
    reader: &mut Reader<'a>,
    depth: usize,
    place: Place,
    most: usize,
) -> Result<Result<Vec<I::Read>, WireFault>, Unread>
    requires { most < 2 ^ 32 }
    ensures read { IfOk result (λ outcome. Starts depth reader.old reader.new
        (IsReadAs (I.reads finder.old) most place outcome)) }
    ensures few { IfOk result (λ outcome. IfOk outcome (λ all. vec_len all ≤ most)) }
    ensures unread { result ≡ Err Unread.BadJson → value_at depth reader.old ≡ None }
    ensures tree { finder.new ≡ finder.old }
{
    let opened = open(reader, depth)?;
    if let Opened::Array(inside) = opened {
        return items_inside::<I>(alloc, finder, reader, inside, place, most);
    }
    pass_opened(reader, opened)?;
    Ok(Err(WireFault::Shape(place)))
}

/// The same of an array that has been opened.
fn items_inside<'a, I: Item>(
    alloc: Global,
    finder: &mut Finder<'_, 'a>,
    reader: &mut Reader<'a>,
    depth: usize,
    place: Place,
    most: usize,
) -> Result<Result<Vec<I::Read>, WireFault>, Unread>
    requires { most < 2 ^ 32 }
    ensures read { IfOk result (λ outcome. (ds : List Data) × AreItems depth reader.old reader.new ds
        × AreReadAs (I.reads finder.old) most place outcome ds) }
    ensures few { IfOk result (λ outcome. IfOk outcome (λ all. vec_len all ≤ most)) }
    ensures unread { result ≡ Err Unread.BadJson → items_at depth (length reader.old) reader.old ≡ None }
    ensures tree { finder.new ≡ finder.old }
{
    let mut all = Vec::new(alloc);
    let mut fault = None;
    let mut count = 0;
    'items: while !reader.take_end_array() {
        if fault.is_none() && count < most {
            match I::next(alloc, finder, reader, depth, place.within(count as u32))? {
                Ok(item) => all.push(item)?,
                Err(found) => fault = Some(found),
            }
        } else {
            pass(reader, depth)?;
        }
        count = (count + 1).min(most + 1);
    }
    if count > most {
        return Ok(Err(WireFault::Limit(place)));
    }
    match fault {
        Some(found) => Ok(Err(found)),
        None => Ok(Ok(all)),
    }
}
