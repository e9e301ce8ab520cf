//! A list as it is read before it is known which version it has.
ghost use Rattle.std.specs.Prelude.{◌≡◌, List, length, None, Err, IfOk};
ghost use Rattle.serde_json.specs.Data.{Data};
ghost use Rattle.grove_line.specs.ListReading.{AreListed, IsListRead, read_in};
ghost use Rattle.grove_line.specs.TokenValues.{value_at, items_at, AreItems, Starts};

use crate::accesses::Accesses;
use crate::scalars::few;
use crate::unread::Unread;
use crate::values::{Opened, open, pass_opened};
use grove_access::AccessList;
use grove_tree::Tree;
use grove_wire::{Place, Version, WireFault};
use json::Reader;
use std::alloc::Global;

/// What is read of a list, or its first fault.
#[derive(Drop)]
pub(crate) struct ListRead {
    /// In the second version.
    pub(crate) list: Result<AccessList, WireFault>,
    /// The place of the first access that tells a length, where none before it has a fault. In the first version it has
    /// one.
    pub(crate) told: Option<Place>,
}

impl ListRead {
    /// What the list is in a version.
    pub(crate) fn in_version(self, version: Version) -> Result<AccessList, WireFault>
        ensures { result ≡ read_in version self }
    {
        match (version, self.told) {
            (Version::First, Some(place)) => Err(WireFault::Shape(place)),
            (Version::First, None) | (Version::Second, _) => self.list,
        }
    }
}

/// Reads the list that comes next and stands at the place.
pub(crate) fn read_list(
    alloc: Global,
    tree: &Tree,
    reader: &mut Reader<'_>,
    depth: usize,
    place: Place,
) -> Result<ListRead, Unread>
    ensures read { IfOk result (λ read. Starts depth reader.old reader.new (IsListRead tree.now place read)) }
    ensures unread { result ≡ Err Unread.BadJson → value_at depth reader.old ≡ None }
{
    let opened = open(reader, depth)?;
    if let Opened::Array(inside) = opened {
        return read_inside(alloc, tree, reader, inside, place);
    }
    pass_opened(reader, opened)?;
    Ok(ListRead {
        list: Err(WireFault::Shape(place)),
        told: None,
    })
}

/// The same of an array that has been opened.
#[inline(always)]
fn read_inside(
    alloc: Global,
    tree: &Tree,
    reader: &mut Reader<'_>,
    depth: usize,
    place: Place,
) -> Result<ListRead, Unread>
    ensures read { IfOk result (λ read. (ds : List Data) × AreItems depth reader.old reader.new ds
        × AreListed tree.now place read ds) }
    ensures unread { result ≡ Err Unread.BadJson → items_at depth (length reader.old) reader.old ≡ None }
{
    let mut accesses = Accesses::new(alloc);
    'accesses: while !reader.take_end_array() {
        let items = few(reader, depth)?;
        accesses.add(tree, place, items)?;
    }
    Ok(accesses.into_list(tree, place))
}
