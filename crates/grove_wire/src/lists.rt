ghost use Rattle.std.specs.Prelude.{map, IfOk, length, ◌≤◌};
ghost use Rattle.std.specs.List.{All};
ghost use Rattle.serde_json.specs.View.{view};
ghost use Rattle.grove_access.specs.Lists.{nodes_of, AreNodes};
ghost use Rattle.grove_wire.specs.Outcomes.{Gives};
ghost use Rattle.grove_wire.specs.Reading.{list_of, list_in, list_on, lists_of, lists_in};

use crate::accesses::access_at;
use crate::arrays::read_few;
use crate::document::items_in;
use crate::forms::list_items;
use crate::versions::{Version, version_of};
use crate::{Part, Place, WireFault};
use grove_access::{Access, AccessList, MOST_ACCESSES};
use grove_tree::Tree;
use serde_json::Value;
use std::alloc::Global;

/// No batch has more lists.
pub const MOST_LISTS: usize = 256;

/// The accesses of the document's `list`, over the tree. More than 64 are `Limit`; then the accesses are read in order,
/// each first for its `Shape`, then for its `NoPath` and last for its `BadLength`. Accesses tell lengths in version 2
/// alone. Any other version than 1 or 2 is `Shape` of the whole, before all this.
#[tactic(auto, unfolding(crate::specs::Reading::list_in))]
pub fn read_list(alloc: Global, tree: &Tree, document: &Value) -> Result<AccessList, WireFault>
    ensures read { Gives (λ list. list) result (list_in tree.now (view document.now)) }
    ensures fitting { IfOk result (λ list. AreNodes tree.now (nodes_of list)) }
{
    let version = version_of(document)?;
    let items = items_in(document, Part::List)?;
    list_of(alloc, tree, version, Place::whole(Part::List), items)
}

/// The document's `lists`, over the tree: more than 256 are `Limit`, and then they are read in order, each as a `list`
/// is.
#[tactic(auto, unfolding(crate::specs::Reading::lists_in))]
pub fn read_lists(
    alloc: Global,
    tree: &Tree,
    document: &Value,
) -> Result<Vec<AccessList>, WireFault>
    ensures read { Gives (λ lists. lists.items) result (lists_in tree.now (view document.now)) }
    ensures fitting { IfOk result (λ lists. All (λ list. AreNodes tree.now (nodes_of list)) lists.items) }
    ensures few { IfOk result (λ lists. length lists.items ≤ 256) }
{
    let version = version_of(document)?;
    let items = items_in(document, Part::Lists)?;
    lists_of(alloc, tree, version, items)
}

/// The values as a list of accesses that stands at the place.
pub(crate) fn list_of(
    alloc: Global,
    tree: &Tree,
    version: Version,
    place: Place,
    items: &[Value],
) -> Result<AccessList, WireFault>
    ensures read { Gives (λ list. list) result (list_of tree.now version place (map view items.now)) }
    ensures fitting { IfOk result (λ list. AreNodes tree.now (nodes_of list)) }
{
    let accesses = read_accesses(alloc, tree, version, place, items)?;
    let Ok(list) = AccessList::of(tree, accesses) else {
        unreachable!()
    };
    Ok(list)
}

/// The accesses of a list, of which there are at most 64.
fn read_accesses(
    alloc: Global,
    tree: &Tree,
    version: Version,
    place: Place,
    items: &[Value],
) -> Result<Vec<Access>, WireFault>
    ensures { Gives (λ accesses. accesses.items) result (list_of tree.now version place (map view items.now)) }
{
    read_few(alloc, MOST_ACCESSES, place, items, |at, item| {
        access_at(tree, version, place.within(at), item)
    })
}

/// A value by itself as a list that stands at the place.
#[tactic(auto, unfolding(crate::specs::Reading::list_on))]
pub(crate) fn list_on(
    alloc: Global,
    tree: &Tree,
    version: Version,
    place: Place,
    value: &Value,
) -> Result<AccessList, WireFault>
    ensures read { Gives (λ list. list) result (list_on tree.now version place (view value.now)) }
    ensures fitting { IfOk result (λ list. AreNodes tree.now (nodes_of list)) }
{
    match list_items(value) {
        Some(items) => list_of(alloc, tree, version, place, items),
        None => Err(WireFault::Shape(place)),
    }
}

/// The values as the lists of a batch.
pub(crate) fn lists_of(
    alloc: Global,
    tree: &Tree,
    version: Version,
    items: &[Value],
) -> Result<Vec<AccessList>, WireFault>
    ensures { Gives (λ lists. lists.items) result (lists_of tree.now version (map view items.now)) }
{
    let place = Place::whole(Part::Lists);
    read_few(alloc, MOST_LISTS, place, items, |at, item| {
        list_on(alloc, tree, version, place.within(at), item)
    })
}
