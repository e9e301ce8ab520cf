//! What a handle is opened with.
ghost use Rattle.std.specs.Prelude.{◌≡◌, List, ℕ, length, IfOk};
ghost use Rattle.grove_wire.specs.Outcomes.{Gives};
ghost use Rattle.grove_c.specs.Handles.{IsStoreOf, IsTreeOf, Opens, stored_in};
ghost use Rattle.grove_c.specs.Openings.{IsOpening};

use crate::handle::Handle;
use crate::kept::Kept;
use crate::kept_store::KeptStore;
use crate::telling::{Told, tell};
use grove_access::Records;
use grove_answer::{Refusal, or_refuse};
use grove_store::{NoStore, Store};
use grove_tree::Tree;
use grove_wire::{WireFault, read_document, read_tree};
use std::alloc::Global;

/// A tree of the document's nodes.
pub fn tree_opened(alloc: Global, bytes: &[u8]) -> Result<Box<Kept>, Refusal>
    ensures { IsOpening IsTreeOf bytes.now result }
{
    let (tree, _records) = or_refuse(alloc, read_stored(alloc, bytes))?;
    Ok(Box::new(alloc, Kept::Tree(tree))?)
}

/// A store of the document's tree and records, of one worker.
pub fn store_opened(alloc: Global, bytes: &[u8]) -> Result<Box<Kept>, Refusal>
    ensures { IsOpening IsStoreOf bytes.now result }
{
    let (tree, records) = or_refuse(alloc, read_stored(alloc, bytes))?;
    match Store::open(alloc, tree, records, 1) {
        Ok(store) => Ok(Box::new(alloc, Kept::Store(KeptStore::new(alloc, store)))?),
        Err(NoStore { .. }) => Err(Refusal::Memory),
    }
}

/// The tree of a document's bytes, and the record of each node.
fn read_stored(alloc: Global, bytes: &[u8]) -> Result<(Tree, Records), WireFault>
    ensures read { Gives (λ stored. (stored.0, stored.1)) result (stored_in bytes.now) }
    ensures records { IfOk result (λ stored. length stored.1 ≡ length stored.0) }
{
    let document = read_document(alloc, bytes)?;
    read_tree(alloc, &document)
}

/// Has the handle hold what is opened, and tells how that ended. A refusal leaves the handle as it was.
#[tactic(auto, using(crate::proofs::Opened::opens))]
pub fn open(
    alloc: Global,
    opening: Result<Box<Kept>, Refusal>,
    handle: &mut Handle,
    text: &mut [u8],
) -> Told
    ensures tree { (bytes : List ℕ) → IsOpening IsTreeOf bytes opening
        → Opens IsTreeOf bytes handle.old.value handle.new.value text.old text.new result }
    ensures store { (bytes : List ℕ) → IsOpening IsStoreOf bytes opening
        → Opens IsStoreOf bytes handle.old.value handle.new.value text.old text.new result }
{
    match opening {
        Ok(kept) => {
            handle.hold(kept);
            tell(&Ok(String::new(alloc)), text)
        }
        Err(refusal) => tell(&Err(refusal), text),
    }
}
