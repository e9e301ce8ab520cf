ghost use Rattle.std.specs.Prelude.{◌≡◌, ◌++◌, ◌∷◌, [], IfOk};
ghost use Rattle.grove_wire.specs.Documents.{document_text};
ghost use Rattle.grove_page.specs.NodeLines.{IsWithin, line_of_nodes};

use crate::Paths;
use crate::nodes::{Listing, Part};
use grove_store::Store;
use grove_tree::NoMemory;
use grove_wire::document_text;
use std::alloc::Global;

/// The store as a document, on a line.
pub(crate) fn document_line(alloc: Global, store: &Store) -> Result<Vec<u8>, NoMemory>
    ensures { IfOk result (λ line. line.items ≡ document_text store.now.rows store.now.records ++ 10 ∷ []) }
{
    let mut line = document_text(alloc, store.tree(), store.records())?.into_bytes();
    line.push(b'\n')?;
    Ok(line)
}

/// What there is of each node of a part of the store, on a line.
pub(crate) fn nodes_line(
    alloc: Global,
    store: &Store,
    paths: Option<&Paths>,
    part: &Part,
) -> Result<Vec<u8>, NoMemory>
    requires { IsWithin store.now.rows part.now }
    ensures { IfOk result (λ line. line.items
        ≡ line_of_nodes store.now.rows store.now.records store.now.waits store.now.rounds part.now) }
{
    Listing::new(store, paths).line(alloc, part)
}
