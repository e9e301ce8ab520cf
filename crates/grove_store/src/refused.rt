use grove_access::Records;
use grove_tree::Tree;

/// What a store was to be made of, handed back where there is no room for it.
#[derive(Debug, Drop)]
pub struct NoStore {
    pub tree: Tree,
    pub records: Records,
}
