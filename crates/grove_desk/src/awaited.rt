use grove_store::Store;

/// A copy of a store that was waited for.
#[derive(Drop)]
pub enum Awaited {
    /// A round later than the one that was named is done.
    Later(Store),
    /// None was done in time: the store as it stands.
    Unchanged(Store),
}
