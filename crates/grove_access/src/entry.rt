use crate::{Access, Reply};

/// An access that a transaction did on the records that it has out, and its reply.
#[derive(Clone, Copy, Debug, PartialEq, Eq)]
pub struct Entry {
    /// The access's place in the list, counted from 0.
    pub number: u32,
    pub access: Access,
    pub reply: Reply,
}
