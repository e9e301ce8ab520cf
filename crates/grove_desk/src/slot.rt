use crate::Opening;
use crate::pipeline::Pipeline;
use grove_store::Keeper;

/// Lines that were put, by their ticket. Their visitor waits for what they are answered.
#[derive(Drop)]
pub(crate) struct Slot<B: Opening, K: Keeper> {
    pub ticket: u64,
    pub lines: Pipeline<B, K>,
}
