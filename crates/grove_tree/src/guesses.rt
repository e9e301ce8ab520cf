use crate::Row;
use crate::marks::{mark_below, mark_of_row};
use std::alloc::{AllocError, Global};

/// What stands in a slot without a node.
const NONE: u32 = u32::MAX;

/// Where to look first for a child, by its parent and its name: nodes that may be the child. They are guesses that
/// whoever takes one tests, so nothing is promised of them.
#[derive(Debug, Drop)]
pub(crate) struct Guesses {
    /// A node stands in the slot of its mark, or in the next free one behind it. There are three slots for each node,
    /// of which the last third has no marks, and one more.
    slots: Vec<u32>,
}

impl Guesses {
    /// Those for the children among the rows.
    pub(crate) fn new(alloc: Global, rows: &[Row]) -> Result<Guesses, AllocError> {
        let count = rows.len().saturating_mul(3).saturating_add(1);
        let mut guesses = Guesses {
            slots: [NONE].repeat(alloc, count)?,
        };
        for (row, number) in rows.iter().zip(0u32..) {
            guesses.add(row, number);
        }
        Ok(guesses)
    }

    pub(crate) fn copy(&self, alloc: Global) -> Result<Guesses, AllocError> {
        let slots = Vec::from_slice(alloc, &self.slots)?;
        Ok(Guesses { slots })
    }

    /// The nodes that may be the child with the name before the first slash. They end where a number is no node's.
    pub(crate) fn for_child(&self, parent: u32, name: &[u8]) -> &[u32] {
        self.slots.get(self.first(parent, name)..).unwrap_or(&[])
    }

    /// Where the child's node stands, or behind it.
    fn first(&self, parent: u32, name: &[u8]) -> usize {
        let marks = self.slots.len() - self.slots.len() / 3;
        mark_below(parent, name).checked_rem(marks).unwrap_or(0)
    }

    fn add(&mut self, row: &Row, number: u32) {
        let first = self.first(row.parent.unwrap_or(0), row.name.as_bytes());
        for slot in first..self.slots.len() {
            if self.slots[slot] == NONE {
                self.slots[slot] = number;
                return;
            }
        }
    }
}
