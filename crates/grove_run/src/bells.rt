use crate::sleepers::{SLOTS, Woken};
use std::array;
use std::sync::Wait;
use std::thread::Parker;

/// Where workers sleep: each slot has a bell.
#[derive(Drop)]
pub struct Bells {
    bells: [Parker; SLOTS],
}

impl Bells {
    pub fn new() -> Bells {
        Bells {
            bells: array::from_fn(|_| Parker::new()),
        }
    }

    /// Sleeps at a slot until its bell is rung. Where it was rung already, nobody sleeps.
    pub fn wait<R: Wait>(&self, rt: &R, slot: usize) {
        self.bells[slot % SLOTS].park(rt);
    }

    /// Wakes the workers of these slots.
    pub fn ring(&self, woken: &Woken) {
        for slot in 0..SLOTS {
            if woken.has(slot) {
                self.bells[slot].unpark();
            }
        }
    }

    /// Wakes every worker that sleeps.
    pub fn ring_all(&self) {
        for bell in &self.bells {
            bell.unpark();
        }
    }
}

/// A worker's place at the bells.
#[derive(Clone, Copy)]
pub struct Slot<'b> {
    pub bells: &'b Bells,
    pub number: usize,
}
