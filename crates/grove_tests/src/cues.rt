use crate::fixtures::MOST_LOOKS;
use grove_tree::Gate;
use std::sync::atomic::{AtomicBool, AtomicU64, Ordering};
use std::thread::yield_now;

/// Who comes at one place waits there until someone has come to another, and then looks on so many times more.
#[derive(Drop)]
pub struct Cue {
    /// A job and its step.
    waits_at: (u32, u32),
    comes_to: (u32, u32),
    looks_on: u32,
    has_come: AtomicBool,
}

impl Cue {
    pub fn new(waits_at: (u32, u32), comes_to: (u32, u32), looks_on: u32) -> Self {
        Cue {
            waits_at,
            comes_to,
            looks_on,
            has_come: AtomicBool::new(false),
        }
    }

    /// Waits for the other, and looks on. False where nobody came.
    fn wait(&self) -> bool {
        for _ in 0..MOST_LOOKS {
            if self.has_come.load(Ordering::SeqCst) {
                self.look_on();
                return true;
            }
            yield_now();
        }
        false
    }

    fn look_on(&self) {
        for _ in 0..self.looks_on {
            yield_now();
        }
    }
}

/// A gate at which jobs wait for their cues.
#[derive(Drop)]
pub struct Cues {
    cues: Vec<Cue>,
    calls: AtomicU64,
    missed: AtomicBool,
}

impl Cues {
    pub fn new(cues: Vec<Cue>) -> Self {
        Cues {
            cues,
            calls: AtomicU64::new(0),
            missed: AtomicBool::new(false),
        }
    }

    /// Has each cue come to whoever waited for it?
    pub fn have_come(&self) -> bool {
        !self.missed.load(Ordering::SeqCst)
    }

    /// How often anybody came.
    pub fn calls(&self) -> u64 {
        self.calls.load(Ordering::SeqCst)
    }
}

impl Gate for Cues {
    fn at(&self, txn: u32, step: u32) {
        self.calls.fetch_add(1, Ordering::SeqCst);
        for cue in &self.cues {
            if cue.comes_to == (txn, step) {
                cue.has_come.store(true, Ordering::SeqCst);
            }
        }
        for cue in &self.cues {
            if cue.waits_at == (txn, step) && !cue.wait() {
                self.missed.store(true, Ordering::SeqCst);
            }
        }
    }
}
