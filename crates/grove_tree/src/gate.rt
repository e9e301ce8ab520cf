/// What a worker calls just before each step of its work. A test can hold workers there until others have come.
pub trait Gate {
    /// Called before the step with this number of the work with that number. What the two count, each call that takes a
    /// gate says: a job and its steps, or a node or a list, whose one step is 0.
    fn at(&self, txn: u32, step: u32);

    /// Does nobody ever wait at the gate? Then a short work needs no further worker.
    fn is_open(&self) -> bool {
        false
    }
}

/// The gate at which nobody waits.
#[derive(Clone, Copy, Debug)]
pub struct OpenGate;

impl Gate for OpenGate {
    fn at(&self, _txn: u32, _step: u32) {}

    fn is_open(&self) -> bool {
        true
    }
}
