ghost use Rattle.std.specs.Prelude.{◌≡◌, ◌<◌, ◌^◌, length, vec_len};
ghost use Rattle.grove_plan.specs.Slots.{slot_of_lock, slot_of_release};

use crate::Step;
use grove_tree::Node;
use std::marker::Model;

/// A lock plan: any list of steps. Whether it is legal is for `judge` to say.
#[derive(Debug, Drop)]
pub struct Plan {
    steps: Vec<Step>,
}

impl Model for Plan {
    ghost use Rattle.std.specs.Prelude.{List, ◌<◌, ◌^◌, length};
    ghost use Rattle.grove_plan.specs.declared.step.Step.{Step};

    ghost Value = { List Step };

    ghost view = { λ plan. plan.steps.items };

    ghost invariant = { λ plan. length plan.steps.items < 2 ^ 32 };
}

impl Plan {
    pub fn new(steps: Vec<Step>) -> Plan
        requires { vec_len steps < 2 ^ 32 }
        ensures { result ≡ steps.items }
    {
        Plan { steps }
    }

    pub fn steps(&self) -> &[Step]
        ensures steps { result.now ≡ self.now }
        ensures few { length self.now < 2 ^ 32 }
    {
        self.steps.as_slice()
    }

    /// The number of accesses before the first step that locks the node.
    pub fn lock_slot(&self, node: Node) -> Option<u32>
        ensures { result ≡ slot_of_lock self.now node }
    {
        let mut accesses = 0;
        for step in &self.steps {
            if step.locks(node) {
                return Some(accesses);
            }
            if step.is_access() {
                accesses += 1;
            }
        }
        None
    }

    /// The number of accesses before the first step that unlocks the node.
    pub fn release_slot(&self, node: Node) -> Option<u32>
        ensures { result ≡ slot_of_release self.now node }
    {
        let mut accesses = 0;
        for step in &self.steps {
            if step.unlocks(node) {
                return Some(accesses);
            }
            if step.is_access() {
                accesses += 1;
            }
        }
        None
    }
}
