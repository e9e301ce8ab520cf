ghost use Rattle.std.specs.Prelude.{◌≡◌, ◌<◌, length, map, IfOk};
ghost use Rattle.grove_nodes.specs.Numbered.{numbered, step_of};

use grove_plan::Step;
use grove_tree::{NoMemory, Node};
use std::alloc::Global;

/// A step by its kind, 0 to lock, 1 to unlock, 2 to access, and the number of its node, or of its access in the list.
#[repr(C)]
#[derive(Clone, Copy)]
pub struct NumberedStep {
    pub kind: u32,
    pub number: u32,
}

impl NumberedStep {
    fn of(step: Step) -> NumberedStep
        ensures { result ≡ numbered step }
    {
        match step {
            Step::Lock(node) => NumberedStep {
                kind: 0,
                number: node.number(),
            },
            Step::Unlock(node) => NumberedStep {
                kind: 1,
                number: node.number(),
            },
            Step::Access(number) => NumberedStep { kind: 2, number },
        }
    }

    /// A kind that is none stands for a step that no plan may have: it locks a node that no tree has.
    fn step(self) -> Step
        ensures { result ≡ step_of self }
    {
        match self.kind {
            0 => Step::Lock(Node::new(self.number)),
            1 => Step::Unlock(Node::new(self.number)),
            2 => Step::Access(self.number),
            _ => Step::Lock(Node::new(u32::MAX)),
        }
    }
}

pub fn numbered_steps(alloc: Global, steps: &[Step]) -> Result<Vec<NumberedStep>, NoMemory>
    ensures { IfOk result (λ all. all.items ≡ map numbered steps.now) }
{
    let mut all = Vec::with_capacity(alloc, steps.len())?;
    for step in steps {
        all.push(NumberedStep::of(*step))?;
    }
    Ok(all)
}

pub fn steps_of(alloc: Global, steps: &[NumberedStep]) -> Result<Vec<Step>, NoMemory>
    ensures all { IfOk result (λ all. all.items ≡ map step_of steps.now) }
    ensures many { IfOk result (λ all. length all.items ≡ length steps.now) }
{
    let mut all = Vec::with_capacity(alloc, steps.len())?;
    for step in steps {
        all.push(step.step())?;
    }
    Ok(all)
}
