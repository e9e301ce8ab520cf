ghost use Rattle.std.specs.Prelude.{◌≡◌, [], IfOk, IfErr, IsErrAnd, Ok, string_bytes};
ghost use Rattle.grove_tree.specs.Trees.{Rows};
ghost use Rattle.grove_wire.specs.declared.faults.Fault.TheVariants.{Wire};
ghost use Rattle.grove_wire.specs.declared.faults.Fault.TheVariants.{Standing};
ghost use Rattle.grove_wire.specs.Texts.{fault_said};
ghost use Rattle.grove_answer.specs.Faults.{wants_memory, NamesNodes, IsToldFault};

use crate::Line;
use grove_base::NoMemory;
use grove_core::{ReplayFault, RunFault};
use grove_plan::PlanFault;
use grove_proof::ProofFault;
use grove_tree::Tree;
use grove_wire::{
    Fault, StandingFault, WireFault, plan_fault_text, proof_fault_text, replay_fault_text,
    run_fault_text, wire_fault_text,
};
use std::alloc::{AllocError, AllocFailed, Global};

/// Why the calls of a command have no result.
#[derive(Debug, Drop)]
pub enum Refusal {
    /// What is wrong with the document, and the text that says so.
    Fault { fault: Fault, text: Line },
    /// A growth was refused.
    Memory,
}

impl Refusal {
    /// The refusal for a fault of a document over the tree.
    pub fn of(alloc: Global, tree: &Tree, fault: Fault) -> Refusal
        requires { NamesNodes tree.now fault }
        ensures { IsToldFault tree.now fault result }
    {
        let text = fault_text(alloc, tree, &fault);
        told(alloc, fault, text)
    }

    /// The refusal for a fault of reading, which needs no tree.
    pub fn of_wire(alloc: Global, fault: &WireFault) -> Refusal
        ensures { IsToldFault [] (Wire fault.now) result }
    {
        let text = wire_fault_text(alloc, fault);
        told(alloc, Fault::Wire(*fault), text)
    }
}

/// The refusal for the fault, where this is its text.
fn told(alloc: Global, fault: Fault, text: Result<String, NoMemory>) -> Refusal
    ensures { (rows : Rows) → IfOk text (λ text. string_bytes text ≡ (fault_said rows fault).1)
        → IsToldFault rows fault result }
{
    if wants_memory(&fault) {
        return Refusal::Memory;
    }
    let Ok(text) = text else {
        return Refusal::Memory;
    };
    match Line::of(alloc, text) {
        Ok(text) => Refusal::Fault { fault, text },
        Err(NoMemory) => Refusal::Memory,
    }
}

fn wants_memory(fault: &Fault) -> bool
    ensures { result ≡ wants_memory fault.now }
{
    matches!(
        *fault,
        Fault::Wire(WireFault::Memory)
            | Fault::Plan(PlanFault::Memory)
            | Fault::Proof(ProofFault::Memory)
            | Fault::Run(RunFault::Memory)
            | Fault::Replay(ReplayFault::Memory)
    )
}

fn fault_text(alloc: Global, tree: &Tree, fault: &Fault) -> Result<String, NoMemory>
    requires { NamesNodes tree.now fault.now }
    ensures { IfOk result (λ text. string_bytes text ≡ (fault_said tree.now fault.now).1) }
{
    match *fault {
        Fault::Wire(fault) => wire_fault_text(alloc, &fault),
        Fault::Plan(fault) => plan_fault_text(alloc, tree, &fault),
        Fault::Proof(fault) => proof_fault_text(alloc, tree, &fault),
        Fault::Run(fault) => run_fault_text(alloc, tree, &fault),
        Fault::Replay(fault) => replay_fault_text(alloc, tree, &fault),
        Fault::Standing(fault) => standing_text(alloc, fault),
    }
}

fn standing_text(alloc: Global, fault: StandingFault) -> Result<String, NoMemory>
    ensures { IfOk result (λ text. string_bytes text ≡ (fault_said [] (Standing fault)).1) }
{
    match fault {
        StandingFault::Record(node) => Ok(format!(in alloc; "standing records {node}")?),
        StandingFault::Replies(job) => Ok(format!(in alloc; "standing replies {job}")?),
    }
}

/// What is read, or else the refusal for its fault.
pub fn or_refuse<T: Drop>(alloc: Global, reading: Result<T, WireFault>) -> Result<T, Refusal>
    ensures ok { IfOk result (λ value. reading ≡ Ok value) }
    ensures err { IfErr result (λ refusal. IsErrAnd reading (λ fault. IsToldFault [] (Wire fault) refusal)) }
{
    match reading {
        Ok(value) => Ok(value),
        Err(fault) => Err(Refusal::of_wire(alloc, &fault)),
    }
}

impl From<NoMemory> for Refusal {
    ghost use Rattle.std.specs.Prelude.{◌≡◌};
    ghost use Rattle.grove_answer.specs.declared.refusal.Refusal.TheVariants.{Memory};

    ghost from_gives = { λ _ refusal. refusal ≡ Memory };

    fn from(_fault: NoMemory) -> Refusal {
        Refusal::Memory
    }
}

impl From<AllocError> for Refusal {
    ghost use Rattle.std.specs.Prelude.{◌≡◌};
    ghost use Rattle.grove_answer.specs.declared.refusal.Refusal.TheVariants.{Memory};

    ghost from_gives = { λ _ refusal. refusal ≡ Memory };

    fn from(_error: AllocError) -> Refusal {
        Refusal::Memory
    }
}

impl<T: Drop> From<AllocFailed<T>> for Refusal {
    ghost use Rattle.std.specs.Prelude.{◌≡◌};
    ghost use Rattle.grove_answer.specs.declared.refusal.Refusal.TheVariants.{Memory};

    ghost from_gives = { λ _ refusal. refusal ≡ Memory };

    fn from(_error: AllocFailed<T>) -> Refusal {
        Refusal::Memory
    }
}
