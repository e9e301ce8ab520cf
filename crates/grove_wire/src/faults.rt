use crate::WireFault;
use crate::fault_names::{
    plan_fault_name, proof_fault_name, replay_fault_name, run_fault_name, standing_fault_name,
    wire_fault_name,
};
use grove_core::{ReplayFault, RunFault};
use grove_plan::PlanFault;
use grove_proof::ProofFault;

/// Why a document is refused: the fault that was found first.
#[derive(Clone, Copy, Debug)]
pub enum Fault {
    /// It isn't read.
    Wire(WireFault),
    /// Its plan isn't legal.
    Plan(PlanFault),
    /// Its flow doesn't certify the cost of its plan.
    Proof(ProofFault),
    /// The run of its lists failed.
    Run(RunFault),
    /// Its events are no finished run of its jobs.
    Replay(ReplayFault),
    /// What is said to stand isn't what the run left.
    Standing(StandingFault),
}

impl Fault {
    ghost use Rattle.std.specs.Prelude.{◌≡◌};
    ghost use Rattle.grove_wire.specs.Names.{fault_name};

    /// Its name, as `shape` or `relock`, without its place.
    pub fn name(self) -> &'static str
        ensures { result.now ≡ fault_name self }
    {
        match self {
            Fault::Wire(fault) => wire_fault_name(&fault),
            Fault::Plan(fault) => plan_fault_name(&fault),
            Fault::Proof(fault) => proof_fault_name(&fault),
            Fault::Run(fault) => run_fault_name(&fault),
            Fault::Replay(fault) => replay_fault_name(fault),
            Fault::Standing(fault) => standing_fault_name(fault),
        }
    }
}

/// The first difference between what is said to stand and what a run left.
#[derive(Clone, Copy, Debug)]
pub enum StandingFault {
    /// The record of this node differs.
    Record(u32),
    /// The replies to this job differ.
    Replies(u32),
}
