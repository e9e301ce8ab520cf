ghost use Rattle.std.specs.Prelude.{◌≡◌, []};
ghost use Rattle.grove_wire.specs.declared.faults.Fault.TheVariants.{Standing};
ghost use Rattle.grove_wire.specs.Names.{wire_name, plan_name, proof_name, run_name, fault_name};
ghost use Rattle.grove_wire.specs.Texts.{tree_said, event_said, replay_said};

use crate::{StandingFault, WireFault};
use grove_core::{ReplayFault, RunFault, StepFault};
use grove_plan::PlanFault;
use grove_proof::ProofFault;
use grove_tree::TreeFault;

/// The name of a fault of reading, as `shape` or `bad-parent`, by which a session line is refused.
pub fn wire_fault_name(fault: &WireFault) -> &'static str
    ensures { result.now ≡ wire_name fault.now }
{
    match *fault {
        WireFault::BadJson => "bad-json",
        WireFault::Shape(_) => "shape",
        WireFault::NoPath(_) => "no-path",
        WireFault::BadLength(_) => "bad-length",
        WireFault::Limit(_) => "limit",
        WireFault::Tree(fault) => tree_fault_name(fault),
        WireFault::Memory => "memory",
    }
}

pub(crate) fn tree_fault_name(fault: TreeFault) -> &'static str
    ensures { result.now ≡ (tree_said fault).0 }
{
    match fault {
        TreeFault::Empty => "empty",
        TreeFault::TooMany => "too-many",
        TreeFault::BadParent(_) => "bad-parent",
        TreeFault::TooDeep(_) => "too-deep",
        TreeFault::BadName(_) => "bad-name",
        TreeFault::TwiceNamed(_) => "twice-named",
        TreeFault::BadWeight(_) => "bad-weight",
        TreeFault::Memory => "memory",
    }
}

/// The name of a plan's fault, as `relock`.
pub fn plan_fault_name(fault: &PlanFault) -> &'static str
    ensures { result.now ≡ plan_name fault.now }
{
    match *fault {
        PlanFault::Strange(_) => "strange",
        PlanFault::Relock(_) => "relock",
        PlanFault::ParentNotHeld(_) => "parent-not-held",
        PlanFault::NotHeld(_) => "not-held",
        PlanFault::WrongAccess(_) => "wrong-access",
        PlanFault::AccessNotHeld(_) => "access-not-held",
        PlanFault::AccessMissing(_) => "access-missing",
        PlanFault::StillHeld(_) => "still-held",
        PlanFault::Memory => "memory",
    }
}

/// The name of a proof's fault, as `lock-balance`; a plan's fault within has its own name.
pub fn proof_fault_name(fault: &ProofFault) -> &'static str
    ensures { result.now ≡ proof_name fault.now }
{
    match *fault {
        ProofFault::Plan(fault) => plan_fault_name(&fault),
        ProofFault::Rows(_) => "rows",
        ProofFault::Sign(_) => "sign",
        ProofFault::TooBig(_) => "too-big",
        ProofFault::LockBalance(_) => "lock-balance",
        ProofFault::ReleaseBalance(_) => "release-balance",
        ProofFault::Value { .. } => "value",
        ProofFault::Memory => "memory",
    }
}

/// The name of a run's fault, `foreign` or `unfinished`; a bad plan has the name of its fault.
pub fn run_fault_name(fault: &RunFault) -> &'static str
    ensures { result.now ≡ run_name fault.now }
{
    match *fault {
        RunFault::BadPlan(_, fault) => plan_fault_name(&fault),
        RunFault::Memory => "memory",
        RunFault::Foreign => "foreign",
        RunFault::Unfinished => "unfinished",
    }
}

/// The name of a history's fault, as `blocked`; a bad plan has the name of its fault.
pub(crate) fn replay_fault_name(fault: ReplayFault) -> &'static str
    ensures { result.now ≡ (replay_said [] fault).0 }
{
    match fault {
        ReplayFault::BadPlan(_, fault) => plan_fault_name(&fault),
        ReplayFault::BadEvent(_, fault) => event_fault_name(fault),
        ReplayFault::Unfinished(_) => "unfinished",
        ReplayFault::Memory => "memory",
    }
}

fn event_fault_name(fault: StepFault) -> &'static str
    ensures { result.now ≡ (event_said fault).0 }
{
    match fault {
        StepFault::NoTxn => "no-job",
        StepFault::Ended => "ended",
        StepFault::Blocked(_) => "blocked",
        StepFault::NotBlocked => "not-blocked",
        StepFault::Marked => "marked",
    }
}

/// The name of what differs from what a run left: `records` or `replies`.
pub(crate) fn standing_fault_name(fault: StandingFault) -> &'static str
    ensures { result.now ≡ fault_name (Standing fault) }
{
    match fault {
        StandingFault::Record(_) => "records",
        StandingFault::Replies(_) => "replies",
    }
}
