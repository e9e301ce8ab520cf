ghost use Rattle.std.specs.Prelude.{◌≡◌};
ghost use Rattle.grove_nodes.specs.Faults.{accepted_at, list_told, plan_told, proof_told, refused_for};

use crate::fault::Fault;
use grove_access::ListFault;
use grove_plan::PlanFault;
use grove_proof::ProofFault;

/// What a plan costs; or the number of the fault for which it is refused, and the step, access, node or row at fault.
/// What isn't told is 0.
#[repr(C)]
#[derive(Clone, Copy)]
pub struct Checked {
    pub cost: u64,
    /// The number of a `Fault`, or 0.
    pub fault: u32,
    pub place: u32,
}

/// No list has more accesses, so this is the place of the first one too many.
const TOO_MANY: u32 = 64;

impl Checked {
    pub fn accepted(cost: u64) -> Checked
        ensures { result ≡ accepted_at cost }
    {
        Checked {
            cost,
            fault: 0,
            place: 0,
        }
    }

    fn refused(fault: Fault, place: u32) -> Checked
        ensures { result ≡ refused_for fault place }
    {
        Checked {
            cost: 0,
            fault: fault.number(),
            place,
        }
    }

    pub fn of_list(fault: ListFault) -> Checked
        ensures { result ≡ list_told fault }
    {
        match fault {
            ListFault::TooLong => Checked::refused(Fault::TooLong, TOO_MANY),
            ListFault::NoNode(access) => Checked::refused(Fault::NoNode, access),
            ListFault::BadLength(access) => Checked::refused(Fault::BadLength, access),
            ListFault::Memory => Checked::accepted(0),
        }
    }

    pub fn of_plan(fault: PlanFault) -> Checked
        ensures { result ≡ plan_told fault }
    {
        match fault {
            PlanFault::Strange(step) => Checked::refused(Fault::Strange, step),
            PlanFault::Relock(step) => Checked::refused(Fault::Relock, step),
            PlanFault::ParentNotHeld(step) => Checked::refused(Fault::ParentNotHeld, step),
            PlanFault::NotHeld(step) => Checked::refused(Fault::NotHeld, step),
            PlanFault::WrongAccess(step) => Checked::refused(Fault::WrongAccess, step),
            PlanFault::AccessNotHeld(step) => Checked::refused(Fault::AccessNotHeld, step),
            PlanFault::AccessMissing(access) => Checked::refused(Fault::AccessMissing, access),
            PlanFault::StillHeld(node) => Checked::refused(Fault::StillHeld, node.number()),
            PlanFault::Memory => Checked::accepted(0),
        }
    }

    /// Of a wrong value the plan's cost is told.
    pub fn of_proof(fault: ProofFault) -> Checked
        ensures { result ≡ proof_told fault }
    {
        match fault {
            ProofFault::Plan(fault) => Checked::of_plan(fault),
            ProofFault::Rows(row) => Checked::refused(Fault::Rows, row),
            ProofFault::Sign(row) => Checked::refused(Fault::Sign, row),
            ProofFault::TooBig(row) => Checked::refused(Fault::TooBig, row),
            ProofFault::LockBalance(row) => Checked::refused(Fault::LockBalance, row),
            ProofFault::ReleaseBalance(row) => Checked::refused(Fault::ReleaseBalance, row),
            ProofFault::Value { cost, bound: _ } => Checked {
                cost,
                fault: Fault::Value.number(),
                place: 0,
            },
            ProofFault::Memory => Checked::accepted(0),
        }
    }
}
