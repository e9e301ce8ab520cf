ghost use Rattle.std.specs.Prelude.{◌≡◌, IfOk, string_bytes};
ghost use Rattle.grove_wire.specs.Texts.{event_said, replay_said, ReplayFaultFits};

use crate::fault_texts::{numbered_text, plan_fault_text, said_text, word_text};
use grove_core::{ReplayFault, StepFault};
use grove_tree::{NoMemory, Tree};
use std::alloc::Global;

/// The text of the fault of a history, as `job 2 step 7 parent-not-held`, `event 5 blocked 1` or `unfinished 3`.
pub fn replay_fault_text(
    alloc: Global,
    tree: &Tree,
    fault: &ReplayFault,
) -> Result<String, NoMemory>
    requires { ReplayFaultFits tree.now fault.now }
    ensures { IfOk result (λ text. string_bytes text ≡ (replay_said tree.now fault.now).1) }
{
    match *fault {
        ReplayFault::BadPlan(job, fault) => {
            let said = plan_fault_text(alloc, tree, &fault)?;
            said_text(alloc, "job", job, &said)
        }
        ReplayFault::BadEvent(at, fault) => {
            let said = event_fault_text(alloc, fault)?;
            said_text(alloc, "event", at, &said)
        }
        ReplayFault::Unfinished(job) => numbered_text(alloc, "unfinished", job),
        ReplayFault::Memory => word_text(alloc, "memory"),
    }
}

fn event_fault_text(alloc: Global, fault: StepFault) -> Result<String, NoMemory>
    ensures { IfOk result (λ text. string_bytes text ≡ (event_said fault).1) }
{
    match fault {
        StepFault::NoTxn => word_text(alloc, "no-job"),
        StepFault::Ended => word_text(alloc, "ended"),
        StepFault::Blocked(holder) => numbered_text(alloc, "blocked", holder),
        StepFault::NotBlocked => word_text(alloc, "not-blocked"),
        StepFault::Marked => word_text(alloc, "marked"),
    }
}
