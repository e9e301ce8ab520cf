ghost use Rattle.std.specs.Prelude.{◌≡◌, ◌^◌, ◌<◌, ◌≤◌, [], length, reverse, IfOk, OnOk, IfErr};
ghost use Rattle.grove_core.specs.Runs.{IsFinished};
ghost use Rattle.grove_core.specs.Openings.{AllFit};
ghost use Rattle.grove_core.specs.Replays.{IsFirstRefused, IsReplayFault};

use crate::machine::Core;
use crate::{Event, Job, OpenFault, ReplayFault, StepFault};
use grove_access::Records;
use grove_tree::Tree;
use std::alloc::Global;

/// The first event that may not happen: its number, and why.
#[derive(Clone, Copy, Debug, PartialEq, Eq)]
pub(crate) struct RefusedEvent {
    pub at: u32,
    pub fault: StepFault,
}

impl<'a> Core<'a> {
    /// The core after just these events, the earliest first, where they are a finished run of the jobs. Else the first
    /// reason why they aren't, in the order of `ReplayFault`; `Memory` may come before any other.
    pub fn replay(
        alloc: Global,
        tree: &'a Tree,
        records: &Records,
        jobs: &'a [Job],
        events: &[Event],
    ) -> Result<Core<'a>, ReplayFault>
        requires lists { AllFit tree.now jobs.now }
        requires records { length records.now ≡ length tree.now }
        requires few { length jobs.now ≤ 256 }
        requires short { length events.now < 2 ^ 32 }
        ensures replayed { IfOk result
            (λ core. core ≡ record { tree = tree.now; jobs = jobs.now; opening = records.now; history = events.now }) }
        ensures finished { OnOk result (IsFinished jobs.now (reverse events.now)) }
        ensures fault { IfErr result (IsReplayFault tree.now jobs.now events.now) }
    {
        let mut core = match Core::open(alloc, tree, records, jobs) {
            Ok(core) => core,
            Err(OpenFault::BadPlan(txn, fault)) => return Err(ReplayFault::BadPlan(txn, fault)),
            Err(OpenFault::Memory) => return Err(ReplayFault::Memory),
        };
        if let Err(refused) = core.follow(events) {
            return Err(ReplayFault::BadEvent(refused.at, refused.fault));
        }
        match core.first_unfinished() {
            None => Ok(core),
            Some(txn) => Err(ReplayFault::Unfinished(txn)),
        }
    }

    // Does the events in order, up to the first that may not happen.
    fn follow(&mut self, events: &[Event]) -> Result<(), RefusedEvent>
        requires new { self.old.history ≡ [] }
        requires short { length events.now < 2 ^ 32 }
        ensures done { OnOk result (self.new ≡ record self.old { history = events.now }) }
        ensures refused { IfErr result (λ refused. IsFirstRefused self.old.jobs events.now refused.at refused.fault) }
    {
        for (at, event) in events.iter().enumerate() {
            if let Err(fault) = self.step(*event) {
                return Err(RefusedEvent {
                    at: at as u32,
                    fault,
                });
            }
        }
        Ok(())
    }
}
