ghost use Rattle.std.specs.Prelude.{◌≡◌, ◌≤◌, length, IfOk};
ghost use Rattle.grove_run.specs.Runs.{places_of};
ghost use Rattle.grove_run.specs.FinishedRuns.{IsFinishedRun};
ghost use Rattle.grove_core.specs.Runs.{IsRun, IsFinished, run_records};
ghost use Rattle.grove_core.specs.Orders.{placement_order};
ghost use Rattle.grove_core.specs.Laws.{IsEachOnce, IsSerialBy};
ghost use Rattle.grove_core.specs.Kept.{past_of};

use crate::placing::places_in;
use grove_access::Records;
use grove_core::Core;
use grove_tree::NoMemory;
use std::alloc::Global;
use std::marker::Model;

/// A finished core, and its jobs in the serial order of its run.
#[derive(Drop)]
pub struct Finished<'a> {
    core: Core<'a>,
    order: Vec<u32>,
}

impl<'a> Model for Finished<'a> {
    ghost use Rattle.std.specs.Prelude.{◌≤◌, length};
    ghost use Rattle.grove_run.specs.Runs.{FinishedState};
    ghost use Rattle.grove_run.specs.FinishedRuns.{IsFinishedRun};

    ghost Value = { FinishedState };

    ghost view = { λ finished. record { core = finished.core; order = finished.order.items } };

    ghost invariant = { λ finished. IsFinishedRun finished.core.tree finished.core.jobs finished.core.opening
        record { core = finished.core; order = finished.order.items }
        × (length finished.order.items ≤ 256) };
}

impl<'a> Finished<'a> {
    pub(crate) fn new(core: Core<'a>, order: Vec<u32>) -> Finished<'a>
        requires run { IsFinishedRun core.tree core.jobs core.opening record { core = core; order = order.items } }
        requires few { length order.items ≤ 256 }
        ensures core { result.core ≡ core.entry }
        ensures order { result.order ≡ order.items }
    {
        Finished { core, order }
    }

    /// The core of the run.
    pub fn core(&self) -> &Core<'a>
        ensures core { result.now ≡ self.now.core }
        ensures run { IsRun self.now.core.jobs (past_of self.now.core) }
        ensures finished { IsFinished self.now.core.jobs (past_of self.now.core) }
        ensures serial { IsSerialBy self.now.order self.now.core.jobs self.now.core.opening (past_of self.now.core) }
    {
        &self.core
    }

    /// The jobs in their serial order, each once.
    pub fn order(&self) -> &[u32]
        ensures order { result.now ≡ self.now.order }
        ensures placement { self.now.order ≡ placement_order self.now.core.tree self.now.core.jobs
            (past_of self.now.core) }
        ensures once { IsEachOnce self.now.order (length self.now.core.jobs) }
        ensures few { length self.now.order ≤ 256 }
    {
        &self.order
    }

    /// The records as the run left them.
    pub fn into_records(self) -> Records
        ensures { result ≡ run_records self.entry.core.jobs self.entry.core.opening (past_of self.entry.core) }
    {
        let Finished { core, order: _ } = self;
        core.into_records()
    }

    /// For each job its place in the order.
    pub fn places(&self, alloc: Global) -> Result<Vec<u32>, NoMemory>
        ensures { IfOk result (λ places. places.items ≡ places_of self.now.order (length self.now.core.jobs)) }
    {
        let order = self.order();
        places_in(alloc, order, self.core().jobs().len())
    }
}
