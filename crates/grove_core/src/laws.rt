ghost use Rattle.grove_core.specs.Laws.{RunsAreSerial, RunsGoOn, NoCircles};
ghost use Rattle.grove_core.specs.FaultLaws.{RefusedMayNot, RefusedForOne, FirstFaultIsOne};
ghost use Rattle.grove_core.specs.ReplayLaws.{ReplayFaultIsOne, FinishedIsFaultless};
ghost use Rattle.grove_core.specs.Alone.{JobsAlone};

/// What holds of every run, said of the definitions alone: a finished run is serial by the placement order, which has
/// each job once; in an unfinished one some job's next step may be done; no jobs wait for each other in a circle; an
/// event that is refused may not happen, and is refused for one reason; jobs that aren't opened have one first fault;
/// and events that are replayed have one first fault, and none where they are a finished run. Jobs done alone, one
/// after the other by their numbers, are a finished run without a wait, which comes to their lists done in turn.
pub fn run_laws()
    ensures serial { RunsAreSerial }
    ensures going { RunsGoOn }
    ensures circles { NoCircles }
    ensures refused { RefusedMayNot }
    ensures reason { RefusedForOne }
    ensures opening { FirstFaultIsOne }
    ensures replayed { ReplayFaultIsOne }
    ensures faultless { FinishedIsFaultless }
    ensures alone { JobsAlone }
{}
