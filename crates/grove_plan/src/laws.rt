ghost use Rattle.grove_plan.specs.Laws.{FaultlessIsLegal};

/// What holds of every plan, said of the definitions alone: it has no fault exactly where it is legal.
pub fn plan_laws()
    ensures { FaultlessIsLegal }
{}
