ghost use Rattle.grove_build.specs.Settled.{SettledOnce, SettledIsAccepted};

/// What holds of settled plans, said of the definitions alone: at most one plan is settled for a list, and with the
/// flow that `plan` gives, `check` accepts it or wants memory.
pub fn settled_laws()
    ensures once { SettledOnce }
    ensures accepted { SettledIsAccepted }
{}
