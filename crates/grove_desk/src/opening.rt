use std::marker::Brand;

/// What a desk was opened with: its store, and whether a journal is kept. Whoever opens one picks both.
pub trait Opening {
    ghost use Rattle.std.specs.Prelude.{Bool};
    ghost use Rattle.grove_store.specs.StoreStates.{StoreState};

    ghost store: { StoreState };

    ghost kept: { Bool };
}

impl Opening for Brand {
    ghost use Rattle.std.specs.Prelude.{[], false};

    ghost store = { record { rows = []; records = []; waits = []; workers = 0; rounds = 0 } };

    ghost kept = { false };
}
