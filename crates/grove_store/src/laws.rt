ghost use Rattle.grove_store.specs.Longest.{RoundsFit, RoundsAreLongest, OthersAreAlone, RoundsAreWithin};
ghost use Rattle.grove_store.specs.Texts.{RepliesAreFeedless, RoundsLeaveSuccessors};

/// What holds of the lines that one round answers: batches without fault with at most 256 lists together, as many of
/// the first lines as fit; or any other line alone. No reply has a line feed in it, and the store keeps its names and
/// workers.
pub fn round_laws()
    ensures fit { RoundsFit }
    ensures longest { RoundsAreLongest }
    ensures alone { OthersAreAlone }
    ensures within { RoundsAreWithin }
    ensures feedless { RepliesAreFeedless }
    ensures successors { RoundsLeaveSuccessors }
{}
