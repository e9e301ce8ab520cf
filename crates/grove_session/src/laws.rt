ghost use Rattle.grove_session.specs.Cuts.{LinesAreCut, LinesAreFeedless, LinesAreFew};

/// What holds of the lines of all bytes: with their line feeds they are the bytes, none has a line feed in it, and
/// there are at most as many as bytes.
pub fn line_laws()
    ensures cut { LinesAreCut }
    ensures feedless { LinesAreFeedless }
    ensures few { LinesAreFew }
{}
