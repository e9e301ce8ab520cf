ghost use Rattle.std.specs.Prelude.{List, ℕ};
ghost use Rattle.grove_store.specs.Refusals.{TellsRefusal};
ghost use Rattle.grove_desk.specs.Desks.{Tells};

use grove_store::Refusal;

/// What a visitor was told of the last line that was answered.
#[derive(Clone, Copy, Debug)]
pub enum Told {
    /// No line was answered yet.
    Nothing,
    /// That it is done.
    Accepted,
    /// Why it is refused.
    Refused(Refusal),
}

impl Told {
    /// What a reply tells that is refused so, if it is.
    pub(crate) fn of(refusal: Option<Refusal>) -> Told
        ensures { (reply : List ℕ) → TellsRefusal refusal reply → Tells result reply }
    {
        match refusal {
            Some(refusal) => Told::Refused(refusal),
            None => Told::Accepted,
        }
    }
}
