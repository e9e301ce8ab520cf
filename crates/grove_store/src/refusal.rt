use grove_wire::Fault;

/// Why a line is refused.
#[derive(Clone, Copy, Debug)]
pub enum Refusal {
    /// By what it asks for, or by its run. Want of memory is never told this way.
    Fault(Fault),
    /// No further round can be counted.
    Rounds,
}

impl Refusal {
    ghost use Rattle.std.specs.Prelude.{◌≡◌};
    ghost use Rattle.grove_store.specs.Refusals.{refusal_name};

    /// The name by which the line is refused, as `shape`.
    pub fn name(self) -> &'static str
        ensures { result.now ≡ refusal_name self }
    {
        match self {
            Refusal::Fault(fault) => fault.name(),
            Refusal::Rounds => "rounds",
        }
    }
}
