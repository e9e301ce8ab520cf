use std::fmt;

/// A time in seconds, shown to the microsecond.
#[derive(Clone, Copy)]
pub struct Seconds {
    pub micros: u64,
}

impl fmt::Display for Seconds {
    ghost use Rattle.std.specs.Prelude.{Some};
    ghost use Rattle.grove_gauge.specs.Times.{seconds_text};

    ghost output = { λ time. Some (seconds_text time.micros) };

    fn fmt<W: fmt::Write>(&self, f: &mut fmt::Formatter<W>) -> fmt::Result {
        let whole = self.micros / 1_000_000;
        let rest = self.micros % 1_000_000;
        write!(f, "{whole}.{rest:06}")
    }
}
