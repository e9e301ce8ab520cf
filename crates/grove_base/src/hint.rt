ghost use Rattle.std.specs.Prelude.{◌≡◌};
ghost use Rattle.grove_base.specs.Hints.{IsHint};

use crate::NoMemory;
use crate::line::said;
use std::alloc::Global;
use std::marker::Model;

/// A line for a person, without its line feed: `hint: ` and 1 to 400 printable characters of ASCII.
#[derive(Debug, Drop)]
pub struct Hint {
    line: String,
}

impl Model for Hint {
    ghost use Rattle.std.specs.Prelude.{ℕ, List, string_bytes};
    ghost use Rattle.grove_base.specs.Hints.{IsHint};

    ghost Value = { List ℕ };

    ghost view = { λ hint. string_bytes hint.line };

    ghost invariant = { λ hint. IsHint (string_bytes hint.line) };
}

impl Hint {
    /// The text as a hint, in which it is said as far as a line can say it.
    pub fn new(alloc: Global, text: &str) -> Result<Hint, NoMemory> {
        let said = said(alloc, text)?;
        Ok(Hint {
            line: format!(in alloc; "hint: {said}")?,
        })
    }

    /// The line.
    pub fn as_str(&self) -> &str
        ensures line { result.now ≡ self.now }
        ensures hint { IsHint result.now }
    {
        &self.line
    }
}
