ghost use Rattle.std.specs.Prelude.{◌≡◌, ◌-◌, IfOk, option_map, string_bytes};
ghost use Rattle.grove_draw.specs.Writings.{IsWritten};

use crate::Picture;
use crate::svg::svg;
use crate::text::text;
use grove_base::NoMemory;
use std::alloc::Global;

/// In which form a drawing is written.
#[derive(Clone, Copy, Debug, PartialEq, Eq)]
pub enum Form {
    /// For a browser or for print.
    Svg,
    /// For a terminal, in ASCII.
    Text,
}

/// The pictures of a list's plans: of the settled one, and of another one if there is one to compare.
#[derive(Debug, Drop)]
pub struct Drawing {
    pub own: Option<Picture>,
    pub settled: Picture,
}

impl Drawing {
    /// What the settled plan saves of the other one's cost.
    pub fn saved(&self) -> Option<u64>
        ensures { result ≡ option_map (λ own. own.cost - self.now.settled.cost) self.now.own }
    {
        match &self.own {
            Some(own) => Some(own.cost.saturating_sub(self.settled.cost)),
            None => None,
        }
    }

    /// Writes the drawing.
    pub fn written(&self, alloc: Global, form: Form) -> Result<String, NoMemory>
        ensures { IfOk result (λ text. IsWritten form self.now (string_bytes text)) }
    {
        match form {
            Form::Svg => Ok(svg(alloc, self)?),
            Form::Text => Ok(text(alloc, self)?),
        }
    }
}
