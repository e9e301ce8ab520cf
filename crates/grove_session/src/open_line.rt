ghost use Rattle.std.specs.Prelude.{◌≡◌, ◌≤◌, ◌↔◌, [], Some, IsTrue, length, IfOk, OnOk};
ghost use Rattle.grove_session.specs.declared.answers.TheConstants.{LINE_LIMIT};

use crate::LINE_LIMIT;
use std::alloc::{AllocError, Global};

/// So much room at most does a line leave to the next: those that are longer are few, and may come over many
/// connections.
const MOST_ROOM: usize = 64 * 1024;

/// A line that a read cut in two, as far as it goes. Of one that is too long no byte is kept.
#[derive(Debug, Drop)]
pub(crate) struct OpenLine {
    bytes: Vec<u8>,
    is_long: bool,
    ghost in_limit: { length bytes.items ≤ LINE_LIMIT },
}

impl OpenLine {
    ghost use Rattle.std.specs.Prelude.{Option};
    ghost use Rattle.std.specs.Option.{option_map};
    ghost use Rattle.grove_session.specs.Intakes.{held_line, with_bytes};

    pub(crate) fn new(alloc: Global) -> OpenLine
        ensures { held_line result ≡ Some [] }
    {
        OpenLine {
            bytes: Vec::new(alloc),
            is_long: false,
        }
    }

    pub(crate) fn is_empty(&self) -> bool
        ensures { IsTrue result ↔ (held_line self.now ≡ Some []) }
    {
        !self.is_long && self.bytes.is_empty()
    }

    pub(crate) fn extend(&mut self, bytes: &[u8]) -> Result<(), AllocError>
        ensures ok { OnOk result (held_line self.new ≡ with_bytes (held_line self.old) bytes.now) }
    {
        if bytes.len() > LINE_LIMIT - self.bytes.len() {
            self.is_long = true;
        }
        if !self.is_long {
            self.bytes.extend_from_slice(bytes)?;
        }
        Ok(())
    }

    /// The line that ends with these bytes, unless it is too long. Where none is open from before them it is these
    /// bytes themselves, and nothing is copied.
    pub(crate) fn ended_by<'a>(&'a mut self, end: &'a [u8]) -> Result<Option<&'a [u8]>, AllocError>
        ensures ok { IfOk result
            (λ line. option_map (λ bytes. bytes.now) line ≡ with_bytes (held_line self.old) end.now) }
    {
        if self.is_empty() {
            return Ok((end.len() <= LINE_LIMIT).then_some(end));
        }
        self.extend(end)?;
        Ok((!self.is_long).then_some(&self.bytes))
    }

    /// Begins the next line.
    pub(crate) fn clear(&mut self)
        ensures { held_line self.new ≡ Some [] }
    {
        self.bytes.clear();
        self.bytes.shrink_to(MOST_ROOM);
        self.is_long = false;
    }
}
