use crate::Opening;
use crate::pipeline::Pipeline;
use crate::turn::Leading;
use grove_line::LineReader;
use grove_store::Keeper;

/// What a visitor brings along from one line to the next.
#[derive(Drop)]
pub(crate) struct Errand<B: Opening, K: Keeper> {
    /// The lines that come next, with what the first of them were answered, as far as they were put together.
    pub lines: Option<Pipeline<B, K>>,
    /// What reads them.
    pub reader: LineReader,
    pub leading: Leading,
}

impl<B: Opening, K: Keeper> Errand<B, K> {
    /// Of a visitor who has put nothing yet, and leads for so long.
    pub(crate) fn new(leading: Leading) -> Self {
        Errand {
            lines: None,
            reader: LineReader::new(),
            leading,
        }
    }

    /// Are lines left that were to be put together?
    pub(crate) fn has_lines(&self) -> bool {
        match &self.lines {
            Some(lines) => !lines.is_empty(),
            None => false,
        }
    }
}
