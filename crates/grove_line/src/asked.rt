use crate::{Line, Trees};

/// A line that is asked, and the ticket of who asks.
#[derive(Debug, Drop)]
pub struct Asked<T: Trees> {
    pub ticket: u64,
    pub line: Line<T>,
}
