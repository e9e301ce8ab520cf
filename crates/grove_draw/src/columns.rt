ghost use Rattle.std.specs.Prelude.{◌≡◌};
ghost use Rattle.grove_draw.specs.Scales.{end_of, start_of};

use grove_access::Access;
use std::alloc::{AllocError, Global};

/// How wide columns may be.
#[derive(Clone, Copy)]
pub struct Widths {
    /// What each column has.
    pub least: usize,
    /// What all columns share beyond that, by their lengths.
    pub shared: usize,
    /// What a column has at most for each slot beyond the least.
    pub slot: usize,
}

/// Where the accesses of a list lie in a drawing: each is a column, the wider the longer it is.
#[derive(Drop)]
pub struct Columns {
    // Where each access begins, and where the last one ends.
    starts: Vec<usize>,
    // How many slots lie before.
    times: Vec<usize>,
}

impl Columns {
    pub fn new(alloc: Global, accesses: &[Access], widths: Widths) -> Result<Columns, AllocError> {
        let slots = slots_of(accesses);
        let mut starts = vec![in alloc; 0]?;
        let mut times = vec![in alloc; 0]?;
        let mut start: usize = 0;
        let mut time: usize = 0;
        for access in accesses {
            start = start.saturating_add(widths.of(access.length as usize, slots));
            time = time.saturating_add(access.length as usize);
            starts.push(start)?;
            times.push(time)?;
        }
        Ok(Columns { starts, times })
    }

    /// Where the access begins, or the last one ends.
    pub fn start(&self, access: usize) -> usize
        ensures { result ≡ start_of self.now access }
    {
        match self.starts.get(access) {
            Some(start) => *start,
            None => self.end(),
        }
    }

    /// Where the last access ends.
    pub fn end(&self) -> usize
        ensures { result ≡ end_of self.now }
    {
        self.starts.last().copied().unwrap_or(0)
    }

    /// How many slots lie before the access.
    pub fn time(&self, access: usize) -> usize {
        match self.times.get(access) {
            Some(time) => *time,
            None => self.times.last().copied().unwrap_or(0),
        }
    }
}

impl Widths {
    /// The width of an access of this length, of so many slots in all.
    fn of(self, length: usize, slots: usize) -> usize {
        let shared = self.shared.min(slots.saturating_mul(self.slot));
        self.least
            .saturating_add(length.saturating_mul(shared) / slots.max(1))
    }
}

fn slots_of(accesses: &[Access]) -> usize {
    let mut slots: usize = 0;
    for access in accesses {
        slots = slots.saturating_add(access.length as usize);
    }
    slots
}
