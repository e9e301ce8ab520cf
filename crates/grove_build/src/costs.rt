use grove_span::SpanRow;
use grove_tree::NoMemory;
use std::alloc::Global;

/// What rows cost, each with all that hangs below it, by the gaps of its lock and its release.
///
/// A lock that goes to a later gap makes no child's lock go anywhere else, up to the gap before the first access at or
/// below its row. Up to there the cost falls evenly, if the release goes where it is best. So that gap and that fall
/// are all that a row tells its parent.
#[derive(Drop)]
pub struct Costs {
    rows: Vec<RowCost>,
    /// The children of each row, the one first that may be locked latest: at the place of a row its next sibling, and
    /// at that place behind all rows its first child.
    links: Vec<usize>,
}

/// No row has this place.
const NOBODY: usize = usize::MAX;

/// By how much a row's cost falls where its lock goes a gap later, and the last gap up to which it does.
#[derive(Clone, Copy)]
pub struct Fall {
    pub latest: u32,
    pub by: i64,
}

/// What a row costs.
#[derive(Clone, Copy)]
pub struct RowCost {
    pub fall: Fall,
    /// By how much its children's costs fall together.
    pub below: i64,
}

impl RowCost {
    const NONE: RowCost = RowCost {
        fall: Fall { latest: 0, by: 0 },
        below: 0,
    };

    fn new(row: &SpanRow) -> RowCost {
        RowCost {
            fall: Fall {
                latest: row.first.unwrap_or(u32::MAX),
                by: i64::from(row.weight),
            },
            below: 0,
        }
    }

    /// Adds a child.
    fn add(&mut self, child: Fall) {
        self.fall.latest = self.fall.latest.min(child.latest);
        self.below = self.below.wrapping_add(child.by);
    }

    /// What the row tells its parent when all its children are added. The release of a row without accesses goes with
    /// its lock, or stays and lets its children go.
    fn settle(&mut self, row: &SpanRow) -> Fall {
        if row.last.is_none() {
            self.fall.by = self.fall.by.min(self.below);
        }
        self.fall
    }
}

/// Where a row is released best, and by how much its cost rises behind.
#[derive(Clone, Copy)]
pub struct Release {
    pub gap: u32,
    pub rise: i64,
}

impl Costs {
    /// Adds up the falls from the last row to the first.
    pub fn new(alloc: Global, rows: &[SpanRow]) -> Result<Costs, NoMemory> {
        let mut all = Vec::with_capacity(alloc, rows.len())?;
        for row in rows {
            all.push(RowCost::new(row))?;
        }
        let links = vec![in alloc; NOBODY; rows.len().saturating_mul(2)]?;
        let mut costs = Costs { rows: all, links };
        for (k, row) in rows.iter().enumerate().rev() {
            costs.tell(k, row);
        }
        Ok(costs)
    }

    /// What the row costs.
    pub fn of(&self, k: usize) -> RowCost {
        match self.rows.get(k) {
            Some(cost) => *cost,
            None => RowCost::NONE,
        }
    }

    /// Tells the parent what a row costs, all of whose children have told it theirs.
    fn tell(&mut self, k: usize, row: &SpanRow) {
        let fall = match self.rows.get_mut(k) {
            Some(cost) => cost.settle(row),
            None => return,
        };
        if let Some(parent) = row.parent
            && let Some(above) = self.rows.get_mut(parent as usize)
        {
            above.add(fall);
            self.link(k, parent as usize, fall.latest);
        }
    }

    /// Links a row with its parent, behind the children that may be locked later.
    fn link(&mut self, k: usize, parent: usize, latest: u32) {
        let mut place = parent.saturating_add(self.rows.len());
        for _ in 0..self.rows.len() {
            let next = self.linked(place);
            if self.of(next).fall.latest <= latest {
                break;
            }
            place = next;
        }
        let next = self.linked(place);
        self.set_link(k, next);
        self.set_link(place, k);
    }

    fn linked(&self, place: usize) -> usize {
        match self.links.get(place) {
            Some(link) => *link,
            None => NOBODY,
        }
    }

    fn set_link(&mut self, place: usize, to: usize) {
        if let Some(link) = self.links.get_mut(place) {
            *link = to;
        }
    }

    /// The first gap from the lock on at which the cost of the row's release rises, and by how much it rises there. It
    /// rises by the row's weight less the falls of the children that may be locked later.
    pub fn release(&self, k: usize, row: &SpanRow, lock: u32) -> Release {
        let earliest = row.last.map_or(0, |last| last.saturating_add(1));
        let least = lock.max(earliest);
        let mut rise = i64::from(row.weight);
        let mut best = Release {
            gap: u32::MAX,
            rise,
        };
        let mut place = k.saturating_add(self.rows.len());
        for _ in 0..self.rows.len() {
            place = self.linked(place);
            let child = self.of(place).fall;
            if child.latest <= least {
                break;
            }
            if child.latest < best.gap {
                best = Release {
                    gap: child.latest,
                    rise,
                };
            }
            rise = rise.wrapping_sub(child.by);
            if rise <= 0 {
                return best;
            }
        }
        Release { gap: least, rise }
    }
}
