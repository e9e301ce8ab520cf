use crate::costs::{Costs, Fall, Release, RowCost};
use crate::kinds::Kind;
use grove_flow::{Network, Solution};
use grove_proof::FlowRow;
use grove_span::SpanRow;
use grove_tree::NoMemory;
use std::alloc::Global;
use std::cmp::Ordering;
use std::mem::replace;

/// Where a row is locked and released, and what these still have to send to its children.
#[derive(Clone, Copy)]
struct Stand {
    lock: u32,
    release: u32,
    above: i64,
    held: i64,
}

/// What a walk over the rows proposes to be the solution of their network, with the amounts in the order of its arcs
/// and the latest places. Of the slots, each number says how many there are before a gap, the last how many in all.
/// The walk goes up and down once, and searches for nothing.
///
/// Nothing is promised of it but that it is safe: whoever uses a proposal asks `is_solution`.
pub fn propose(
    alloc: Global,
    network: &Network,
    rows: &[SpanRow],
    slots: &[u32],
) -> Result<Solution, NoMemory> {
    let costs = Costs::new(alloc, rows)?;
    let mut solution = Solution {
        amounts: Vec::with_capacity(alloc, network.arcs.len())?,
        places: Vec::with_capacity(alloc, network.needs.len())?,
    };
    go_down(alloc, rows, slots, &costs, &mut solution)?;
    Ok(solution)
}

/// The walk's way down: lets each row stand where that costs least, and sends along its arcs.
fn go_down(
    alloc: Global,
    rows: &[SpanRow],
    slots: &[u32],
    costs: &Costs,
    solution: &mut Solution,
) -> Result<(), NoMemory> {
    let mut stands: Vec<Stand> = Vec::with_capacity(alloc, rows.len())?;
    for (k, row) in rows.iter().enumerate() {
        let (stand, flow) = stand_of(costs, k, row, &mut stands);
        send(&mut solution.amounts, row, &flow)?;
        solution.places.push(slot_at(slots, stand.lock))?;
        solution.places.push(slot_at(slots, stand.release))?;
        stands.push(stand)?;
    }
    solution.places.push(0)?;
    Ok(())
}

/// What a parent leaves to a row: between which gaps its lock stands, and what it gets and gives along their arcs.
struct Share {
    from: u32,
    to: u32,
    above: i64,
    held: i64,
}

/// Where the row stands, and its row of the flow.
fn stand_of(costs: &Costs, k: usize, row: &SpanRow, stands: &mut [Stand]) -> (Stand, FlowRow) {
    let cost = costs.of(k);
    let Share {
        from,
        to,
        above,
        held,
    } = share_of(cost.fall, row, stands);
    let lock = cost.fall.latest.min(to).max(from);
    let Release { gap, rise } = costs.release(k, row, lock);
    let mut stand = Stand {
        lock,
        release: gap,
        above: above.wrapping_sub(held),
        held: rise,
    };
    let own = stand.send_own(cost, i64::from(row.weight));
    let flow = FlowRow {
        node: row.node,
        above: above.unsigned_abs(),
        held: held.unsigned_abs(),
        first: stand.send_first(row),
        last: stand.send_last(row),
        own: own.unsigned_abs(),
    };
    (stand, flow)
}

/// What the row's parent leaves to it. The topmost row has all gaps.
fn share_of(fall: Fall, row: &SpanRow, stands: &mut [Stand]) -> Share {
    if let Some(parent) = row.parent
        && let Some(parent) = stands.get_mut(parent as usize)
    {
        Share {
            from: parent.lock,
            to: parent.release,
            above: parent.share_above(fall),
            held: parent.share_held(fall),
        }
    } else {
        Share {
            from: 0,
            to: u32::MAX,
            above: 0,
            held: 0,
        }
    }
}

impl Stand {
    /// What the row's lock sends to its own release. What is left to each is for the children and the accesses.
    fn send_own(&mut self, cost: RowCost, weight: i64) -> i64 {
        let above = self.above.wrapping_add(weight);
        let mut own = 0;
        if self.lock == self.release {
            own = weight.wrapping_sub(cost.below).max(0);
            if self.lock < cost.fall.latest {
                own = own.max(above);
            }
        }
        self.above = above.wrapping_sub(own);
        self.held = self.held.wrapping_sub(own);
        own
    }

    /// What the row's lock sends to the base: all that is left, where the first access comes next.
    fn send_first(&mut self, row: &SpanRow) -> u64 {
        match row.first {
            Some(first) if first == self.lock => replace(&mut self.above, 0).unsigned_abs(),
            _ => 0,
        }
    }

    /// What the base sends to the row's release: all that it lacks, where the last access is just over.
    fn send_last(&mut self, row: &SpanRow) -> u64 {
        match row.last {
            Some(last) if last.saturating_add(1) == self.release => {
                replace(&mut self.held, 0).unsigned_abs()
            }
            _ => 0,
        }
    }

    /// What the row's lock sends to that of its child: all that is left, where the child can't be locked later.
    fn share_above(&mut self, child: Fall) -> i64 {
        if child.latest > self.lock {
            return 0;
        }
        replace(&mut self.above, 0)
    }

    /// What the child's lock sends to the row's release, which keeps it from where it could be.
    fn share_held(&mut self, child: Fall) -> i64 {
        match child.latest.cmp(&self.release) {
            Ordering::Less => 0,
            Ordering::Equal => take_up_to(&mut self.held, child.by),
            Ordering::Greater => child.by,
        }
    }
}

/// Takes as much as is left, and no more than `most`.
fn take_up_to(left: &mut i64, most: i64) -> i64 {
    let more = most.min(*left);
    *left = left.wrapping_sub(more);
    more
}

/// Sends the amounts along the row's arcs.
fn send(amounts: &mut Vec<u64>, row: &SpanRow, flow: &FlowRow) -> Result<(), NoMemory> {
    send_along(amounts, Kind::Above, row, flow)?;
    send_along(amounts, Kind::Held, row, flow)?;
    send_along(amounts, Kind::First, row, flow)?;
    send_along(amounts, Kind::Last, row, flow)?;
    send_along(amounts, Kind::Own, row, flow)?;
    Ok(())
}

fn send_along(
    amounts: &mut Vec<u64>,
    kind: Kind,
    row: &SpanRow,
    flow: &FlowRow,
) -> Result<(), NoMemory> {
    if kind.bound(row).is_some() {
        amounts.push(kind.amount(flow))?;
    }
    Ok(())
}

fn slot_at(slots: &[u32], gap: u32) -> i64 {
    match slots.get(gap as usize) {
        Some(slot) => i64::from(*slot),
        None => 0,
    }
}
