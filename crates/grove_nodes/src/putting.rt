//! A plan with its flow, put into a caller's buffers.
ghost use Rattle.std.specs.Prelude.{◌≡◌, IfOk, OnErr};
ghost use Rattle.grove_nodes.specs.Putting.{counted_of, PutsBoth, PutsIf, PutsItems};

use crate::row::numbered_rows;
use crate::step::numbered_steps;
use crate::{Counted, NumberedRow, NumberedStep, Status};
use grove_build::Planned;
use grove_tree::NoMemory;
use std::alloc::Global;

/// Puts the steps, and the rows if there is any room for rows; or nothing, if there is no room for all that is wanted.
pub fn put(
    alloc: Global,
    planned: &Planned,
    steps: &mut [NumberedStep],
    rows: &mut [NumberedRow],
    counted: &mut Counted,
) -> Status
    ensures { PutsIf planned.now
        (record { steps_before = steps.old; steps_after = steps.new; rows_before = rows.old; rows_after = rows.new })
        counted.new result }
{
    *counted = Counted::of(planned);
    match put_both(alloc, planned, steps, rows) {
        Ok(status) => status,
        Err(NoMemory) => {
            *counted = Counted::refused(0);
            Status::Memory
        }
    }
}

fn put_both(
    alloc: Global,
    planned: &Planned,
    steps: &mut [NumberedStep],
    rows: &mut [NumberedRow],
) -> Result<Status, NoMemory>
    ensures put { IfOk result (PutsBoth planned.now
        (record { steps_before = steps.old; steps_after = steps.new; rows_before = rows.old; rows_after = rows.new })
        (counted_of planned.now)) }
    ensures steps { OnErr result (steps.new ≡ steps.old) }
    ensures rows { OnErr result (rows.new ≡ rows.old) }
{
    let all_steps = numbered_steps(alloc, planned.plan.steps())?;
    let all_rows = numbered_rows(alloc, planned.flow.rows())?;
    Ok(put_items(&all_steps, &all_rows, steps, rows))
}

fn put_items(
    all_steps: &[NumberedStep],
    all_rows: &[NumberedRow],
    steps: &mut [NumberedStep],
    rows: &mut [NumberedRow],
) -> Status
    ensures { PutsItems all_steps.now all_rows.now
        (record { steps_before = steps.old; steps_after = steps.new; rows_before = rows.old; rows_after = rows.new })
        result }
{
    let wants_rows = !rows.is_empty();
    if all_steps.len() > steps.len() || wants_rows && all_rows.len() > rows.len() {
        return Status::Room;
    }
    steps[..all_steps.len()].copy_from_slice(all_steps);
    if wants_rows {
        rows[..all_rows.len()].copy_from_slice(all_rows);
    }
    Status::Done
}
