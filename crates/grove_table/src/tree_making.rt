ghost use Rattle.std.specs.Prelude.{IfErr, IfOk};
ghost use Rattle.grove_table.specs.Tables.{IsTreeOf};
ghost use Rattle.grove_table.specs.Refusals.{AreLinesRefused};
ghost use Rattle.grove_table.specs.Plantings.{IsNoLinesFault, IsOrphanFault};

use crate::confirming::is_tree_of;
use crate::line::line_with;
use crate::paths::{name_in, parent_path};
use crate::planting::{Sprout, planted, preorder};
use crate::{Line, Reason, TableFault};
use grove_access::Records;
use grove_tree::{Row, Tree, TreeFault};
use std::alloc::Global;

/// What is done with a node that the lines need above another, and that has no line.
#[derive(Clone, Copy, Debug, PartialEq, Eq)]
pub enum Absent {
    /// The line below it is refused.
    Refused,
    /// It is added, with weight 1 and value 0.
    Added,
}

/// What a node of a tree comes from.
#[derive(Clone, Copy)]
pub enum Origin {
    /// From the line at this place, which has its path.
    Line(usize),
    /// It is above the node of the line at this place, and has no line.
    Above(usize),
}

/// The tree of the lines, with its records. Children stand in the order in which the lines mention them, or what is
/// below them.
pub fn tree_of(alloc: Global, lines: &[Line], absent: Absent) -> Result<(Tree, Records), TableFault>
    ensures made { IfOk result (λ made. IsTreeOf absent lines.now made.0 made.1) }
    ensures refused { IfErr result (AreLinesRefused absent lines.now) }
{
    if lines.is_empty() {
        return Err(TableFault::Empty);
    }
    let sprouts = planted(alloc, lines)?;
    if absent == Absent::Refused {
        see_parents(alloc, lines)?;
    }
    let grown = grown_of(alloc, lines, &sprouts)?;
    let tree = match Tree::build(alloc, &grown.rows) {
        Ok(tree) => tree,
        Err(TreeFault::Memory) => return Err(TableFault::Memory),
        Err(_) => return Err(TableFault::Unlike),
    };
    let records = Records::new(alloc, &grown.values)?;
    if is_tree_of(&tree, &records, lines, &grown.origins, absent) {
        Ok((tree, records))
    } else {
        Err(TableFault::Unlike)
    }
}

/// Refuses the first line whose parent has no line.
fn see_parents(alloc: Global, lines: &[Line]) -> Result<(), TableFault>
    ensures { IfErr result (IsOrphanFault lines.now) }
{
    for place in 0..lines.len() {
        let line = &lines[place];
        let parent = parent_path(&line.path);
        if line_with(lines, parent).is_none() {
            let reason = Reason::NoParent;
            return Err(TableFault::of_line(alloc, line.number, reason, parent));
        }
    }
    Ok(())
}

/// The rows of a tree with its values, and what each comes from.
#[derive(Drop)]
struct Grown {
    rows: Vec<Row>,
    values: Vec<i64>,
    origins: Vec<Origin>,
}

/// The rows of the nodes, in preorder.
#[tactic(auto, using(crate::proofs::SpareLines::memory_fault))]
fn grown_of(alloc: Global, lines: &[Line], sprouts: &[Sprout<'_>]) -> Result<Grown, TableFault>
    ensures { IfErr result IsNoLinesFault }
{
    let mut grown = Grown {
        rows: Vec::new(alloc),
        values: Vec::new(alloc),
        origins: Vec::new(alloc),
    };
    let order = preorder(alloc, sprouts)?;
    let mut numbers = Vec::from_elem(alloc, 0u32, sprouts.len())?;
    for at in &order {
        let Some(sprout) = sprouts.get(*at) else {
            return Err(TableFault::Unlike);
        };
        let Ok(next) = u32::try_from(grown.rows.len()) else {
            return Err(TableFault::Unlike);
        };
        let Some(number) = numbers.get_mut(*at) else {
            return Err(TableFault::Unlike);
        };
        *number = next;
        let parent = match sprout.parent {
            Some(parent) => numbers.get(parent).copied(),
            None => None,
        };
        grow_one(alloc, &mut grown, lines, sprout, parent)?;
    }
    Ok(grown)
}

/// Adds the row of a node.
#[tactic(auto, using(crate::proofs::SpareLines::memory_fault))]
fn grow_one(
    alloc: Global,
    grown: &mut Grown,
    lines: &[Line],
    sprout: &Sprout<'_>,
    parent: Option<u32>,
) -> Result<(), TableFault>
    ensures { IfErr result IsNoLinesFault }
{
    let Ok(path) = str::from_utf8(sprout.path) else {
        return Err(TableFault::Unlike);
    };
    let (weight, value, origin) = match line_with(lines, path) {
        Some(place) => match lines.get(place) {
            Some(line) => (line.weight, line.value, Origin::Line(place)),
            None => return Err(TableFault::Unlike),
        },
        None => (1, 0, Origin::Above(sprout.mention)),
    };
    grown.rows.push(Row {
        parent,
        name: String::from_str(alloc, name_in(path))?,
        weight,
    })?;
    grown.values.push(value)?;
    grown.origins.push(origin)?;
    Ok(())
}
