ghost use Rattle.std.specs.Prelude.{◌≡◌, ◌≤◌, ◌<◌, ℕ, length, IfErr, OnOk, fold, true, false, MatchOption};
ghost use Rattle.std.specs.Prelude.{bytes_eq, string_bytes};
ghost use Rattle.std.specs.List.{list_any};
ghost use Rattle.grove_table.specs.Refusals.{IsSpare, paths_to, with_path};
ghost use Rattle.grove_table.specs.Plantings.{paths_of, IsFullFault, IsSpareFault};

use crate::line::line_with;
use crate::paths::ends_path;
use crate::{Line, Reason, TableFault};
use std::alloc::{AllocError, Global};

const MOST_NODES: usize = 4_096;

/// A node to be.
#[derive(Drop)]
pub struct Sprout<'a> {
    pub path: &'a [u8],
    /// The place of its parent, which is earlier.
    pub parent: Option<usize>,
    /// The first line that is at or below it.
    pub mention: usize,
}

/// The nodes of all lines with those above them, in the order in which the lines mention them.
pub fn planted<'a>(alloc: Global, lines: &'a [Line]) -> Result<Vec<Sprout<'a>>, TableFault>
    ensures none { OnOk result ((place : ℕ) → place < length lines.now → ¬ IsSpare lines.now place) }
    ensures refused { IfErr result (IsSpareFault lines.now) }
{
    let mut sprouts = Vec::new(alloc);
    for place in 0..lines.len() {
        let line = &lines[place];
        if line_with(&lines[..place], &line.path).is_some() {
            let reason = Reason::TwiceNamed;
            return Err(TableFault::of_line(alloc, line.number, reason, &line.path));
        }
        plant(alloc, &mut sprouts, line, place)?;
    }
    Ok(sprouts)
}

/// Adds the node of a line, with those above it, as far as they aren't there.
fn plant<'a>(
    alloc: Global,
    sprouts: &mut Vec<Sprout<'a>>,
    line: &'a Line,
    mention: usize,
) -> Result<(), TableFault>
    requires few { length sprouts.old.items ≤ 4096 }
    ensures planted { OnOk result (paths_of sprouts.new.items
        ≡ fold with_path (paths_of sprouts.old.items) (paths_to (string_bytes line.now.path))) }
    ensures few { OnOk result (length sprouts.new.items ≤ 4096) }
    ensures refused { IfErr result (IsFullFault line.now
        (fold with_path (paths_of sprouts.old.items) (paths_to (string_bytes line.now.path)))) }
{
    let path = line.path.as_bytes();
    let mut parent = None;
    for end in 0..path.len() + 1 {
        if ends_path(path, end) {
            let path = &path[..end];
            let sprout = Sprout {
                path,
                parent,
                mention,
            };
            parent = Some(place_of(alloc, sprouts, sprout, line)?);
        }
    }
    Ok(())
}

/// The place of a node of a line, which is added if none with its path is there.
fn place_of<'a>(
    alloc: Global,
    sprouts: &mut Vec<Sprout<'a>>,
    sprout: Sprout<'a>,
    line: &Line,
) -> Result<usize, TableFault>
    requires few { length sprouts.old.items ≤ 4096 }
    ensures planted { OnOk result (paths_of sprouts.new.items
        ≡ with_path (paths_of sprouts.old.items) sprout.entry.path.now) }
    ensures few { OnOk result (length sprouts.new.items ≤ 4096) }
    ensures refused { IfErr result (IsFullFault line.now
        (with_path (paths_of sprouts.old.items) sprout.entry.path.now)) }
{
    if let Some(known) = known_place(sprouts, sprout.path) {
        return Ok(known);
    }
    let next = sprouts.len();
    if next >= MOST_NODES {
        let reason = Reason::TooMany;
        return Err(TableFault::of_line(alloc, line.number, reason, &line.path));
    }
    sprouts.push(sprout)?;
    Ok(next)
}

/// The place of the node with the path, if it is there.
fn known_place(sprouts: &[Sprout<'_>], path: &[u8]) -> Option<usize>
    ensures { MatchOption result (list_any (λ other. bytes_eq other path.now) (paths_of sprouts.now) ≡ false)
        (λ _. list_any (λ other. bytes_eq other path.now) (paths_of sprouts.now) ≡ true) }
{
    for place in 0..sprouts.len() {
        let sprout = &sprouts[place];
        if sprout.path == path {
            return Some(place);
        }
    }
    None
}

/// The nodes in preorder, children in the order of the list.
pub fn preorder(alloc: Global, sprouts: &[Sprout<'_>]) -> Result<Vec<usize>, AllocError> {
    let mut order = Vec::new(alloc);
    let mut waiting = Vec::new(alloc);
    waiting.push(0usize)?;
    for _ in 0..sprouts.len() {
        let Some(at) = waiting.pop() else {
            break;
        };
        order.push(at)?;
        push_children(sprouts, at, &mut waiting)?;
    }
    Ok(order)
}

/// Puts the children of a node on the stack, the first on top.
fn push_children(
    sprouts: &[Sprout<'_>],
    parent: usize,
    waiting: &mut Vec<usize>,
) -> Result<(), AllocError> {
    for above in 0..sprouts.len() {
        let child = sprouts.len() - 1 - above;
        if sprouts[child].parent == Some(parent) {
            waiting.push(child)?;
        }
    }
    Ok(())
}
