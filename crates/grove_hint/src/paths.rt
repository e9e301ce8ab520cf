//! Why a path is that of no node.
ghost use Rattle.std.specs.Prelude.{◌<◌, length};

use crate::forms::text_of;
use crate::hinting::Refused;
use crate::likeness::resembles;
use crate::places::{Subject, Whole};
use crate::sayings::Said;
use crate::shown::{Near, Quoted, hint_that};
use crate::trees::{child_named, is_child, name_of};
use grove_base::Hint;
use grove_tree::{NoMemory, Node, Tree};
use grove_wire::{Fault, Part, Place, WireFault};
use serde_json::Value;
use std::alloc::{AllocError, Global};
use std::fmt;
use std::fmt::{Formatter, Write};

/// What a person is told of the path beside `below` in a query, which no node of the tree has.
pub fn hint_of_path(alloc: Global, tree: &Tree, path: &str) -> Result<Hint, NoMemory> {
    let value = Value::String(String::from_str(alloc, path)?);
    let subject = Subject {
        alloc,
        whole: Whole::Below,
        value: &value,
        tree: Some(tree),
    };
    let (part, at, item) = (Part::Whole, None, None);
    let fault = Fault::Wire(WireFault::NoPath(Place { part, at, item }));
    let refused = Refused {
        subject,
        fault,
        repeated: None,
    };
    hint_that(alloc, &refused)
}

impl<'v> Subject<'v> {
    /// Why the path at the place is that of no node.
    pub(crate) fn no_path<W: Write>(self, f: &mut Formatter<W>, place: Place) -> fmt::Result {
        let path = path_in(self.value_at(place));
        let said = Said {
            text: path,
            ..self.said_of("no-path", place)
        };
        match self.ill_formed(path) {
            Some((name, second)) => write!(
                f,
                "{}",
                Said {
                    name,
                    second,
                    ..said
                }
            ),
            None => {
                write!(f, "{said}")?;
                self.lost(f, path)
            }
        }
    }

    /// What is wrong with a path that is none, and the name in it that no node may have.
    fn ill_formed(self, path: &str) -> Option<(&'static str, &str)> {
        if !path.starts_with('/') {
            return Some(("no-slash", ""));
        }
        if path.ends_with('/') {
            return Some(("slash-behind", ""));
        }
        match ill_named(path) {
            Some(name) if !self.is_document() => Some(("bad-name-in-path", name)),
            _ => None,
        }
    }

    /// Where the way down the path is lost, if the nodes are known.
    fn lost<W: Write>(self, f: &mut Formatter<W>, path: &str) -> fmt::Result {
        match self.tree {
            _ if self.is_document() => self.lost_in_rows(f, path),
            Some(tree) => self.lost_in_tree(f, tree, path),
            None => Ok(()),
        }
    }

    /// The deepest of the rows on the way down the path, and the name that no child of it has.
    fn lost_in_rows<W: Write>(self, f: &mut Formatter<W>, path: &str) -> fmt::Result {
        let (rows, mut parent, mut end) = (self.rows(), 0, 0usize);
        for name in path.split('/').skip(1) {
            let Some(child) = child_named(rows, parent, name) else {
                let near = near_row(self.alloc, rows, parent, name)?;
                return no_child(f, front_of(path, end), name, near);
            };
            parent = child as u64;
            end = end.saturating_add(1).saturating_add(name.len());
        }
        Ok(())
    }

    /// The same of a tree: the deepest node on the way down the path, and the name that no child of it has.
    fn lost_in_tree<W: Write>(self, f: &mut Formatter<W>, tree: &Tree, path: &str) -> fmt::Result {
        let mut end = 0usize;
        for name in path.split('/').skip(1) {
            let above = front_of(path, end);
            end = end.saturating_add(1).saturating_add(name.len());
            if tree.find(front_of(path, end)).is_none() {
                let near = near_child(self.alloc, tree, above, name)?;
                return match &near {
                    Some(path) => no_child(f, above, name, Some(Quoted(last_name(path)))),
                    None => no_child(f, above, name, None),
                };
            }
        }
        Ok(())
    }
}

/// The path that stands alone, or in an access, a step or a flow row, as far as there is one.
pub(crate) fn path_in(value: Option<&Value>) -> &str {
    match value {
        Some(Value::String(path)) => path,
        Some(Value::Array(items)) => text_of(items.get(1)),
        Some(row) => text_of(row.get("node")),
        None => "",
    }
}

/// The first name of the path that no node below the root may have.
fn ill_named(path: &str) -> Option<&str> {
    path.split('/').skip(1).find(|name| !is_name(name))
}

/// May a node below the root have the name?
fn is_name(name: &str) -> bool {
    let is_letter = |byte| matches!(byte, b'a'..=b'z' | b'0'..=b'9' | b'_' | b'-');
    matches!(name.len(), 1..=32) && name.bytes().all(is_letter)
}

/// The first row below the parent whose name resembles the missing one.
fn near_row<'v>(
    alloc: Global,
    rows: &'v [Value],
    parent: u64,
    missing: &str,
) -> Result<Option<Quoted<'v>>, AllocError> {
    for row in rows {
        let name = name_of(row);
        if is_child(row, parent) && resembles(alloc, missing, name)? {
            return Ok(Some(Quoted(name)));
        }
    }
    Ok(None)
}

/// The path of the first child whose name resembles the missing one; nothing stands above the root's children.
fn near_child(
    alloc: Global,
    tree: &Tree,
    above: &str,
    missing: &str,
) -> Result<Option<String>, AllocError> {
    let above = tree.find(above).unwrap_or(tree.root());
    for number in 0..tree.len() {
        let node = Node::new(number);
        if tree.parent(node) == Some(above) {
            let path = path_in_tree(alloc, tree, node)?;
            if resembles(alloc, missing, last_name(&path))? {
                return Ok(Some(path));
            }
        }
    }
    Ok(None)
}

/// That no child has the name, and the name of one that resembles it, if there is one.
fn no_child<W: Write>(
    f: &mut Formatter<W>,
    above: &str,
    name: &str,
    near: Option<Quoted<'_>>,
) -> fmt::Result {
    let above = Quoted(if above.is_empty() { "/" } else { above });
    let (name, near) = (Quoted(name), Near(near));
    write!(f, "; {above} has no child {name}{near}")
}

/// So many bytes of the path.
fn front_of(path: &str, bytes: usize) -> &str {
    path.get(..bytes).unwrap_or(path)
}

/// The last name of a path.
fn last_name(path: &str) -> &str {
    path.rsplit('/').next().unwrap_or("")
}

fn path_in_tree(alloc: Global, tree: &Tree, node: Node) -> Result<String, AllocError>
    requires { node < length tree.now }
{
    match tree.path_of(alloc, node) {
        Ok(path) => Ok(path),
        Err(NoMemory) => Err(AllocError),
    }
}
