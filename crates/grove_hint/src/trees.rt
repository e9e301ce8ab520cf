//! Why rows are no tree.
use crate::forms::{number_of, text_of};
use crate::places::Subject;
use crate::sayings::Said;
use grove_tree::TreeFault;
use grove_wire::Part;
use serde_json::Value;

impl<'v> Subject<'v> {
    /// What makes the rows no tree.
    pub(crate) fn no_tree(self, name: &'static str, fault: TreeFault) -> Said<'v> {
        match fault {
            TreeFault::Empty | TreeFault::TooMany | TreeFault::Memory => {
                let number = self.rows().len() as u64;
                Said {
                    number,
                    ..self.said(name)
                }
            }
            TreeFault::BadParent(at) => self.bad_parent(at),
            TreeFault::BadName(0) => self.bad_row("name-of-root", 0),
            TreeFault::TwiceNamed(at) => self.twice_named(name, at),
            TreeFault::TooDeep(at) | TreeFault::BadName(at) | TreeFault::BadWeight(at) => {
                self.bad_row(name, at)
            }
        }
    }

    /// What is told of a row, with its name and its weight.
    fn bad_row(self, name: &'static str, at: u32) -> Said<'v> {
        let row = self.rows().get(at as usize);
        Said {
            text: name_in(row),
            number: number_in_row(row, "weight").unwrap_or(0),
            ..self.said_at(name, Part::Nodes, at)
        }
    }

    /// That a row has the name of an earlier one below the same parent.
    fn twice_named(self, name: &'static str, at: u32) -> Said<'v> {
        let rows = self.rows();
        let row = rows.get(at as usize);
        let parent = number_in_row(row, "parent").unwrap_or(0);
        let first = child_named(rows, parent, name_in(row)).unwrap_or(0);
        Said {
            text: name_in(row),
            number: first as u64,
            ..self.said_at(name, Part::Nodes, at)
        }
    }

    /// Why a row's parent isn't one that it may have.
    fn bad_parent(self, at: u32) -> Said<'v> {
        let parent = number_in_row(self.rows().get(at as usize), "parent");
        let name = match parent {
            None => "no-parent",
            Some(_) if at == 0 => "parent-of-root",
            Some(parent) if parent < u64::from(at) => "out-of-order",
            Some(_) => "bad-parent",
        };
        Said {
            number: parent.unwrap_or(0),
            ..self.said_at(name, Part::Nodes, at)
        }
    }
}

/// The first row below the parent that has the name.
pub(crate) fn child_named(rows: &[Value], parent: u64, name: &str) -> Option<usize> {
    rows.iter()
        .position(|row| is_child(row, parent) && name_of(row) == name)
}

pub(crate) fn is_child(row: &Value, parent: u64) -> bool {
    number_in_row(Some(row), "parent") == Some(parent)
}

fn number_in_row(row: Option<&Value>, member: &str) -> Option<u64> {
    number_of(row?.get(member))
}

pub(crate) fn name_in(row: Option<&Value>) -> &str {
    match row {
        Some(row) => name_of(row),
        None => "",
    }
}

pub(crate) fn name_of(row: &Value) -> &str {
    text_of(row.get("name"))
}
