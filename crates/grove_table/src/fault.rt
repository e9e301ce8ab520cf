ghost use Rattle.std.specs.Prelude.{◌≡◌};
ghost use Rattle.grove_table.specs.Rows.{Tells};

use grove_tree::NoMemory;
use std::alloc::{AllocError, AllocFailed, Global};

/// Why a text is no table of a tree.
#[derive(Debug, Drop)]
pub enum TableFault {
    /// It has no line of a node.
    Empty,
    /// A line is at fault.
    Line(LineFault),
    /// The tree that was made isn't the one of the lines. What a tree is made by keeps this from happening.
    Unlike,
    /// A growth was refused.
    Memory,
}

/// Why a line is refused.
#[derive(Debug, Drop)]
pub struct LineFault {
    /// The line, counted from 1.
    pub number: u64,
    pub reason: Reason,
    /// What the fault is about: the field, the path, or the path of the parent.
    pub about: String,
}

/// What is wrong with a line.
#[derive(Clone, Copy, Debug, PartialEq, Eq)]
pub enum Reason {
    /// A header has other names than `path`, `weight` and `value`, or in another order.
    BadHeader,
    /// It has more than three fields.
    BadFields,
    /// A field isn't UTF-8.
    NotText,
    /// Its path isn't one.
    BadName,
    /// Its path lies deeper than 32.
    TooDeep,
    /// The weight isn't 1 to 1,000.
    BadWeight,
    /// The value isn't a number of 64 bits.
    BadValue,
    /// An earlier line has the path.
    TwiceNamed,
    /// No line has the path of the parent.
    NoParent,
    /// With it there are more than 4,096 nodes.
    TooMany,
}

impl TableFault {
    /// A line at fault.
    pub fn of_line(alloc: Global, number: u64, reason: Reason, about: &str) -> TableFault
        ensures { Tells number reason about.now result }
    {
        match String::from_str(alloc, about) {
            Ok(about) => TableFault::Line(LineFault {
                number,
                reason,
                about,
            }),
            Err(_) => TableFault::Memory,
        }
    }
}

impl From<AllocError> for TableFault {
    ghost use Rattle.std.specs.Prelude.{◌≡◌};
    ghost use Rattle.grove_table.specs.declared.fault.TableFault.TheVariants.{Memory};

    ghost from_gives = { λ _ fault. fault ≡ Memory };

    fn from(_error: AllocError) -> TableFault {
        TableFault::Memory
    }
}

impl<T: Drop> From<AllocFailed<T>> for TableFault {
    ghost use Rattle.std.specs.Prelude.{◌≡◌};
    ghost use Rattle.grove_table.specs.declared.fault.TableFault.TheVariants.{Memory};

    ghost from_gives = { λ _ fault. fault ≡ Memory };

    fn from(_error: AllocFailed<T>) -> TableFault {
        TableFault::Memory
    }
}

impl From<NoMemory> for TableFault {
    ghost use Rattle.std.specs.Prelude.{◌≡◌};
    ghost use Rattle.grove_table.specs.declared.fault.TableFault.TheVariants.{Memory};

    ghost from_gives = { λ _ fault. fault ≡ Memory };

    fn from(_error: NoMemory) -> TableFault {
        TableFault::Memory
    }
}
