use crate::{LineFault, Reason, TableFault};
use grove_base::{Hint, NoMemory};
use std::alloc::{AllocError, Global};

/// What a person is told of a table that is refused.
pub fn hint(alloc: Global, fault: &TableFault) -> Result<Hint, NoMemory> {
    let told = match fault {
        TableFault::Line(at) => fault_of_line(alloc, at)?,
        TableFault::Empty => {
            String::from_str(alloc, "the table has no line with a path, as \"/,1,0\"")?
        }
        TableFault::Unlike => {
            String::from_str(
                alloc,
                "it failed, though nothing is known to be wrong with the table",
            )?
        }
        TableFault::Memory => return Err(NoMemory),
    };
    Hint::new(alloc, &told)
}

/// What is wrong with a line.
fn fault_of_line(alloc: Global, at: &LineFault) -> Result<String, AllocError> {
    let number = at.number;
    let about = at.about.as_str();
    match at.reason {
        Reason::BadHeader => format!(in alloc;
            "line {number} is a header, and is to be \"path,weight,value\", \"path,weight\" or \"path\""
        ),
        Reason::BadFields => format!(in alloc;
            "line {number} has more than three fields: a path, a weight and a value"
        ),
        Reason::NotText => format!(in alloc; "line {number} is not UTF-8"),
        Reason::BadName => format!(in alloc;
            "line {number}: \"{about}\" is no path; it is \"/\", or names of 1 to 32 of a to z, 0 to 9, _ and - \
             with a slash before each"
        ),
        Reason::TooDeep => format!(in alloc; "line {number}: \"{about}\" has more than 32 names"),
        Reason::BadWeight => format!(in alloc;
            "line {number}: the weight \"{about}\" is no whole number from 1 to 1000"
        ),
        Reason::BadValue => format!(in alloc;
            "line {number}: the value \"{about}\" is no whole number from -9223372036854775808 to 9223372036854775807"
        ),
        Reason::TwiceNamed => format!(in alloc;
            "line {number}: an earlier line has the path \"{about}\""
        ),
        Reason::NoParent => format!(in alloc;
            "line {number}: no line has the path \"{about}\" of its parent; --parents adds such lines"
        ),
        Reason::TooMany => format!(in alloc; "line {number}: a tree has at most 4096 nodes"),
    }
}
