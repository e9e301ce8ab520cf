use crate::{Reason, TableFault};
use std::alloc::{AllocError, Global};

/// The text of a fault, as a refusal has it: `line 3 bad-weight`, `table empty`.
pub fn fault_text(alloc: Global, fault: &TableFault) -> Result<String, AllocError> {
    match fault {
        TableFault::Line(at) => {
            let number = at.number;
            let name = name_of(at.reason);
            format!(in alloc; "line {number} {name}")
        }
        TableFault::Empty => String::from_str(alloc, "table empty"),
        TableFault::Unlike => String::from_str(alloc, "table unlike"),
        TableFault::Memory => Err(AllocError),
    }
}

fn name_of(reason: Reason) -> &'static str {
    match reason {
        Reason::BadHeader => "bad-header",
        Reason::BadFields => "bad-fields",
        Reason::NotText => "not-text",
        Reason::BadName => "bad-name",
        Reason::TooDeep => "too-deep",
        Reason::BadWeight => "bad-weight",
        Reason::BadValue => "bad-value",
        Reason::TwiceNamed => "twice-named",
        Reason::NoParent => "no-parent",
        Reason::TooMany => "too-many",
    }
}
