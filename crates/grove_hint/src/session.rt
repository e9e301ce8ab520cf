//! What is wrong with a line of a session.
use crate::hinting::Refused;
use crate::likeness::near_word;
use crate::places::{Subject, Whole};
use crate::shown::{Described, Listed, Quoted, hint_that};
use crate::syntax::{Input, NoJson};
use grove_base::{Hint, NoMemory};
use grove_tree::Tree;
use grove_wire::Fault;
use serde_json::Value;
use std::alloc::Global;
use std::fmt;
use std::fmt::{Display, Formatter, Write};

/// The greatest number of bytes of a line that is looked into, so that a hint takes little memory.
const MOST_READ: usize = 65_536;

/// The requests that there are.
static REQUESTS: [&str; 5] = ["plan", "check", "batch", "weights", "reweigh"];

/// What a person is told of a session's line that is refused for this fault, by the names of the store's tree if it is
/// known.
pub fn hint_of_request(
    alloc: Global,
    tree: Option<&Tree>,
    line: &[u8],
    fault: Fault,
) -> Result<Hint, NoMemory> {
    if line.len() > MOST_READ {
        return hint_that(
            alloc,
            &format_args!("the line has more than the {MOST_READ} bytes that a hint looks into"),
        );
    }
    match Value::from_slice(alloc, line) {
        Ok(value) => {
            let value = &value;
            let line = Line {
                alloc,
                tree,
                value,
                fault,
            };
            hint_that(alloc, &line)
        }
        Err(error) => NoJson::new(alloc, Input::Line, line, error).hint(),
    }
}

/// A line that is JSON and is refused.
#[derive(Clone, Copy)]
struct Line<'v> {
    alloc: Global,
    tree: Option<&'v Tree>,
    value: &'v Value,
    fault: Fault,
}

impl Display for Line<'_> {
    fn fmt<W: Write>(&self, f: &mut Formatter<W>) -> fmt::Result {
        let Value::Object(members) = self.value else {
            let (found, form) = (Described(self.value), r#"{"plan":[..]}"#);
            return write!(
                f,
                "the line is {found}, but has to be an object with one member, as {form}"
            );
        };
        let (1, Some((name, value))) = (members.len(), members.first_key_value()) else {
            let count = members.len();
            return write!(
                f,
                "the line is an object with {count} members, but a request has just one, as {{\"plan\":[..]}}"
            );
        };
        match whole_of(name) {
            Some(whole) => self.request_hint(f, whole, value),
            None => no_request(f, self.alloc, name),
        }
    }
}

impl Line<'_> {
    /// What is wrong with a request, of which there is this whole.
    fn request_hint<W: Write>(
        &self,
        f: &mut Formatter<W>,
        whole: Whole,
        value: &Value,
    ) -> fmt::Result {
        let subject = Subject {
            alloc: self.alloc,
            whole,
            value,
            tree: self.tree,
        };
        let refused = Refused {
            subject,
            fault: self.fault,
            repeated: None,
        };
        write!(f, "{refused}")
    }
}

/// What a request of this name has in it.
fn whole_of(name: &str) -> Option<Whole> {
    match name {
        "plan" | "weights" | "reweigh" => Some(Whole::List),
        "batch" => Some(Whole::Lists),
        "check" => Some(Whole::Check),
        _ => None,
    }
}

/// That no request has this name.
fn no_request<W: Write>(f: &mut Formatter<W>, alloc: Global, name: &str) -> fmt::Result {
    let near = near_word(alloc, name, &REQUESTS)?;
    let (name, five) = (Quoted(name), Listed(&REQUESTS));
    write!(f, "{name} is no request{near}; the five are {five}")
}
