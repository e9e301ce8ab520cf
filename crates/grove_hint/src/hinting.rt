use crate::asked::Asked;
use crate::forms::{items_of, number_of};
use crate::likeness::stray_member;
use crate::places::{Subject, Whole};
use crate::repeats::{Repeated, repeated_in};
use crate::sayings::Said;
use crate::shown::{Listed, hint_that};
use crate::syntax::{Input, NoJson};
use grove_access::MOST_ACCESSES;
use grove_base::{Hint, NoMemory};
use grove_core::ReplayFault;
use grove_wire::{
    Fault, MOST_BYTES, MOST_EVENTS, MOST_HISTORY_BYTES, MOST_ITEMS, MOST_JOBS, MOST_LISTS, Part,
    Place, WireFault,
};
use serde_json::Value;
use std::alloc::Global;
use std::fmt;
use std::fmt::{Display, Formatter, Write};

/// What a person is told of a refusal: the command has refused these bytes for this fault; `document` is what they were
/// read as, if they were.
pub fn hint(
    alloc: Global,
    asked: Asked,
    bytes: &[u8],
    document: Option<&Value>,
    fault: Fault,
) -> Result<Hint, NoMemory> {
    match (fault, document) {
        (Fault::Wire(WireFault::Limit(place)), _) if place.part == Part::Whole => {
            too_long(alloc, asked)
        }
        (fault, Some(document)) => document_hint(alloc, asked, bytes, document, fault),
        (fault, None) => match Value::from_slice(alloc, bytes) {
            Ok(document) => document_hint(alloc, asked, bytes, &document, fault),
            Err(error) => NoJson::new(alloc, Input::Document, bytes, error).hint(),
        },
    }
}

/// That a document is too long for its command.
fn too_long(alloc: Global, asked: Asked) -> Result<Hint, NoMemory> {
    let (command, _) = asked.reads();
    let most = match asked {
        Asked::Audit => MOST_HISTORY_BYTES,
        _ => MOST_BYTES,
    };
    hint_that(
        alloc,
        &format_args!("the document has more than the {most} bytes that \"{command}\" takes"),
    )
}

fn document_hint(
    alloc: Global,
    asked: Asked,
    bytes: &[u8],
    value: &Value,
    fault: Fault,
) -> Result<Hint, NoMemory> {
    let subject = Subject {
        alloc,
        whole: Whole::Document(asked),
        value,
        tree: None,
    };
    let repeated = repeated_in(alloc, asked, bytes)?;
    let refused = Refused {
        subject,
        fault,
        repeated,
    };
    hint_that(alloc, &refused)
}

/// What a person is told of a document that is taken: of a member that nothing uses, if it resembles one that the
/// command would use and that isn't there, or else of one that stands twice. `bytes` are what the document was read
/// from.
pub fn oversight(
    alloc: Global,
    asked: Asked,
    bytes: &[u8],
    document: &Value,
) -> Result<Option<Hint>, NoMemory> {
    if let Some(stray) = stray_member(alloc, asked, document)? {
        return Ok(Some(hint_that(alloc, &stray)?));
    }
    match repeated_in(alloc, asked, bytes)? {
        Some(repeated) => Ok(Some(hint_that(alloc, &repeated)?)),
        None => Ok(None),
    }
}

/// What a person is told who starts the command at a terminal, without a document.
pub fn awaited(alloc: Global, asked: Asked) -> Result<Hint, NoMemory> {
    let (command, members) = asked.reads();
    let members = Listed(members);
    hint_that(
        alloc,
        &format_args!(
            "\"{command}\" reads a JSON document with {members} from standard input, up to its end (Ctrl-D)"
        ),
    )
}

/// What is refused, and for which fault.
#[derive(Clone, Copy)]
pub(crate) struct Refused<'v> {
    pub subject: Subject<'v>,
    pub fault: Fault,
    /// A member that stands twice, which may be why.
    pub repeated: Option<Repeated>,
}

impl Display for Refused<'_> {
    fn fmt<W: Write>(&self, f: &mut Formatter<W>) -> fmt::Result {
        self.subject.refused(f, self.fault)?;
        match (self.subject.whole, self.fault) {
            (_, Fault::Wire(WireFault::Shape(_))) => {}
            (Whole::Document(asked), _) => self.subject.stray(f, asked)?,
            _ => {}
        }
        match self.repeated {
            Some(repeated) => write!(f, "; {repeated}"),
            None => Ok(()),
        }
    }
}

impl<'v> Subject<'v> {
    /// A member that nothing uses may be why something else is refused.
    fn stray<W: Write>(self, f: &mut Formatter<W>, asked: Asked) -> fmt::Result {
        match stray_member(self.alloc, asked, self.value)? {
            Some(stray) => write!(f, "; {stray}"),
            None => Ok(()),
        }
    }

    /// What is wrong with what is refused, by the fault and its place.
    fn refused<W: Write>(self, f: &mut Formatter<W>, fault: Fault) -> fmt::Result {
        match fault {
            Fault::Wire(WireFault::Shape(place)) => self.misformed(f, place),
            Fault::Wire(WireFault::NoPath(place)) => self.no_path(f, place),
            Fault::Wire(WireFault::Limit(place)) => self.beyond(f, place),
            _ => write!(f, "{}", self.said_for(fault.name(), &fault)),
        }
    }

    /// What is told of a fault of this name, and what is filled in.
    fn said_for(self, name: &'static str, fault: &Fault) -> Said<'v> {
        match *fault {
            Fault::Wire(WireFault::BadLength(place)) => self.bad_length(name, place),
            Fault::Wire(WireFault::Tree(fault)) => self.no_tree(name, fault),
            Fault::Plan(fault) => self.no_plan(name, None, fault),
            Fault::Proof(fault) => self.no_proof(name, fault),
            Fault::Replay(ReplayFault::BadPlan(job, fault)) => {
                self.no_plan(name, Some(job), fault)
            }
            Fault::Replay(ReplayFault::BadEvent(event, fault)) => self.no_event(name, event, fault),
            Fault::Replay(ReplayFault::Unfinished(job)) => Said {
                number: u64::from(job),
                ..self.said(name)
            },
            Fault::Standing(fault) => self.no_standing(name, fault),
            Fault::Wire(_) | Fault::Run(_) | Fault::Replay(ReplayFault::Memory) => {
                self.said("memory")
            }
        }
    }

    /// What is told of the whole.
    pub(crate) fn said(self, name: &'static str) -> Said<'v> {
        let (part, at, item) = (Part::Whole, None, None);
        self.said_of(name, Place { part, at, item })
    }

    /// What is told of an item of a part.
    pub(crate) fn said_at(self, name: &'static str, part: Part, at: u32) -> Said<'v> {
        let (at, item) = (Some(at), None);
        self.said_of(name, Place { part, at, item })
    }

    /// What is told of a place, with nothing else filled in.
    pub(crate) fn said_of(self, name: &'static str, place: Place) -> Said<'v> {
        Said {
            name,
            spot: self.spot(place),
            text: "",
            second: "",
            number: 0,
            other: 0,
        }
    }

    /// An access that has too few slots or too many.
    fn bad_length(self, name: &'static str, place: Place) -> Said<'v> {
        let slots = number_of(items_of(self.value_at(place)).last());
        Said {
            number: slots.unwrap_or(0),
            ..self.said_of(name, place)
        }
    }

    /// A part of too many items.
    fn beyond<W: Write>(self, f: &mut Formatter<W>, place: Place) -> fmt::Result {
        let (most, items) = match (place.part, place.at) {
            (Part::Lists, None) => (MOST_LISTS, "lists"),
            (Part::Jobs, None) => (MOST_JOBS, "jobs"),
            (Part::Events, _) => (MOST_EVENTS, "events"),
            (Part::List | Part::Lists | Part::JobList, _) => (MOST_ACCESSES, "accesses"),
            _ => (MOST_ITEMS, "items"),
        };
        let (spot, count) = (self.spot(place), items_of(self.value_at(place)).len());
        write!(
            f,
            "{spot} has {count} {items}, but at most {most} are allowed"
        )
    }
}
