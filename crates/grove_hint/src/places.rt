//! What stands at the place of a fault, and how the place is told.
use crate::asked::Asked;
use crate::differences::Misfit;
use crate::forms::{Form, items_of};
use crate::shown::Listed;
use grove_tree::Tree;
use grove_wire::{Part, Place};
use serde_json::Value;
use std::alloc::Global;
use std::fmt;
use std::fmt::{Display, Formatter, Write};

/// What is refused.
#[derive(Clone, Copy)]
pub(crate) enum Whole {
    Document(Asked),
    Check,
    /// The list of a request `plan`.
    List,
    /// The lists of a request `batch`.
    Lists,
    /// The path that a query has beside `below`.
    Below,
}

impl Whole {
    /// What it is that has a version.
    pub(crate) fn noun(self) -> &'static str {
        match self {
            Whole::Check => "check",
            _ => "document",
        }
    }
}

/// What is refused, with its value.
#[derive(Clone, Copy)]
pub(crate) struct Subject<'v> {
    pub alloc: Global,
    pub whole: Whole,
    pub value: &'v Value,
    /// The tree of the store that a line is for, if it is known; a document has its own.
    pub tree: Option<&'v Tree>,
}

/// A place of what is refused, in words.
#[derive(Clone, Copy)]
pub(crate) struct Spot {
    whole: Whole,
    place: Place,
}

impl Display for Spot {
    fn fmt<W: Write>(&self, f: &mut Formatter<W>) -> fmt::Result {
        let place = self.place;
        let word = match (self.whole, place.part) {
            (Whole::Below, _) => "below",
            (Whole::Check, Part::Whole) => "check",
            (_, Part::Whole) => "the document",
            (Whole::List, _) => "plan",
            (Whole::Lists, _) => "batch",
            _ => return write!(f, "{place}"),
        };
        match (place.at, place.item) {
            (Some(at), Some(item)) => write!(f, "{word} {at} {item}"),
            (Some(at), None) => write!(f, "{word} {at}"),
            _ => f.write_str(word),
        }
    }
}

impl<'v> Subject<'v> {
    /// The place in words.
    pub(crate) fn spot(self, place: Place) -> Spot {
        let whole = self.whole;
        Spot { whole, place }
    }

    /// What stands at the place.
    pub(crate) fn value_at(self, place: Place) -> Option<&'v Value> {
        let holder = holder_of(place);
        let object = match holder.part {
            Part::Whole => self.value,
            part => within(self.value.get(member_name(part))?, holder.at)?,
        };
        let part = match (self.whole, place.part) {
            (Whole::List | Whole::Lists, _) | (_, Part::Whole) => object,
            (_, part) => object.get(member_name(part))?,
        };
        match holder.part {
            Part::Jobs => within(part, place.item),
            _ => within(within(part, place.at)?, place.item),
        }
    }

    /// The items of the part, which is a job's where there is one.
    pub(crate) fn items(self, part: Part, job: Option<u32>) -> &'v [Value] {
        let (at, item) = (job, None);
        items_of(self.value_at(Place { part, at, item }))
    }

    /// The rows of the tree.
    pub(crate) fn rows(self) -> &'v [Value] {
        self.items(Part::Nodes, None)
    }

    /// Is it a document, which has the tree that it is about?
    pub(crate) fn is_document(self) -> bool {
        matches!(self.whole, Whole::Document(_))
    }

    /// Why what stands at the place isn't of its form, or that nothing stands there.
    pub(crate) fn misformed<W: Write>(self, f: &mut Formatter<W>, place: Place) -> fmt::Result {
        match self.value_at(place) {
            Some(value) => self.misfit(place, value).difference(f),
            None => self.missing(f, place),
        }
    }

    fn misfit(self, place: Place, value: &'v Value) -> Misfit<'v> {
        Misfit {
            subject: self,
            spot: self.spot(place),
            form: self.form_at(place),
            value,
        }
    }

    /// That a part isn't there.
    fn missing<W: Write>(self, f: &mut Formatter<W>, place: Place) -> fmt::Result {
        let (name, holder) = (member_name(place.part), holder_of(place));
        let object = self.value_at(holder).unwrap_or(self.value);
        self.misfit(holder, object).missing(f, name)?;
        match (self.whole, holder.part) {
            (Whole::Document(asked), Part::Whole) => self.unread_by(f, asked, name),
            _ => Ok(()),
        }
    }

    /// What the command reads that misses a member of this name.
    fn unread_by<W: Write>(self, f: &mut Formatter<W>, asked: Asked, name: &str) -> fmt::Result {
        let other = match name {
            "list" if self.value.get("lists").is_some() => ", but \"lists\", which \"run\" reads",
            "lists" if self.value.get("list").is_some() => ", but \"list\", which \"plan\" reads",
            _ => "",
        };
        let (command, members) = asked.reads();
        let members = Listed(members);
        write!(f, "{other}; \"{command}\" reads {members}")
    }

    /// The form of what stands at the place.
    fn form_at(self, place: Place) -> Form {
        match (place.part, place.at, place.item) {
            (Part::Whole, _, _) if matches!(self.whole, Whole::Check) => Form::Check,
            (Part::Whole, _, _) => Form::Document,
            (Part::Nodes, Some(_), _) => Form::Row,
            (Part::List, Some(_), _) | (Part::Lists | Part::JobList, _, Some(_)) => Form::Access,
            (Part::Plan, Some(_), _) | (Part::JobPlan, _, Some(_)) => Form::Step,
            (Part::Flow, Some(_), _) => Form::FlowRow,
            (Part::Jobs, Some(_), _) => Form::Job,
            (Part::Events, Some(_), _) => Form::Event,
            (Part::StandingRecords, Some(_), _) => Form::Signed,
            (Part::StandingReplies, _, Some(_)) => Form::Reply,
            (Part::Lists, None, _) => Form::Lists,
            (Part::Standing, None, _) => Form::Standing,
            _ => Form::Array,
        }
    }
}

/// The place of what the part is a member of.
fn holder_of(place: Place) -> Place {
    let (part, at) = match place.part {
        Part::JobList | Part::JobPlan => (Part::Jobs, place.at),
        Part::StandingRecords | Part::StandingReplies => (Part::Standing, None),
        _ => (Part::Whole, None),
    };
    let item = None;
    Place { part, at, item }
}

/// The name of the member that the part is.
pub(crate) fn member_name(part: Part) -> &'static str {
    match part {
        Part::Whole => "",
        Part::Nodes => "nodes",
        Part::List | Part::JobList => "list",
        Part::Lists => "lists",
        Part::Plan | Part::JobPlan => "plan",
        Part::Flow => "flow",
        Part::Jobs => "jobs",
        Part::Events => "events",
        Part::Standing => "standing",
        Part::StandingRecords => "records",
        Part::StandingReplies => "replies",
    }
}

fn within(value: &Value, at: Option<u32>) -> Option<&Value> {
    match at {
        Some(at) => value.get(at as usize),
        None => Some(value),
    }
}
