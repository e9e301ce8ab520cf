ghost use Rattle.std.specs.Prelude.{◌≡◌};
ghost use Rattle.grove_wire.specs.Places.{whole_of, item_of, item_on, part_word};

use std::fmt;

/// A part of a document.
#[derive(Clone, Copy, Debug, PartialEq, Eq)]
pub enum Part {
    Whole,
    Nodes,
    List,
    Lists,
    Plan,
    Flow,
    Jobs,
    /// The `list` of a job.
    JobList,
    /// The `plan` of a job.
    JobPlan,
    Events,
    Standing,
    /// The `records` of `standing`.
    StandingRecords,
    /// The `replies` of `standing`.
    StandingReplies,
}

impl Part {
    /// The part's word; for a part that is a member of the document it is the name of that member.
    pub(crate) fn word(self) -> &'static str
        ensures { result.now ≡ part_word self }
    {
        match self {
            Part::Whole => "whole",
            Part::Nodes => "nodes",
            Part::List => "list",
            Part::Lists => "lists",
            Part::Plan => "plan",
            Part::Flow => "flow",
            Part::Jobs => "jobs",
            Part::JobList => "job-list",
            Part::JobPlan => "job-plan",
            Part::Events => "events",
            Part::Standing => "standing",
            Part::StandingRecords => "standing-records",
            Part::StandingReplies => "standing-replies",
        }
    }
}

/// Where in a document something is wrong.
#[derive(Clone, Copy, Debug, PartialEq, Eq)]
pub struct Place {
    pub part: Part,
    /// The row, access, step, list, job, event or record within the part, counted from 0; absent where the part as a
    /// whole is at fault.
    pub at: Option<u32>,
    /// The access within a list of `lists` or of a job, the step within the plan of a job, or the reply to a job;
    /// absent elsewhere.
    pub item: Option<u32>,
}

impl Place {
    /// A part as a whole.
    pub fn whole(part: Part) -> Place
        ensures { result ≡ whole_of part }
    {
        Place {
            part,
            at: None,
            item: None,
        }
    }

    /// One item of a part.
    pub(crate) fn item(part: Part, at: u32) -> Place
        ensures { result ≡ item_of part at }
    {
        Place {
            part,
            at: Some(at),
            item: None,
        }
    }

    /// One item of what stands at this place, where that is a part or an item of one.
    pub fn within(self, at: u32) -> Place
        ensures { result ≡ item_on self at }
    {
        match self.at {
            None => Place::item(self.part, at),
            Some(list) => Place {
                part: self.part,
                at: Some(list),
                item: Some(at),
            },
        }
    }
}

impl fmt::Display for Place {
    ghost use Rattle.std.specs.Prelude.{Some};
    ghost use Rattle.grove_wire.specs.Texts.{place_text};

    ghost output = { λ place. Some (place_text place) };

    fn fmt<W: fmt::Write>(&self, f: &mut fmt::Formatter<W>) -> fmt::Result {
        let word = self.part.word();
        match (self.at, self.item) {
            (None, None) => write!(f, "{word}"),
            (Some(at), None) => write!(f, "{word} {at}"),
            (None, Some(item)) => write!(f, "{word} {item}"),
            (Some(at), Some(item)) => write!(f, "{word} {at} {item}"),
        }
    }
}
