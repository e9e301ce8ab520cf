//! The rules that a plan, its flow or a history breaks.
use crate::forms::{number_of, text_of};
use crate::paths::path_in;
use crate::places::Subject;
use crate::sayings::Said;
use crate::trees::name_in;
use grove_core::StepFault;
use grove_plan::PlanFault;
use grove_proof::ProofFault;
use grove_wire::{Part, Place, StandingFault};
use serde_json::Value;

impl<'v> Subject<'v> {
    /// The rule that a plan breaks, and where; it is a job's, or the only one of what is refused.
    pub(crate) fn no_plan(
        self,
        name: &'static str,
        job: Option<u32>,
        fault: PlanFault,
    ) -> Said<'v> {
        let steps = self.steps(job);
        match fault {
            PlanFault::Strange(step)
            | PlanFault::Relock(step)
            | PlanFault::ParentNotHeld(step)
            | PlanFault::NotHeld(step)
            | PlanFault::WrongAccess(step)
            | PlanFault::AccessNotHeld(step) => self.no_step(name, job, step, fault),
            PlanFault::AccessMissing(access) => Said {
                text: path_in(self.list(job).get(access as usize)),
                number: u64::from(access),
                ..self.said_of_plan(name, job, None)
            },
            PlanFault::StillHeld(node) => Said {
                text: path_held(steps, name_in(self.rows().get(node.number() as usize))),
                ..self.said_of_plan(name, job, None)
            },
            PlanFault::Memory => self.said(name),
        }
    }

    /// The rule that a step breaks.
    fn no_step(
        self,
        name: &'static str,
        job: Option<u32>,
        step: u32,
        fault: PlanFault,
    ) -> Said<'v> {
        let (steps, list, at) = (self.steps(job), self.list(job), step as usize);
        let (path, access) = (
            path_in(steps.get(at)),
            number_in(steps.get(at)).unwrap_or(0),
        );
        let (name, text, other) = match fault {
            PlanFault::ParentNotHeld(_) if path == "/" => ("late-root", path, 0),
            PlanFault::Strange(_) => (name, "", list.len()),
            PlanFault::WrongAccess(_) => (name, "", accesses_in(steps.get(..at).unwrap_or(steps))),
            PlanFault::AccessNotHeld(_) => (name, path_in(list.get(access as usize)), 0),
            _ => (name, path, 0),
        };
        Said {
            text,
            number: access,
            other: other as i128,
            ..self.said_of_plan(name, job, Some(step))
        }
    }

    fn steps(self, job: Option<u32>) -> &'v [Value] {
        match job {
            Some(_) => self.items(Part::JobPlan, job),
            None => self.items(Part::Plan, None),
        }
    }

    fn list(self, job: Option<u32>) -> &'v [Value] {
        match job {
            Some(_) => self.items(Part::JobList, job),
            None => self.items(Part::List, None),
        }
    }

    /// What is told of a plan, or of a step of it.
    fn said_of_plan(self, name: &'static str, job: Option<u32>, step: Option<u32>) -> Said<'v> {
        let (part, at, item) = match job {
            Some(_) => (Part::JobPlan, job, step),
            None => (Part::Plan, step, None),
        };
        self.said_of(name, Place { part, at, item })
    }

    /// Why a flow doesn't show that its plan is least.
    pub(crate) fn no_proof(self, name: &'static str, fault: ProofFault) -> Said<'v> {
        match fault {
            ProofFault::Rows(row)
            | ProofFault::Sign(row)
            | ProofFault::TooBig(row)
            | ProofFault::LockBalance(row)
            | ProofFault::ReleaseBalance(row) => self.bad_flow(name, row),
            ProofFault::Value { cost, bound } => Said {
                number: cost,
                other: bound,
                ..self.said(name)
            },
            ProofFault::Plan(fault) => self.no_plan(name, None, fault),
            ProofFault::Memory => self.said(name),
        }
    }

    /// What is told of a row of a flow, which isn't there if the rows end too early.
    fn bad_flow(self, name: &'static str, row: u32) -> Said<'v> {
        let it = self.items(Part::Flow, None).get(row as usize);
        let name = if it.is_none() { "no-row" } else { name };
        Said {
            text: path_in(it),
            ..self.said_at(name, Part::Flow, row)
        }
    }

    /// Why an event may not happen.
    pub(crate) fn no_event(self, name: &'static str, at: u32, fault: StepFault) -> Said<'v> {
        let event = self.items(Part::Events, None).get(at as usize);
        let other = match fault {
            StepFault::NoTxn => self.items(Part::Jobs, None).len() as i128,
            StepFault::Blocked(holder) => i128::from(holder),
            _ => 0,
        };
        Said {
            number: number_in(event).unwrap_or(0),
            other,
            ..self.said_at(name, Part::Events, at)
        }
    }

    /// What is said to stand isn't what the events leave.
    pub(crate) fn no_standing(self, name: &'static str, fault: StandingFault) -> Said<'v> {
        let (part, at, of, count) = match fault {
            StandingFault::Record(node) => {
                (Part::StandingRecords, node, Part::Nodes, "count-of-records")
            }
            StandingFault::Replies(job) => {
                (Part::StandingReplies, job, Part::Jobs, "count-of-replies")
            }
        };
        let (stands, wanted) = (self.items(part, None).len(), self.items(of, None).len());
        let (name, number) = if stands == wanted {
            (name, u64::from(at))
        } else {
            (count, stands as u64)
        };
        Said {
            number,
            other: wanted as i128,
            ..self.said(name)
        }
    }
}

/// The access that a step does, or the job that an event is about.
fn number_in(item: Option<&Value>) -> Option<u64> {
    number_of(item?.get(1))
}

/// How many of the steps do an access.
fn accesses_in(steps: &[Value]) -> usize {
    steps
        .iter()
        .filter(|step| number_in(Some(step)).is_some())
        .count()
}

/// The first path with the name at its end that a step locks and none unlocks.
fn path_held<'v>(steps: &'v [Value], name: &str) -> &'v str {
    for step in steps {
        let path = path_in(Some(step));
        if is_word(step, "lock") && path.ends_with(name) && !unlock(steps, path) {
            return path;
        }
    }
    ""
}

fn unlock(steps: &[Value], path: &str) -> bool {
    steps.iter().any(|step| is_word(step, "unlock") && path_in(Some(step)) == path)
}

fn is_word(step: &Value, word: &str) -> bool {
    text_of(step.get(0)) == word
}
