//! A check that a line asks for: a version, a list, a plan and a flow, in any order.
ghost use Rattle.std.specs.Prelude.{◌≡◌, Err, None, Some, length, IfOk, OnOk};
ghost use Rattle.serde_json.specs.Data.{Data, Members, no_members, object, put};
ghost use Rattle.grove_tree.specs.Trees.{Rows};
ghost use Rattle.grove_wire.specs.FlatValues.{seen, flat};
ghost use Rattle.grove_wire.specs.Requests.{check_of};
ghost use Rattle.grove_line.specs.CheckReading.{asked, asked_in, version_told, plan_told, flow_told};
ghost use Rattle.grove_line.specs.TokenValues.{value_at, members_at, AreMembers, Starts};

use crate::items::items;
use crate::list_read::{ListRead, read_list};
use crate::members::{FromMembers, read_object};
use crate::parts::{RowItem, StepItem};
use crate::scalars::scalar;
use crate::unread::Unread;
use crate::values::pass;
use grove_plan::Plan;
use grove_proof::Flow;
use grove_wire::{Finder, MOST_ITEMS, Part, Place, Request, Scalar, Version, WireFault};
use json::Reader;
use std::alloc::Global;

/// The parts of a check, each as it is read or its first fault.
#[derive(Drop)]
struct Check {
    version: Result<Version, WireFault>,
    list: ListRead,
    plan: Result<Plan, WireFault>,
    flow: Result<Flow, WireFault>,
}

impl<'a> FromMembers<'a> for Check {
    ghost use Rattle.grove_line.specs.CheckReading.{IsCheck};

    ghost is_read = { λ tree check ms. IsCheck tree check ms };

    fn new() -> Check {
        Check {
            version: Ok(Version::First),
            list: ListRead {
                list: Err(WireFault::Shape(Place::whole(Part::List))),
                told: None,
            },
            plan: Err(WireFault::Shape(Place::whole(Part::Plan))),
            flow: Err(WireFault::Shape(Place::whole(Part::Flow))),
        }
    }

    fn read_member(
        &mut self,
        alloc: Global,
        finder: &mut Finder<'_, 'a>,
        reader: &mut Reader<'a>,
        depth: usize,
        name: &str,
    ) -> Result<(), Unread> {
        match name {
            "version" => self.version = version_of(scalar(reader, depth)?),
            "list" => {
                self.list = read_list(
                    alloc,
                    finder.tree(),
                    reader,
                    depth,
                    Place::whole(Part::List),
                )?;
            }
            "plan" => self.plan = read_plan(alloc, finder, reader, depth)?,
            "flow" => self.flow = read_flow(alloc, finder, reader, depth)?,
            _ => pass(reader, depth)?,
        }
        Ok(())
    }
}

impl Check {
    /// What is asked for, or the first fault of the parts in their order.
    fn into_request(self) -> Result<Request, WireFault>
        ensures { asked result ≡ asked_in self }
    {
        let version = self.version?;
        let list = self.list.in_version(version)?;
        let plan = self.plan?;
        let flow = self.flow?;
        Ok(Request::Check(list, plan, flow))
    }
}

/// The version that the member tells.
fn version_of(member: Scalar<'_>) -> Result<Version, WireFault>
    ensures { (d : Data) → seen member.entry ≡ flat d → result ≡ version_told (Some d) }
{
    match member.as_u64() {
        Some(1) => Ok(Version::First),
        Some(2) => Ok(Version::Second),
        _ => Err(WireFault::Shape(Place::whole(Part::Whole))),
    }
}

/// Reads the plan that comes next.
fn read_plan<'a>(
    alloc: Global,
    finder: &mut Finder<'_, 'a>,
    reader: &mut Reader<'a>,
    depth: usize,
) -> Result<Result<Plan, WireFault>, Unread>
    ensures read { IfOk result (λ plan. Starts depth reader.old reader.new
        (λ d. plan ≡ plan_told finder.old (Some d))) }
    ensures unread { result ≡ Err Unread.BadJson → value_at depth reader.old ≡ None }
    ensures tree { finder.new ≡ finder.old }
{
    let place = Place::whole(Part::Plan);
    match items::<StepItem>(alloc, finder, reader, depth, place, MOST_ITEMS)? {
        Ok(steps) => Ok(Ok(Plan::new(steps))),
        Err(fault) => Ok(Err(fault)),
    }
}

/// Reads the flow that comes next.
fn read_flow<'a>(
    alloc: Global,
    finder: &mut Finder<'_, 'a>,
    reader: &mut Reader<'a>,
    depth: usize,
) -> Result<Result<Flow, WireFault>, Unread>
    ensures read { IfOk result (λ flow. Starts depth reader.old reader.new
        (λ d. flow ≡ flow_told finder.old (Some d))) }
    ensures unread { result ≡ Err Unread.BadJson → value_at depth reader.old ≡ None }
    ensures tree { finder.new ≡ finder.old }
{
    let place = Place::whole(Part::Flow);
    match items::<RowItem>(alloc, finder, reader, depth, place, MOST_ITEMS)? {
        Ok(rows) => Ok(Ok(Flow::new(rows))),
        Err(fault) => Ok(Err(fault)),
    }
}

/// Reads the check that comes next.
pub(crate) fn read_check<'a>(
    alloc: Global,
    finder: &mut Finder<'_, 'a>,
    reader: &mut Reader<'a>,
    depth: usize,
) -> Result<Result<Request, WireFault>, Unread>
    ensures read { IfOk result (λ outcome. Starts depth reader.old reader.new
        (λ d. asked outcome ≡ check_of finder.old d)) }
    ensures unread { result ≡ Err Unread.BadJson → value_at depth reader.old ≡ None }
    ensures tree { finder.new ≡ finder.old }
{
    match read_object::<Check>(alloc, finder, reader, depth)? {
        Some(check) => Ok(check.into_request()),
        None => Ok(Err(WireFault::Shape(Place::whole(Part::Whole)))),
    }
}
