//! The lists of a batch, the steps of a plan and the rows of a flow.
ghost use Rattle.std.specs.Prelude.{◌≡◌, length, None, Err, IfOk};
ghost use Rattle.serde_json.specs.Data.{Data, Members, no_members, object, put};
ghost use Rattle.serde_json.specs.Find.{as_object};
ghost use Rattle.grove_wire.specs.FlatValues.{seen, flat, IsMember, AreRowMembers};
ghost use Rattle.grove_line.specs.TokenValues.{value_at, members_at, AreMembers, Starts};

use crate::items::Item;
use crate::list_read::read_list;
use crate::members::{FromMembers, read_object};
use crate::scalars::{few, scalar};
use crate::unread::Unread;
use grove_access::AccessList;
use grove_plan::Step;
use grove_proof::FlowRow;
use grove_wire::{Finder, Place, RowMembers, Scalar, Version, WireFault, row_on, step_on};
use json::Reader;
use std::alloc::Global;

/// A list of a batch, whose accesses may tell lengths.
pub(crate) struct ListItem;

impl Item for ListItem {
    ghost use Rattle.grove_wire.specs.declared.versions.Version.TheVariants.{Second};
    ghost use Rattle.grove_wire.specs.Reading.{list_on};

    type Read = AccessList;

    ghost reads = { λ tree place d. list_on tree Second place d };

    fn next<'a>(
        alloc: Global,
        finder: &mut Finder<'_, 'a>,
        reader: &mut Reader<'a>,
        depth: usize,
        place: Place,
    ) -> Result<Result<AccessList, WireFault>, Unread> {
        let read = read_list(alloc, finder.tree(), reader, depth, place)?;
        Ok(read.in_version(Version::Second))
    }
}

/// A step of a plan.
pub(crate) struct StepItem;

impl Item for StepItem {
    ghost use Rattle.grove_wire.specs.Reading.{step_at};

    type Read = Step;

    ghost reads = { λ tree place d. step_at tree place d };

    fn next<'a>(
        _alloc: Global,
        finder: &mut Finder<'_, 'a>,
        reader: &mut Reader<'a>,
        depth: usize,
        place: Place,
    ) -> Result<Result<Step, WireFault>, Unread> {
        let items = few(reader, depth)?;
        Ok(step_on(finder, place, items))
    }
}

/// A row of a flow.
pub(crate) struct RowItem;

impl Item for RowItem {
    ghost use Rattle.grove_wire.specs.Reading.{flow_row_at};

    type Read = FlowRow;

    ghost reads = { λ tree place d. flow_row_at tree place d };

    fn next<'a>(
        alloc: Global,
        finder: &mut Finder<'_, 'a>,
        reader: &mut Reader<'a>,
        depth: usize,
        place: Place,
    ) -> Result<Result<FlowRow, WireFault>, Unread> {
        match read_object::<RowMembers<'a>>(alloc, finder, reader, depth)? {
            Some(members) => Ok(row_on(finder, place, &members)),
            None => Ok(Err(WireFault::Shape(place))),
        }
    }
}

impl<'a> FromMembers<'a> for RowMembers<'a> {
    ghost use Rattle.serde_json.specs.Data.{object};
    ghost use Rattle.grove_wire.specs.FlatValues.{AreRowMembers};

    ghost is_read = { λ _ row ms. AreRowMembers row (object ms) };

    fn new() -> RowMembers<'a> {
        RowMembers {
            node: None,
            above: None,
            held: None,
            first: None,
            last: None,
            own: None,
        }
    }

    fn read_member(
        &mut self,
        _alloc: Global,
        _finder: &mut Finder<'_, 'a>,
        reader: &mut Reader<'a>,
        depth: usize,
        name: &str,
    ) -> Result<(), Unread> {
        let member = scalar(reader, depth)?;
        put_member(self, name, member);
        Ok(())
    }
}

/// Puts what is looked at of one more member, which has the name.
fn put_member<'a>(row: &mut RowMembers<'a>, name: &str, member: Scalar<'a>)
    ensures { (ms : Members) (d : Data) → AreRowMembers row.old (object ms) → seen member.entry ≡ flat d
        → AreRowMembers row.new (object (put name.now d ms)) }
{
    row.node = latest(row.node, "node", name, member);
    row.above = latest(row.above, "above", name, member);
    row.held = latest(row.held, "held", name, member);
    row.first = latest(row.first, "first", name, member);
    row.last = latest(row.last, "last", name, member);
    row.own = latest(row.own, "own", name, member);
}

/// The member of the name that is wanted: this one, if it has the name, or the one before.
fn latest<'a>(
    before: Option<Scalar<'a>>,
    wanted: &str,
    name: &str,
    member: Scalar<'a>,
) -> Option<Scalar<'a>>
    ensures { (ms : Members) (d : Data) → IsMember before.entry wanted.now (object ms)
        → seen member.entry ≡ flat d → IsMember result wanted.now (object (put name.now d ms)) }
{
    if name == wanted { Some(member) } else { before }
}
