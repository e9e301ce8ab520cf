ghost use Rattle.std.specs.Prelude.{◌≡◌, ◌<◌, ◌^◌, map, option_map, IfOk, length, vec_len};
ghost use Rattle.serde_json.specs.Find.{get};
ghost use Rattle.serde_json.specs.View.{view};
ghost use Rattle.grove_wire.specs.Outcomes.{Gives, each_on};
ghost use Rattle.grove_wire.specs.Places.{whole_of};
ghost use Rattle.grove_wire.specs.Reading.{flow_row_at, flow_in, plan_and_flow_in};
ghost use Rattle.grove_wire.specs.RowParts.{flow_with};
ghost use Rattle.grove_wire.specs.FlatValues.{seen, flat, path_seen, amount_seen, row_seen, AreRowMembers, row_on};

use crate::document::{MOST_ITEMS, items_in};
use crate::finder::Finder;
use crate::plans::plan_found;
use crate::{Part, Place, Scalar, WireFault};
use grove_plan::Plan;
use grove_proof::{Flow, FlowRow};
use grove_tree::{Node, Tree};
use serde_json::Value;
use std::alloc::Global;

/// The rows of the document's `flow`, over the tree. More than 4,294,967,295 are `Limit`; then they are read in order,
/// each first for its `Shape` and then for its `NoPath`.
pub fn read_flow(alloc: Global, tree: &Tree, document: &Value) -> Result<Flow, WireFault>
    ensures { Gives (λ flow. flow) result (flow_in tree.now (view document.now)) }
{
    let mut finder = Finder::new(alloc, tree, 0)?;
    flow_found(alloc, &mut finder, document)
}

/// The document's `plan` and then its `flow`, over the tree. The flow's paths are mostly known from the plan.
#[tactic(auto, unfolding(crate::specs::Reading::plan_in))]
pub fn read_plan_and_flow(
    alloc: Global,
    tree: &Tree,
    document: &Value,
) -> Result<(Plan, Flow), WireFault>
    ensures { Gives (λ read. (read.0, read.1)) result (plan_and_flow_in tree.now (view document.now)) }
{
    let steps = items_in(document, Part::Plan)?;
    let mut finder = Finder::new(alloc, tree, steps.len())?;
    let plan = plan_found(alloc, &mut finder, Place::whole(Part::Plan), steps)?;
    let flow = flow_found(alloc, &mut finder, document)?;
    Ok((plan, flow))
}

/// The flow, by what is known of its paths.
#[tactic(auto, unfolding(crate::specs::Reading::flow_in))]
fn flow_found<'v>(
    alloc: Global,
    finder: &mut Finder<'_, 'v>,
    document: &'v Value,
) -> Result<Flow, WireFault>
    ensures read { Gives (λ flow. flow) result (flow_in finder.old (view document.now)) }
    ensures tree { finder.new ≡ finder.old }
{
    let items = items_in(document, Part::Flow)?;
    if items.len() > MOST_ITEMS {
        return Err(WireFault::Limit(Place::whole(Part::Flow)));
    }
    let rows = read_flow_rows(alloc, finder, items)?;
    Ok(Flow::new(rows))
}

/// The rows of a flow, of which there are few enough.
fn read_flow_rows<'v>(
    alloc: Global,
    finder: &mut Finder<'_, 'v>,
    items: &'v [Value],
) -> Result<Vec<FlowRow>, WireFault>
    requires { length items.now < 2 ^ 32 }
    ensures read { Gives (λ rows. rows.items) result
        (each_on (flow_row_at finder.old) (whole_of Part.Flow) (map view items.now)) }
    ensures few { IfOk result (λ rows. vec_len rows < 2 ^ 32) }
    ensures tree { finder.new ≡ finder.old }
{
    let mut rows = Vec::new(alloc);
    for (at, item) in items.iter().enumerate() {
        let row = flow_row_at(finder, Place::item(Part::Flow, at as u32), item)?;
        rows.push(row)?;
    }
    Ok(rows)
}

#[tactic(auto, using(crate::proofs::FlatValues::row_of_members))]
fn flow_row_at<'v>(
    finder: &mut Finder<'_, 'v>,
    place: Place,
    value: &'v Value,
) -> Result<FlowRow, WireFault>
    ensures read { result ≡ flow_row_at finder.old place (view value.now) }
    ensures tree { finder.new ≡ finder.old }
{
    row_on(finder, place, &RowMembers::of(value))
}

/// A flow row: first its form, and then its path.
pub fn row_on<'v>(
    finder: &mut Finder<'_, 'v>,
    place: Place,
    members: &RowMembers<'v>,
) -> Result<FlowRow, WireFault>
    ensures read { result ≡ row_on finder.old place (row_seen members.now) }
    ensures tree { finder.new ≡ finder.old }
{
    let Some(form) = flow_form(members) else {
        return Err(WireFault::Shape(place));
    };
    let node = finder.node_on(place, form.path)?;
    Ok(row_at(node, &form))
}

/// What stands in a flow row, at the node of its path.
fn row_at(node: Node, form: &FlowForm<'_>) -> FlowRow
    ensures { result ≡ record {
      node = node;
      above = form.now.above;
      held = form.now.held;
      first = form.now.first;
      last = form.now.last;
      own = form.now.own;
    } }
{
    FlowRow {
        node,
        above: form.above,
        held: form.held,
        first: form.first,
        last: form.last,
        own: form.own,
    }
}

/// What is looked at of a flow row.
#[derive(Clone, Copy, Drop)]
pub struct RowMembers<'v> {
    pub node: Option<Scalar<'v>>,
    pub above: Option<Scalar<'v>>,
    pub held: Option<Scalar<'v>>,
    pub first: Option<Scalar<'v>>,
    pub last: Option<Scalar<'v>>,
    pub own: Option<Scalar<'v>>,
}

impl<'v> RowMembers<'v> {
    /// What is looked at of a value.
    pub fn of(value: &'v Value) -> RowMembers<'v>
        ensures { AreRowMembers result (view value.now) }
    {
        RowMembers {
            node: member_of(value, "node"),
            above: member_of(value, "above"),
            held: member_of(value, "held"),
            first: member_of(value, "first"),
            last: member_of(value, "last"),
            own: member_of(value, "own"),
        }
    }
}

fn member_of<'v>(value: &'v Value, name: &str) -> Option<Scalar<'v>>
    ensures { option_map seen result ≡ option_map flat (get name.now (view value.now)) }
{
    let member = value.get(name)?;
    Some(Scalar::of(member))
}

/// What stands in a flow row.
#[derive(Drop)]
struct FlowForm<'v> {
    path: &'v str,
    above: u64,
    held: u64,
    first: u64,
    last: u64,
    own: u64,
}

fn flow_form<'v>(members: &RowMembers<'v>) -> Option<FlowForm<'v>>
    ensures { option_map (λ form. flow_with form.path.now form.above form.held form.first form.last form.own) result
        ≡ row_seen members.now }
{
    let path = path_of(members.node)?;
    let above = amount_of(members.above)?;
    let held = amount_of(members.held)?;
    let first = amount_of(members.first)?;
    let last = amount_of(members.last)?;
    let own = amount_of(members.own)?;
    Some(FlowForm {
        path,
        above,
        held,
        first,
        last,
        own,
    })
}

fn path_of(member: Option<Scalar<'_>>) -> Option<&str>
    ensures { option_map (λ path. path.now) result ≡ path_seen member.entry }
{
    member?.as_str()
}

fn amount_of(member: Option<Scalar<'_>>) -> Option<u64>
    ensures { result ≡ amount_seen member.entry }
{
    member?.as_u64()
}
