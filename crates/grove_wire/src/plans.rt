ghost use Rattle.std.specs.Prelude.{◌≡◌, ◌<◌, ◌^◌, map, IfOk, length, vec_len};
ghost use Rattle.serde_json.specs.View.{view};
ghost use Rattle.grove_wire.specs.Outcomes.{Gives, each_on, few_on};
ghost use Rattle.grove_wire.specs.Reading.{path_at, step_of, step_at, plan_in};
ghost use Rattle.grove_wire.specs.FlatValues.{few_seen, seen, step_on};

use crate::document::{MOST_ITEMS, items_in};
use crate::finder::Finder;
use crate::{Few, Part, Place, Scalar, WireFault};
use grove_plan::{Plan, Step};
use grove_tree::{Node, Tree};
use serde_json::Value;
use std::alloc::Global;

/// The steps of the document's `plan`, over the tree. More than 4,294,967,295 are `Limit`; then they are read in order,
/// each first for its `Shape` and then for its `NoPath`.
#[tactic(auto, unfolding(crate::specs::Reading::plan_in))]
pub fn read_plan(alloc: Global, tree: &Tree, document: &Value) -> Result<Plan, WireFault>
    ensures { Gives (λ plan. plan) result (plan_in tree.now (view document.now)) }
{
    let items = items_in(document, Part::Plan)?;
    plan_of(alloc, tree, Place::whole(Part::Plan), items)
}

/// The values as a plan that stands at the place.
pub(crate) fn plan_of(
    alloc: Global,
    tree: &Tree,
    place: Place,
    items: &[Value],
) -> Result<Plan, WireFault>
    ensures { Gives (λ plan. plan) result (few_on 4294967295 (step_at tree.now) place (map view items.now)) }
{
    let mut finder = Finder::new(alloc, tree, items.len())?;
    plan_found(alloc, &mut finder, place, items)
}

/// The same, by what is known of its paths.
pub(crate) fn plan_found<'v>(
    alloc: Global,
    finder: &mut Finder<'_, 'v>,
    place: Place,
    items: &'v [Value],
) -> Result<Plan, WireFault>
    ensures read { Gives (λ plan. plan) result (few_on 4294967295 (step_at finder.old) place (map view items.now)) }
    ensures tree { finder.new ≡ finder.old }
{
    if items.len() > MOST_ITEMS {
        return Err(WireFault::Limit(place));
    }
    let steps = read_steps(alloc, finder, place, items)?;
    Ok(Plan::new(steps))
}

/// The steps of a plan, of which there are few enough.
fn read_steps<'v>(
    alloc: Global,
    finder: &mut Finder<'_, 'v>,
    place: Place,
    items: &'v [Value],
) -> Result<Vec<Step>, WireFault>
    requires { length items.now < 2 ^ 32 }
    ensures read { Gives (λ steps. steps.items) result (each_on (step_at finder.old) place (map view items.now)) }
    ensures few { IfOk result (λ steps. vec_len steps < 2 ^ 32) }
    ensures tree { finder.new ≡ finder.old }
{
    let mut steps = Vec::new(alloc);
    for (at, item) in items.iter().enumerate() {
        let step = step_at(finder, place.within(at as u32), item)?;
        steps.push(step)?;
    }
    Ok(steps)
}

#[tactic(auto, using(crate::proofs::FlatValues::step_of_few))]
fn step_at<'v>(
    finder: &mut Finder<'_, 'v>,
    place: Place,
    value: &'v Value,
) -> Result<Step, WireFault>
    ensures read { result ≡ step_at finder.old place (view value.now) }
    ensures tree { finder.new ≡ finder.old }
{
    step_on(finder, place, Few::of(value))
}

/// A step: first its form, and then its path.
pub fn step_on<'v>(
    finder: &mut Finder<'_, 'v>,
    place: Place,
    items: Few<'v>,
) -> Result<Step, WireFault>
    ensures read { result ≡ step_on finder.old place (few_seen items.entry) }
    ensures tree { finder.new ≡ finder.old }
{
    match items {
        Few::Two(word, operand) => step_of(finder, place, word, operand),
        Few::Three(_, _, _) | Few::Four(_, _, _, _) | Few::Other => Err(WireFault::Shape(place)),
    }
}

#[tactic(auto, unfolding(crate::specs::Reading::step_of))]
fn step_of<'v>(
    finder: &mut Finder<'_, 'v>,
    place: Place,
    word: Scalar<'_>,
    operand: Scalar<'v>,
) -> Result<Step, WireFault>
    ensures read { result ≡ step_of finder.old place (seen word.entry) (seen operand.entry) }
    ensures tree { finder.new ≡ finder.old }
{
    if word.is("lock") {
        Ok(Step::Lock(path_at(finder, place, operand)?))
    } else if word.is("unlock") {
        Ok(Step::Unlock(path_at(finder, place, operand)?))
    } else if word.is("access") {
        let access = operand.as_short().ok_or(WireFault::Shape(place))?;
        Ok(Step::Access(access))
    } else {
        Err(WireFault::Shape(place))
    }
}

fn path_at<'v>(
    finder: &mut Finder<'_, 'v>,
    place: Place,
    operand: Scalar<'v>,
) -> Result<Node, WireFault>
    ensures read { result ≡ path_at finder.old place (seen operand.entry) }
    ensures tree { finder.new ≡ finder.old }
{
    match operand.as_str() {
        Some(path) => finder.node_on(place, path),
        None => Err(WireFault::Shape(place)),
    }
}
