ghost use Rattle.std.specs.Prelude.{◌≡◌, ◌≤◌, Some, None, codes, if◌then◌else◌, map, IfOk, length};
ghost use Rattle.serde_json.specs.View.{view};
ghost use Rattle.grove_wire.specs.Forms.{is_word, event_form};
ghost use Rattle.grove_wire.specs.Outcomes.{Gives, of_form, few_on};
ghost use Rattle.grove_wire.specs.Places.{whole_of, item_of};
ghost use Rattle.grove_wire.specs.Histories.{events_in};

use crate::arrays::read_few;
use crate::document::items_in;
use crate::forms::{is_word, list_items, short_number};
use crate::{Part, Place, WireFault};
use grove_core::Event;
use serde_json::Value;
use std::alloc::Global;

/// No document has more events.
pub const MOST_EVENTS: usize = 1_048_576;

/// The document's `events`. More than 1,048,576 are `Limit`; then they are read in order.
#[tactic(auto, unfolding(crate::specs::Histories::events_in))]
pub fn read_events(alloc: Global, document: &Value) -> Result<Vec<Event>, WireFault>
    ensures read { Gives (λ events. events.items) result (events_in (view document.now)) }
    ensures few { IfOk result (λ events. length events.items ≤ 1048576) }
{
    let items = items_in(document, Part::Events)?;
    events_of(alloc, items)
}

/// The values as events.
fn events_of(alloc: Global, items: &[Value]) -> Result<Vec<Event>, WireFault>
    ensures read { Gives (λ events. events.items) result
        (few_on 1048576 (of_form event_form) (whole_of Part.Events) (map view items.now)) }
    ensures few { IfOk result (λ events. length events.items ≤ 1048576) }
{
    read_few(
        alloc,
        MOST_EVENTS,
        Place::whole(Part::Events),
        items,
        event_at,
    )
}

fn event_at(at: u32, value: &Value) -> Result<Event, WireFault>
    ensures { result ≡ of_form event_form (item_of Part.Events at) (view value.now) }
{
    event_form(value).ok_or(WireFault::Shape(Place::item(Part::Events, at)))
}

/// What stands in a value that is an event.
#[tactic(auto, unfolding(crate::specs::Forms::event_form))]
fn event_form(value: &Value) -> Option<Event>
    ensures { result ≡ event_form (view value.now) }
{
    match list_items(value)? {
        [word, job] => event_named(word, short_number(job)?),
        _ => None,
    }
}

/// What a word says of the job.
fn event_named(word: &Value, job: u32) -> Option<Event>
    ensures { result ≡ (if is_word (codes "take") (view word.now) then Some (Event.Take job)
        else if is_word (codes "mark") (view word.now) then Some (Event.Mark job) else None) }
{
    if is_word(word, "take") {
        Some(Event::Take(job))
    } else if is_word(word, "mark") {
        Some(Event::Mark(job))
    } else {
        None
    }
}
