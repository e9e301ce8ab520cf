ghost use Rattle.std.specs.Prelude.{◌≡◌, map, option_map};
ghost use Rattle.serde_json.specs.View.{view};
ghost use Rattle.grove_wire.specs.Forms.{as_signed, reply_form};
ghost use Rattle.grove_wire.specs.Outcomes.{Gives, of_form, few_on};
ghost use Rattle.grove_wire.specs.Places.{whole_of, item_of};
ghost use Rattle.grove_wire.specs.Histories.{replies_on, standing_at, said_standing, standing_in};

use crate::arrays::read_few;
use crate::document::{MOST_ITEMS, items_at};
use crate::forms::{is_word, list_items};
use crate::{Part, Place, WireFault};
use grove_access::Reply;
use serde_json::Value;
use std::alloc::Global;

/// What is said to stand after the last event of a history.
#[derive(Debug, Drop)]
pub struct Standing {
    /// The records, by the numbers of the nodes.
    pub records: Vec<i64>,
    /// The replies to each job, by its number.
    pub replies: Vec<Vec<Reply>>,
}

/// The document's `standing`, if it has one: its `records`, and then its `replies`. An array of more than 4,294,967,295
/// items is `Limit`.
#[tactic(auto, unfolding(crate::specs::Histories::standing_in))]
pub fn read_standing(alloc: Global, document: &Value) -> Result<Option<Standing>, WireFault>
    ensures { Gives (λ standing. option_map said_standing standing) result (standing_in (view document.now)) }
{
    match document.get("standing") {
        Some(value) => Ok(Some(standing_at(alloc, value)?)),
        None => Ok(None),
    }
}

#[tactic(auto, unfolding(crate::specs::Histories::standing_at))]
fn standing_at(alloc: Global, value: &Value) -> Result<Standing, WireFault>
    ensures { Gives said_standing result (standing_at (view value.now)) }
{
    if !value.is_object() {
        return Err(WireFault::Shape(Place::whole(Part::Standing)));
    }
    let numbers = items_at(Place::whole(Part::StandingRecords), "records", value)?;
    let records = records_of(alloc, numbers)?;
    let lists = items_at(Place::whole(Part::StandingReplies), "replies", value)?;
    let replies = replies_of(alloc, lists)?;
    Ok(Standing { records, replies })
}

/// The values as the records that are said.
fn records_of(alloc: Global, items: &[Value]) -> Result<Vec<i64>, WireFault>
    ensures { Gives (λ records. records.items) result
        (few_on 4294967295 (of_form as_signed) (whole_of Part.StandingRecords) (map view items.now)) }
{
    let place = Place::whole(Part::StandingRecords);
    read_few(alloc, MOST_ITEMS, place, items, record_at)
}

fn record_at(at: u32, value: &Value) -> Result<i64, WireFault>
    ensures { result ≡ of_form as_signed (item_of Part.StandingRecords at) (view value.now) }
{
    let place = Place::item(Part::StandingRecords, at);
    value.as_i64().ok_or(WireFault::Shape(place))
}

/// The values as the replies to each job.
fn replies_of(alloc: Global, items: &[Value]) -> Result<Vec<Vec<Reply>>, WireFault>
    ensures { Gives (λ all. map (λ replies. replies.items) all.items) result
        (few_on 4294967295 replies_on (whole_of Part.StandingReplies) (map view items.now)) }
{
    let place = Place::whole(Part::StandingReplies);
    read_few(alloc, MOST_ITEMS, place, items, |at, item| {
        replies_on(alloc, place.within(at), item)
    })
}

/// A value as the replies to one job, which stand at the place.
#[tactic(auto, unfolding(crate::specs::Histories::replies_on))]
fn replies_on(alloc: Global, place: Place, value: &Value) -> Result<Vec<Reply>, WireFault>
    ensures { Gives (λ replies. replies.items) result (replies_on place (view value.now)) }
{
    let Some(items) = list_items(value) else {
        return Err(WireFault::Shape(place));
    };
    read_replies(alloc, place, items)
}

/// The values as the replies to one job.
fn read_replies(alloc: Global, place: Place, items: &[Value]) -> Result<Vec<Reply>, WireFault>
    ensures { Gives (λ replies. replies.items) result
        (few_on 4294967295 (of_form reply_form) place (map view items.now)) }
{
    read_few(alloc, MOST_ITEMS, place, items, |at, item| {
        reply_at(place.within(at), item)
    })
}

fn reply_at(place: Place, value: &Value) -> Result<Reply, WireFault>
    ensures { result ≡ of_form reply_form place (view value.now) }
{
    reply_form(value).ok_or(WireFault::Shape(place))
}

/// What stands in a value that is a reply.
fn reply_form(value: &Value) -> Option<Reply>
    ensures { result ≡ reply_form (view value.now) }
{
    if is_word(value, "ok") {
        Some(Reply::Done)
    } else if is_word(value, "range") {
        Some(Reply::Range)
    } else if is_word(value, "short") {
        Some(Reply::Short)
    } else {
        Some(Reply::Value(value.as_i64()?))
    }
}
