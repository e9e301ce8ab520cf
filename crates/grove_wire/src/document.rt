ghost use Rattle.std.specs.Prelude.{◌≡◌, map, option_map};
ghost use Rattle.serde_json.specs.View.{view};
ghost use Rattle.grove_wire.specs.Forms.{items_of};
ghost use Rattle.grove_wire.specs.Outcomes.{Gives, or_fault};
ghost use Rattle.grove_wire.specs.Reading.{document_of, document_within, history_of, value_of, items_at, items_in};

use crate::versions::version_of;
use crate::{Part, Place, WireFault};
use serde_json::Value;
use std::alloc::Global;

/// The greatest number of bytes of a document.
pub const MOST_BYTES: usize = 4_194_304;

/// The greatest number of bytes of a document with a history.
pub const MOST_HISTORY_BYTES: usize = 67_108_864;

/// No part has more items, so that 32 bits number them.
pub const MOST_ITEMS: usize = 4_294_967_295;

/// The JSON object that a text of at most 4,194,304 bytes is. More bytes are `Limit`, what isn't UTF-8 or isn't JSON is
/// `BadJson`, and what is no object, or tells another version than 1 or 2, is `Shape`, of the whole.
#[tactic(auto, unfolding(crate::specs::Reading::document_of))]
pub fn read_document(alloc: Global, bytes: &[u8]) -> Result<Value, WireFault>
    ensures { Gives (λ document. view document) result (document_of bytes.now) }
{
    read_within(alloc, MOST_BYTES, bytes)
}

/// The same of a text of at most 67,108,864 bytes, as a document with a history may be.
#[tactic(auto, unfolding(crate::specs::Reading::history_of))]
pub fn read_history(alloc: Global, bytes: &[u8]) -> Result<Value, WireFault>
    ensures { Gives (λ document. view document) result (history_of bytes.now) }
{
    read_within(alloc, MOST_HISTORY_BYTES, bytes)
}

/// The document that a text of at most so many bytes is.
fn read_within(alloc: Global, most: usize, bytes: &[u8]) -> Result<Value, WireFault>
    ensures { Gives (λ document. view document) result (document_within most bytes.now) }
{
    if bytes.len() > most {
        return Err(WireFault::Limit(Place::whole(Part::Whole)));
    }
    let document = read_value(alloc, bytes)?;
    if !document.is_object() {
        return Err(WireFault::Shape(Place::whole(Part::Whole)));
    }
    let _version = version_of(&document)?;
    Ok(document)
}

#[tactic(auto, using(crate::proofs::Documents::value_read, crate::proofs::Documents::value_refused))]
fn read_value(alloc: Global, bytes: &[u8]) -> Result<Value, WireFault>
    ensures { Gives (λ value. view value) result (or_fault WireFault.BadJson (value_of bytes.now)) }
{
    match Value::from_slice(alloc, bytes) {
        Ok(value) => Ok(value),
        Err(error) if error.is_memory() => Err(WireFault::Memory),
        Err(_) => Err(WireFault::BadJson),
    }
}

/// The items of the member of this name, where it is an array.
#[tactic(auto, using(crate::proofs::Items::items_are_views), unfolding(crate::specs::Forms::items_of))]
fn items_of<'v>(document: &'v Value, name: &str) -> Option<&'v [Value]>
    ensures { option_map (λ items. map view items.now) result ≡ items_of name.now (view document.now) }
{
    let member = document.get(name)?;
    let items = member.as_array()?;
    Some(items.as_slice())
}

/// The items of a part of the document.
#[tactic(auto, unfolding(crate::specs::Reading::items_in))]
pub(crate) fn items_in(document: &Value, part: Part) -> Result<&[Value], WireFault>
    ensures { Gives (λ items. map view items.now) result (items_in part (view document.now)) }
{
    match items_of(document, part.word()) {
        Some(items) => Ok(items),
        None => Err(WireFault::Shape(Place::whole(part))),
    }
}

/// The items of the member of this name, which stands at the place.
pub(crate) fn items_at<'v>(
    place: Place,
    name: &str,
    object: &'v Value,
) -> Result<&'v [Value], WireFault>
    ensures { Gives (λ items. map view items.now) result (items_at place name.now (view object.now)) }
{
    match items_of(object, name) {
        Some(items) => Ok(items),
        None => Err(WireFault::Shape(place)),
    }
}
