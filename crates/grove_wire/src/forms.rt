//! The small forms that rows, accesses and steps are made of.
ghost use Rattle.std.specs.Prelude.{◌≡◌, map, option_map};
ghost use Rattle.serde_json.specs.View.{view};
ghost use Rattle.grove_wire.specs.Forms.{as_short, as_list, is_word};

use serde_json::Value;

/// An unsigned number of 32 bits.
#[tactic(auto, unfolding(crate::specs::Forms::as_short))]
pub(crate) fn short_number(value: &Value) -> Option<u32>
    ensures { result ≡ as_short (view value.now) }
{
    let number = value.as_u64()?;
    u32::try_from(number).ok()
}

/// Is the value just this text?
pub(crate) fn is_word(value: &Value, word: &str) -> bool
    ensures { result ≡ is_word word.now (view value.now) }
{
    match value.as_str() {
        Some(text) => text == word,
        None => false,
    }
}

/// The items of an array.
#[tactic(auto, using(crate::proofs::Items::items_are_views))]
pub(crate) fn list_items(value: &Value) -> Option<&[Value]>
    ensures { option_map (λ items. map view items.now) result ≡ as_list (view value.now) }
{
    let items = value.as_array()?;
    Some(items.as_slice())
}
