//! Values of which numbers and texts alone are looked at, and arrays of few of them.
ghost use Rattle.std.specs.Prelude.{◌≡◌, option_map, option_and_then};
ghost use Rattle.serde_json.specs.Find.{as_i64, as_number, as_str, as_u64};
ghost use Rattle.serde_json.specs.View.{view};
ghost use Rattle.grove_wire.specs.Forms.{as_short, is_word};
ghost use Rattle.grove_wire.specs.FlatValues.{seen, flat, few_of, few_seen};

use crate::forms::list_items;
use serde_json::{Number, Value};

/// A number or a text, or any other value.
#[derive(Clone, Copy, Drop)]
pub enum Scalar<'v> {
    Number(Number),
    Text(&'v str),
    Other,
}

impl<'v> Scalar<'v> {
    /// What is looked at of a value.
    pub fn of(value: &'v Value) -> Scalar<'v>
        ensures { seen result ≡ flat (view value.now) }
    {
        match value {
            Value::Number(number) => Scalar::Number(*number),
            Value::String(text) => Scalar::Text(text.as_str()),
            Value::Null | Value::Bool(_) | Value::Array(_) | Value::Object(_) => Scalar::Other,
        }
    }

    pub fn as_str(self) -> Option<&'v str>
        ensures { option_map (λ text. text.now) result ≡ as_str (seen self.entry) }
    {
        match self {
            Scalar::Text(text) => Some(text),
            Scalar::Number(_) | Scalar::Other => None,
        }
    }

    pub fn as_i64(self) -> Option<i64>
        ensures { result ≡ option_and_then as_i64 (as_number (seen self.entry)) }
    {
        match self {
            Scalar::Number(number) => number.as_i64(),
            Scalar::Text(_) | Scalar::Other => None,
        }
    }

    pub fn as_u64(self) -> Option<u64>
        ensures { result ≡ option_and_then as_u64 (as_number (seen self.entry)) }
    {
        match self {
            Scalar::Number(number) => number.as_u64(),
            Scalar::Text(_) | Scalar::Other => None,
        }
    }

    /// An unsigned number of 32 bits.
    #[tactic(auto, unfolding(crate::specs::Forms::as_short))]
    pub fn as_short(self) -> Option<u32>
        ensures { result ≡ as_short (seen self.entry) }
    {
        let number = self.as_u64()?;
        u32::try_from(number).ok()
    }

    /// Is it just this text?
    #[inline(always)]
    pub fn is(self, word: &str) -> bool
        ensures { result ≡ is_word word.now (seen self.entry) }
    {
        match self {
            Scalar::Text(text) => text == word,
            Scalar::Number(_) | Scalar::Other => false,
        }
    }
}

/// The items of an array of two to four, or any other value.
#[derive(Clone, Copy, Drop)]
pub enum Few<'v> {
    Two(Scalar<'v>, Scalar<'v>),
    Three(Scalar<'v>, Scalar<'v>, Scalar<'v>),
    Four(Scalar<'v>, Scalar<'v>, Scalar<'v>, Scalar<'v>),
    Other,
}

impl<'v> Few<'v> {
    /// What is looked at of a value.
    pub fn of(value: &'v Value) -> Few<'v>
        ensures { few_seen result ≡ few_of (view value.now) }
    {
        let Some(items) = list_items(value) else {
            return Few::Other;
        };
        match items {
            [a, b] => Few::Two(Scalar::of(a), Scalar::of(b)),
            [a, b, c] => Few::Three(Scalar::of(a), Scalar::of(b), Scalar::of(c)),
            [a, b, c, d] => {
                Few::Four(Scalar::of(a), Scalar::of(b), Scalar::of(c), Scalar::of(d))
            }
            _ => Few::Other,
        }
    }
}
