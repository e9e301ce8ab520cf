//! Numbers and texts that come next, by themselves or as the few items of an array.
ghost use Rattle.std.specs.Prelude.{◌≡◌, ◌<◌, ◌∷◌, List, length, None, Err, IfOk, IfSome};
ghost use Rattle.json.specs.Reads.{token_of};
ghost use Rattle.json.specs.Token.{Token as SpecToken};
ghost use Rattle.serde_json.specs.Data.{Data};
ghost use Rattle.grove_wire.specs.FlatValues.{seen, flat, few_seen, few_of, flat_few};
ghost use Rattle.grove_line.specs.TokenValues.{value_at, items_at, AreItems, ItemsSoFar, Starts, IsNext};

use crate::unread::Unread;
use crate::values::{Opened, next_token, open, opened_by, pass_opened};
use grove_wire::{Few, Scalar};
use json::{Reader, Token};

/// The number, the text or the other value that comes next.
#[inline(always)]
#[tactic(auto, using(crate::proofs::TokenValues::nothing_left))]
pub(crate) fn scalar<'a>(reader: &mut Reader<'a>, depth: usize) -> Result<Scalar<'a>, Unread>
    ensures read { IfOk result (λ s. Starts depth reader.old reader.new (λ d. seen s ≡ flat d)) }
    ensures unread { result ≡ Err Unread.BadJson → value_at depth reader.old ≡ None }
{
    let token = next_token(reader)?;
    scalar_on(token, reader, depth)
}

/// The same of a value whose first token is this one.
#[inline(always)]
fn scalar_on<'a>(
    token: Token<'a>,
    reader: &mut Reader<'a>,
    depth: usize,
) -> Result<Scalar<'a>, Unread>
    ensures read { IfOk result
        (λ s. Starts depth (token_of token.entry ∷ reader.old) reader.new (λ d. seen s ≡ flat d)) }
    ensures unread { result ≡ Err Unread.BadJson → value_at depth (token_of token.entry ∷ reader.old) ≡ None }
{
    let opened = opened_by(token, depth)?;
    if let Opened::Scalar(scalar) = opened {
        return Ok(scalar);
    }
    pass_opened(reader, opened)?;
    Ok(Scalar::Other)
}

/// The item of an array that comes next, or none at its end.
#[inline(always)]
fn next_scalar<'a>(reader: &mut Reader<'a>, depth: usize) -> Result<Option<Scalar<'a>>, Unread>
    ensures read { IfOk result (λ next. (start : List SpecToken) (front : List Data)
        → ItemsSoFar depth start reader.old front → IsNext next depth start reader.new front) }
    ensures shorter { IfOk result (λ next. IfSome next (λ _. length reader.new < length reader.old)) }
    ensures unread { result ≡ Err Unread.BadJson → (start : List SpecToken) (front : List Data)
        → ItemsSoFar depth start reader.old front → items_at depth (length start) start ≡ None }
{
    let token = next_token(reader)?;
    if let Token::EndArray = token {
        return Ok(None);
    }
    let item = scalar_on(token, reader, depth)?;
    Ok(Some(item))
}

/// The items of an array of two to four that comes next, or any other value.
#[inline(always)]
pub(crate) fn few<'a>(reader: &mut Reader<'a>, depth: usize) -> Result<Few<'a>, Unread>
    ensures read { IfOk result (λ few. Starts depth reader.old reader.new (λ d. few_seen few ≡ few_of d)) }
    ensures unread { result ≡ Err Unread.BadJson → value_at depth reader.old ≡ None }
{
    let opened = open(reader, depth)?;
    if let Opened::Array(inside) = opened {
        return few_items(reader, inside);
    }
    pass_opened(reader, opened)?;
    Ok(Few::Other)
}

/// The items of an array and its end, if they are two to four.
#[inline(always)]
fn few_items<'a>(reader: &mut Reader<'a>, depth: usize) -> Result<Few<'a>, Unread>
    ensures read { IfOk result (λ few. (ds : List Data) × AreItems depth reader.old reader.new ds
        × (few_seen few ≡ flat_few ds)) }
    ensures unread { result ≡ Err Unread.BadJson → items_at depth (length reader.old) reader.old ≡ None }
{
    let Some(first) = next_scalar(reader, depth)? else {
        return Ok(Few::Other);
    };
    let Some(second) = next_scalar(reader, depth)? else {
        return Ok(Few::Other);
    };
    let Some(third) = next_scalar(reader, depth)? else {
        return Ok(Few::Two(first, second));
    };
    let Some(fourth) = next_scalar(reader, depth)? else {
        return Ok(Few::Three(first, second, third));
    };
    let Some(_) = next_scalar(reader, depth)? else {
        return Ok(Few::Four(first, second, third, fourth));
    };
    while let Some(_) = next_scalar(reader, depth)? {}
    Ok(Few::Other)
}
