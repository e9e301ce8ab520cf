//! Values that a text begins with, token by token.
ghost use Rattle.std.specs.Prelude.{◌≡◌, [], ◌∷◌, ℕ, List, length, None, Some, Err, IfOk, OnOk};
ghost use Rattle.json.specs.Reads.{token_of};
ghost use Rattle.json.specs.Token.{Token as SpecToken};
ghost use Rattle.serde_json.specs.Data.{Num, number, Items, Members, no_members};
ghost use Rattle.serde_json.specs.Read.{number_of};
ghost use Rattle.grove_wire.specs.FlatValues.{seen};
ghost use Rattle.grove_line.specs.TokenValues.{value_at, items_at, members_at, Starts, Opens, IsOpenedBy};

use crate::unread::Unread;
use grove_wire::{Scalar, number_of};
use json::{Reader, Token};

/// What a value begins with.
#[derive(Clone, Copy, Drop)]
pub(crate) enum Opened<'a> {
    /// An array, whose items and end come next, and how deep these may nest.
    Array(usize),
    /// An object, whose members and end come next, and how deep these may nest.
    Object(usize),
    /// A value that is none of them, and is over.
    Scalar(Scalar<'a>),
}

/// Opens the value that comes next, where arrays and objects may nest so deep.
#[inline(always)]
#[tactic(auto, using(crate::proofs::TokenValues::nothing_left))]
pub(crate) fn open<'a>(reader: &mut Reader<'a>, depth: usize) -> Result<Opened<'a>, Unread>
    ensures opened { IfOk result (λ opened. Opens opened depth reader.old reader.new) }
    ensures unread { result ≡ Err Unread.BadJson → value_at depth reader.old ≡ None }
{
    let token = next_token(reader)?;
    opened_by(token, depth)
}

/// The token that comes next.
#[inline(always)]
pub(crate) fn next_token<'a>(reader: &mut Reader<'a>) -> Result<Token<'a>, Unread>
    ensures token { IfOk result (λ token. reader.old ≡ token_of token ∷ reader.new) }
    ensures over { result ≡ Err Unread.BadJson → reader.old ≡ [] }
{
    reader.next().ok_or(Unread::BadJson)
}

/// What a value begins with whose first token this is.
#[inline(always)]
pub(crate) fn opened_by(token: Token<'_>, depth: usize) -> Result<Opened<'_>, Unread>
    ensures opened { IfOk result (λ opened. (ts : List SpecToken) → Opens opened depth (token_of token.entry ∷ ts) ts) }
    ensures unread { result ≡ Err Unread.BadJson → (ts : List SpecToken)
        → value_at depth (token_of token.entry ∷ ts) ≡ None }
{
    match token {
        Token::Null | Token::Bool(_) => Ok(Opened::Scalar(Scalar::Other)),
        Token::Number(text) => Ok(Opened::Scalar(number(text)?)),
        Token::String(text) => Ok(Opened::Scalar(Scalar::Text(text))),
        Token::BeginArray => {
            if depth == 0 {
                return Err(Unread::BadJson);
            }
            Ok(Opened::Array(depth - 1))
        }
        Token::BeginObject => {
            if depth == 0 {
                return Err(Unread::BadJson);
            }
            Ok(Opened::Object(depth - 1))
        }
        Token::EndArray | Token::EndObject | Token::Key(_) | Token::Bad => Err(Unread::BadJson),
    }
}

#[inline(always)]
fn number(text: &str) -> Result<Scalar<'_>, Unread>
    ensures number { IfOk result (λ s. (n : Num) × (number_of text.now ≡ Some n) × (seen s ≡ number n)) }
    ensures unread { result ≡ Err Unread.BadJson → number_of text.now ≡ None }
{
    let number = number_of(text).ok_or(Unread::BadJson)?;
    Ok(Scalar::Number(number))
}

/// Passes over the value that comes next.
#[cycle(pass)]
pub(crate) fn pass(reader: &mut Reader<'_>, depth: usize) -> Result<(), Unread>
    ensures passed { OnOk result (Starts depth reader.old reader.new (λ _. Unit {0})) }
    ensures unread { result ≡ Err Unread.BadJson → value_at depth reader.old ≡ None }
{
    let opened = open(reader, depth)?;
    pass_opened(reader, opened)
}

/// Passes over the items of an array and its end.
#[cycle(pass)]
fn pass_items(reader: &mut Reader<'_>, depth: usize) -> Result<(), Unread>
    ensures passed { OnOk result ((ds : Items)
        × (items_at depth (length reader.old) reader.old ≡ Some (ds, reader.new))) }
    ensures unread { result ≡ Err Unread.BadJson → items_at depth (length reader.old) reader.old ≡ None }
{
    while !reader.take_end_array() {
        pass(reader, depth)?;
    }
    Ok(())
}

/// Passes over the members of an object and its end.
#[cycle(pass)]
fn pass_members(reader: &mut Reader<'_>, depth: usize) -> Result<(), Unread>
    ensures passed { OnOk result ((ms : Members)
        × (members_at depth (length reader.old) no_members reader.old ≡ Some (ms, reader.new))) }
    ensures unread { result ≡ Err Unread.BadJson
        → members_at depth (length reader.old) no_members reader.old ≡ None }
{
    while let Some(_) = reader.next_key()? {
        pass(reader, depth)?;
    }
    Ok(())
}

/// Passes over what is left of a value that was opened.
#[cycle(pass)]
pub(crate) fn pass_opened(reader: &mut Reader<'_>, opened: Opened<'_>) -> Result<(), Unread>
    ensures passed { OnOk result ((depth : ℕ) (start : List SpecToken) → Opens opened.entry depth start reader.old
        → Starts depth start reader.new (IsOpenedBy opened.entry)) }
    ensures unread { result ≡ Err Unread.BadJson → (depth : ℕ) (start : List SpecToken)
        → Opens opened.entry depth start reader.old → value_at depth start ≡ None }
{
    match opened {
        Opened::Array(inside) => pass_items(reader, inside),
        Opened::Object(inside) => pass_members(reader, inside),
        Opened::Scalar(_) => Ok(()),
    }
}
