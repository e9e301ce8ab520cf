ghost use Rattle.std.specs.Prelude.{◌≡◌, ◌∷◌, [], Some, None, codes, is_some, if◌then◌else◌, option_map, option_and_then};
ghost use Rattle.serde_json.specs.View.{view};
ghost use Rattle.grove_wire.specs.Forms.{is_word, numbered_op, form_with, with_length, form_of, allowed};
ghost use Rattle.grove_wire.specs.Reading.{length_on, access_at};
ghost use Rattle.grove_wire.specs.FlatValues.{access_on, access_with, few_seen, form_seen, seen};

use crate::paths::node_on;
use crate::versions::Version;
use crate::{Few, Place, Scalar, WireFault};
use grove_access::{Access, LONGEST_ACCESS, Op};
use grove_tree::Tree;
use serde_json::Value;

/// The greatest length of an access, as documents tell numbers.
const LONGEST: u64 = LONGEST_ACCESS as u64;

/// An access that stands in a value.
#[tactic(auto, using(crate::proofs::FlatValues::access_of_few))]
pub(crate) fn access_at(
    tree: &Tree,
    version: Version,
    place: Place,
    value: &Value,
) -> Result<Access, WireFault>
    ensures { result ≡ access_at tree.now version place (view value.now) }
{
    access_on(tree, version, place, Few::of(value))
}

/// An access with its node and its length: first its form, then its path and last its length.
fn access_on(
    tree: &Tree,
    version: Version,
    place: Place,
    items: Few<'_>,
) -> Result<Access, WireFault>
    ensures { result ≡ access_on tree.now version place (few_seen items.entry) }
{
    match AccessForm::of(items) {
        Some(form) if form.is_allowed(version) => form.on(tree, place),
        _ => Err(WireFault::Shape(place)),
    }
}

/// The length told, or one slot where none is told, or `BadLength` at the place.
fn length_on(place: Place, told: Option<u64>) -> Result<u32, WireFault>
    ensures { result ≡ length_on place told }
{
    match told {
        None => Ok(1),
        Some(slots @ 1..=LONGEST) => Ok(slots as u32),
        Some(_) => Err(WireFault::BadLength(place)),
    }
}

/// What stands in an access.
#[derive(Clone, Copy, Drop)]
pub struct AccessForm<'v> {
    path: &'v str,
    op: Op,
    /// The length that it tells, if it tells one.
    length: Option<u64>,
}

impl<'v> AccessForm<'v> {
    /// What stands in the items of an access of either version.
    #[inline(always)]
    pub fn of(items: Few<'v>) -> Option<AccessForm<'v>>
        ensures { option_map form_seen result ≡ option_and_then form_of (few_seen items.entry) }
    {
        match items {
            Few::Two(word, path) => form_with(path, get_of(word), None),
            Few::Three(word, path, third) => third_form(word, path, third),
            Few::Four(word, path, number, length) => {
                with_length(path, numbered_op(word, number), length)
            }
            Few::Other => None,
        }
    }

    /// Does it tell a length? Then it is no access of the first version.
    pub fn tells_length(&self) -> bool
        ensures { result ≡ is_some self.now.length }
    {
        self.length.is_some()
    }

    fn is_allowed(&self, version: Version) -> bool
        ensures { (if result then Some (form_seen self.now) else None) ≡ allowed version (form_seen self.now) }
    {
        match version {
            Version::First => !self.tells_length(),
            Version::Second => true,
        }
    }

    /// The access, with its node and its length: first its path and last its length.
    pub fn on(self, tree: &Tree, place: Place) -> Result<Access, WireFault>
        ensures { result ≡ access_with tree.now place (form_seen self.entry) }
    {
        let node = node_on(tree, place, self.path)?;
        let length = length_on(place, self.length)?;
        Ok(Access {
            node,
            op: self.op,
            length,
        })
    }
}

/// What stands in an access of three items: after `get` the third is a length, else a number.
#[inline(always)]
fn third_form<'v>(word: Scalar<'_>, path: Scalar<'v>, third: Scalar<'_>) -> Option<AccessForm<'v>>
    ensures { option_map form_seen result
        ≡ form_of (seen word.entry ∷ seen path.entry ∷ seen third.entry ∷ []) }
{
    match get_of(word) {
        Some(op) => with_length(path, Some(op), third),
        None => form_with(path, numbered_op(word, third), None),
    }
}

fn with_length<'v>(path: Scalar<'v>, op: Option<Op>, length: Scalar<'_>) -> Option<AccessForm<'v>>
    ensures { option_map form_seen result
        ≡ with_length (seen path.entry) op (seen length.entry) }
{
    let slots = length.as_u64()?;
    form_with(path, op, Some(slots))
}

fn form_with(path: Scalar<'_>, op: Option<Op>, length: Option<u64>) -> Option<AccessForm<'_>>
    ensures { option_map form_seen result
        ≡ form_with (seen path.entry) op length }
{
    let path = path.as_str()?;
    let op = op?;
    Some(AccessForm { path, op, length })
}

/// The operation that a word names alone.
fn get_of(word: Scalar<'_>) -> Option<Op>
    ensures { result ≡ (if is_word (codes "get") (seen word.entry) then Some Op.Get else None) }
{
    match word.as_str()?.as_bytes() {
        b"get" => Some(Op::Get),
        _ => None,
    }
}

/// The operation that a word names with a number.
fn numbered_op(word: Scalar<'_>, number: Scalar<'_>) -> Option<Op>
    ensures { result ≡ numbered_op (seen word.entry) (seen number.entry) }
{
    let number = number.as_i64()?;
    op_of(word, number)
}

/// A word is told by its bytes, so that it isn't compared with one after the other.
fn op_of(word: Scalar<'_>, number: i64) -> Option<Op>
    ensures { result ≡ (if is_word (codes "set") (seen word.entry) then Some (Op.Set number)
        else if is_word (codes "add") (seen word.entry) then Some (Op.Add number)
        else if is_word (codes "take") (seen word.entry) then Some (Op.Take number) else None) }
{
    match word.as_str()?.as_bytes() {
        b"set" => Some(Op::Set(number)),
        b"add" => Some(Op::Add(number)),
        b"take" => Some(Op::Take(number)),
        _ => None,
    }
}
