//! The one member of the object that a line is.
ghost use Rattle.std.specs.Prelude.{◌≡◌, List, None, Err, codes, length, IfOk, IfSome, OnOk};
ghost use Rattle.serde_json.specs.Data.{Data, Members, no_members, member, object, put};
ghost use Rattle.grove_tree.specs.Trees.{Rows};
ghost use Rattle.grove_wire.specs.Requests.{named_of};
ghost use Rattle.grove_line.specs.CheckReading.{asked};
ghost use Rattle.grove_line.specs.OnlyMember.{asks, text_of, IsOnly, IsShapeless, IsUnknown};
ghost use Rattle.grove_line.specs.TokenValues.{value_at, members_at, AreMembers, Starts};

use crate::check::read_check;
use crate::items::items;
use crate::list_read::read_list;
use crate::members::{FromMembers, read_object};
use crate::parts::ListItem;
use crate::unread::Unread;
use crate::values::pass;
use grove_wire::{Finder, MOST_LISTS, Part, Place, Request, Version, WireFault};
use json::Reader;
use std::alloc::Global;

/// What a line may ask for, by the name of its member.
#[derive(Clone, Copy)]
pub(crate) enum Name {
    Plan,
    Check,
    Batch,
    Weights,
    Reweigh,
}

impl Name {
    fn of(text: &str) -> Option<Name>
        ensures known { IfSome result (λ name. text.now ≡ text_of name) }
        ensures unknown { result ≡ None → IsUnknown text.now }
    {
        match text {
            "plan" => Some(Name::Plan),
            "check" => Some(Name::Check),
            "batch" => Some(Name::Batch),
            "weights" => Some(Name::Weights),
            "reweigh" => Some(Name::Reweigh),
            _ => None,
        }
    }

    fn text(self) -> &'static str
        ensures { result.now ≡ text_of self }
    {
        match self {
            Name::Plan => "plan",
            Name::Check => "check",
            Name::Batch => "batch",
            Name::Weights => "weights",
            Name::Reweigh => "reweigh",
        }
    }

    /// Reads the member that comes next, which has the name.
    fn read<'a>(
        self,
        alloc: Global,
        finder: &mut Finder<'_, 'a>,
        reader: &mut Reader<'a>,
        depth: usize,
    ) -> Result<Result<Request, WireFault>, Unread>
        ensures read { IfOk result (λ outcome. Starts depth reader.old reader.new
            (λ d. asked outcome ≡ named_of finder.old (text_of self) d)) }
        ensures unread { result ≡ Err Unread.BadJson → value_at depth reader.old ≡ None }
        ensures tree { finder.new ≡ finder.old }
    {
        match self {
            Name::Plan => {
                let read = read_list(
                    alloc,
                    finder.tree(),
                    reader,
                    depth,
                    Place::whole(Part::List),
                )?;
                match read.in_version(Version::Second) {
                    Ok(list) => Ok(Ok(Request::Plan(list))),
                    Err(fault) => Ok(Err(fault)),
                }
            }
            Name::Check => read_check(alloc, finder, reader, depth),
            Name::Batch => {
                let place = Place::whole(Part::Lists);
                match items::<ListItem>(alloc, finder, reader, depth, place, MOST_LISTS)? {
                    Ok(lists) => Ok(Ok(Request::Batch(lists))),
                    Err(fault) => Ok(Err(fault)),
                }
            }
            Name::Weights => {
                pass(reader, depth)?;
                Ok(Ok(Request::Weights))
            }
            Name::Reweigh => {
                pass(reader, depth)?;
                Ok(Ok(Request::Reweigh))
            }
        }
    }
}

/// What is read of an object's members so far.
#[derive(Drop)]
enum Only {
    /// There is none.
    Nothing,
    /// One of this name, and what it asks for as it was told last.
    One(Name, Result<Request, WireFault>),
    /// One that asks for nothing, or several.
    Other,
}

impl Only {
    /// The name of the member that comes next, if it asks for something and is the only one.
    fn wanted(&self, text: &str) -> Option<Name>
        ensures wanted { IfSome result (λ name. (tree : Rows) (ms : Members) (d : Data) → IsOnly tree self.now ms
            → put text.now d ms ≡ member (text_of name) d no_members) }
        ensures other { result ≡ None → (tree : Rows) (ms : Members) (d : Data) → IsOnly tree self.now ms
            → IsShapeless (put text.now d ms) }
    {
        match self {
            Only::Nothing => Name::of(text),
            Only::One(name, _) => {
                if text == name.text() {
                    Some(*name)
                } else {
                    None
                }
            }
            Only::Other => None,
        }
    }

    /// What the object asks for.
    fn into_request(self) -> Result<Request, WireFault>
        ensures { (tree : Rows) (ms : Members) → IsOnly tree self ms → asked result ≡ asks tree (object ms) }
    {
        match self {
            Only::One(_, outcome) => outcome,
            Only::Nothing | Only::Other => Err(WireFault::Shape(Place::whole(Part::Whole))),
        }
    }
}

impl<'a> FromMembers<'a> for Only {
    ghost use Rattle.grove_line.specs.OnlyMember.{IsOnly};

    ghost is_read = { λ tree only ms. IsOnly tree only ms };

    fn new() -> Only {
        Only::Nothing
    }

    fn read_member(
        &mut self,
        alloc: Global,
        finder: &mut Finder<'_, 'a>,
        reader: &mut Reader<'a>,
        depth: usize,
        text: &str,
    ) -> Result<(), Unread> {
        match self.wanted(text) {
            Some(name) => *self = Only::One(name, name.read(alloc, finder, reader, depth)?),
            None => {
                pass(reader, depth)?;
                *self = Only::Other;
            }
        }
        Ok(())
    }
}

/// Reads what the object that comes next asks for.
pub(crate) fn read_only<'a>(
    alloc: Global,
    finder: &mut Finder<'_, 'a>,
    reader: &mut Reader<'a>,
    depth: usize,
) -> Result<Result<Request, WireFault>, Unread>
    ensures read { IfOk result (λ outcome. Starts depth reader.old reader.new
        (λ d. asked outcome ≡ asks finder.old d)) }
    ensures unread { result ≡ Err Unread.BadJson → value_at depth reader.old ≡ None }
    ensures tree { finder.new ≡ finder.old }
{
    match read_object::<Only>(alloc, finder, reader, depth)? {
        Some(only) => Ok(only.into_request()),
        None => Ok(Err(WireFault::Shape(Place::whole(Part::Whole)))),
    }
}
