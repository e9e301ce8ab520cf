//! The members of an object, each read by its name.
ghost use Rattle.std.specs.Prelude.{◌≡◌, length, None, Err, IfOk};
ghost use Rattle.serde_json.specs.Data.{Members, no_members};
ghost use Rattle.grove_line.specs.ObjectMembers.{IsReadFrom};
ghost use Rattle.grove_line.specs.TokenValues.{value_at, members_at, AreMembers, Starts};

use crate::unread::Unread;
use crate::values::{Opened, open, pass_opened};
use grove_wire::Finder;
use json::Reader;
use std::alloc::Global;

/// What is read of the members of an object.
pub(crate) trait FromMembers<'a>: Drop {
    ghost use Rattle.std.specs.Prelude.{OnOk};
    ghost use Rattle.serde_json.specs.Data.{Data, put};
    ghost use Rattle.grove_tree.specs.Trees.{Rows};

    ghost is_read: { Rows → Self → Members → Type 0 };

    /// What is read of none.
    fn new() -> Self
        ensures { (tree : Rows) → is_read tree result no_members };

    /// Reads the member that comes next, which has the name.
    fn read_member(
        &mut self,
        alloc: Global,
        finder: &mut Finder<'_, 'a>,
        reader: &mut Reader<'a>,
        depth: usize,
        name: &str,
    ) -> Result<(), Unread>
        ensures read { OnOk result (Starts depth reader.old reader.new (λ d. (ms : Members)
            → is_read finder.old self.old ms → is_read finder.old self.new (put name.now d ms))) }
        ensures unread { result ≡ Err Unread.BadJson → value_at depth reader.old ≡ None }
        ensures tree { finder.new ≡ finder.old };
}

/// What is read of the object that comes next, or none of what is no object.
pub(crate) fn read_object<'a, M: FromMembers<'a>>(
    alloc: Global,
    finder: &mut Finder<'_, 'a>,
    reader: &mut Reader<'a>,
    depth: usize,
) -> Result<Option<M>, Unread>
    ensures read { IfOk result (λ found. Starts depth reader.old reader.new (IsReadFrom (M.is_read finder.old) found)) }
    ensures unread { result ≡ Err Unread.BadJson → value_at depth reader.old ≡ None }
    ensures tree { finder.new ≡ finder.old }
{
    let opened = open(reader, depth)?;
    if let Opened::Object(inside) = opened {
        let found = read_members(alloc, finder, reader, inside)?;
        return Ok(Some(found));
    }
    pass_opened(reader, opened)?;
    Ok(None)
}

/// What is read of an object that has been opened.
fn read_members<'a, M: FromMembers<'a>>(
    alloc: Global,
    finder: &mut Finder<'_, 'a>,
    reader: &mut Reader<'a>,
    depth: usize,
) -> Result<M, Unread>
    ensures read { IfOk result (λ found. (ms : Members) × AreMembers depth reader.old reader.new ms
        × M.is_read finder.old found ms) }
    ensures unread { result ≡ Err Unread.BadJson
        → members_at depth (length reader.old) no_members reader.old ≡ None }
    ensures tree { finder.new ≡ finder.old }
{
    let mut found = M::new();
    'members: while let Some(name) = reader.next_key()? {
        found.read_member(alloc, finder, reader, depth, name)?;
    }
    Ok(found)
}
