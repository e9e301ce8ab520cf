ghost use Rattle.std.specs.Prelude.{◌≡◌, ◌∷◌, ◌<◌, ◌≤◌, ℕ, List, length, map, All, IfOk, IfSome, MatchOption};
ghost use Rattle.grove_access.specs.Lists.{nodes_of, AreNodes};
ghost use Rattle.grove_wire.specs.Outcomes.{Gives};
ghost use Rattle.grove_wire.specs.RequestLaws.{AskedFits};
ghost use Rattle.grove_wire.specs.Requests.{asked_of, request_of};
ghost use Rattle.grove_store.specs.Rounds.{lists_in};
ghost use Rattle.grove_store.specs.Parts.{IsRoundOf, FitsRoom, NoneFits};

use grove_access::AccessList;
use grove_line::{Asked, Line, LineReader, Trees};
use grove_tree::{NoMemory, Tree};
use grove_wire::{MOST_LISTS, Request, WireFault};
use std::alloc::Global;

/// Batches that are run as one: their lists, in order, and how many are each line's.
#[derive(Drop)]
pub struct Round {
    pub counts: Vec<usize>,
    pub lists: Vec<AccessList>,
}

/// What the first of the lines asks for.
pub fn first_request<T: Trees>(
    alloc: Global,
    reader: &mut LineReader,
    tree: &Tree,
    lines: &mut [Asked<T>],
) -> Result<Request, WireFault>
    requires some { 0 < length lines.old }
    requires trees { T.includes tree.now }
    ensures read { (line : List ℕ) (others : List (List ℕ)) → map (λ asked. asked.line) lines.old ≡ line ∷ others
        → Gives asked_of result (request_of tree.now line) }
    ensures fits { IfOk result (λ request. AskedFits tree.now (asked_of request)) }
    ensures same { lines.new ≡ lines.old }
{
    lines[0].line.take_request(alloc, reader, tree)
}

/// The round of a first batch and of those of the other lines that follow it without a gap, as long as there is room.
pub fn round_of<T: Trees>(
    alloc: Global,
    reader: &mut LineReader,
    tree: &Tree,
    first: Vec<AccessList>,
    others: &mut [Asked<T>],
) -> Result<Round, NoMemory>
    requires trees { T.includes tree.now }
    requires few { length first.items ≤ 256 }
    requires fit { All (λ list. AreNodes tree.now (nodes_of list)) first.items }
    ensures round { IfOk result
        (λ round. IsRoundOf tree.now first.items (map (λ asked. asked.line) others.old) round.counts.items
        round.lists.items) }
    ensures same { others.new ≡ others.old }
{
    let mut counts = Vec::new(alloc);
    counts.push(first.len())?;
    let mut lists = first;
    for place in 0..others.len() {
        let room = MOST_LISTS - lists.len();
        let Some(mut more) = batch_within(alloc, reader, tree, &mut others[place].line, room)?
        else {
            break;
        };
        counts.push(more.len())?;
        lists.append(&mut more)?;
    }
    Ok(Round { counts, lists })
}

/// The lists of a line that is a batch without fault, where they have room. Else the line stays as it was read.
fn batch_within<T: Trees>(
    alloc: Global,
    reader: &mut LineReader,
    tree: &Tree,
    line: &mut Line<T>,
    room: usize,
) -> Result<Option<Vec<AccessList>>, NoMemory>
    requires trees { T.includes tree.now }
    ensures lists { IfOk result
        (λ found. MatchOption found (NoneFits (lists_in tree.now line.old) room)
        (λ lists. FitsRoom (lists_in tree.now line.old) room lists.items)) }
    ensures fit { IfOk result
        (λ found. IfSome found (λ lists. All (λ list. AreNodes tree.now (nodes_of list)) lists.items)) }
    ensures same { line.new ≡ line.old }
{
    if !line.may_be_batch(room) {
        return Ok(None);
    }
    match line.take_request(alloc, reader, tree) {
        Ok(Request::Batch(lists)) => {
            if lists.len() <= room {
                Ok(Some(lists))
            } else {
                Ok(None)
            }
        }
        Err(WireFault::Memory) => Err(NoMemory),
        _ => Ok(None),
    }
}
