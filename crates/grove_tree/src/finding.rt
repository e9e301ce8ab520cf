ghost use Rattle.std.specs.Prelude.{ℕ, List, ◌≤◌, length, MatchOption, IfSome, Decides};
ghost use Rattle.grove_tree.specs.BuiltRows.{rows_of};
ghost use Rattle.grove_tree.specs.PathRests.{IsRest, GoesOn, IsChildOn};

use crate::Row;
use crate::guesses::Guesses;

fn is_rest(path: &[u8]) -> bool
    ensures { Decides result (IsRest path.now) }
{
    path.is_empty() || path[0] == b'/'
}

/// What the path goes on with after a slash and the name, if it begins with these and no longer name.
fn after_name<'a>(path: &'a [u8], name: &[u8]) -> Option<&'a [u8]>
    ensures { MatchOption result ((rest : List ℕ) → ¬ GoesOn path.now name.now rest)
        (λ rest. GoesOn path.now name.now rest.now) }
{
    let (slash, below) = path.split_first()?;
    if *slash != b'/' {
        return None;
    }
    let Some(rest) = below.strip_prefix(name) else {
        return None;
    };
    if is_rest(rest) { Some(rest) } else { None }
}

/// What the path goes on with after the row's name, if the row is below that parent and its name comes next.
fn rest_below<'a>(rows: &[Row], row: u32, parent: u32, path: &'a [u8]) -> Option<&'a [u8]>
    ensures { MatchOption result ((rest : List ℕ) → ¬ IsChildOn (rows_of rows.now) parent path.now row rest)
        (λ rest. IsChildOn (rows_of rows.now) parent path.now row rest.now) }
{
    let child = rows.get(row as usize)?;
    if child.parent != Some(parent) {
        return None;
    }
    after_name(path, child.name.as_bytes())
}

/// A row whose name comes next in the path below that parent, if it is among those guessed; with what the path goes on
/// with.
fn guessed_child_on<'a>(
    rows: &[Row],
    guesses: &Guesses,
    parent: u32,
    path: &'a [u8],
) -> Option<(u32, &'a [u8])>
    ensures { IfSome result (λ found. IsChildOn (rows_of rows.now) parent path.now found.0 found.1.now) }
{
    let (_slash, below) = path.split_first()?;
    for row in guesses.for_child(parent, below) {
        if *row as usize >= rows.len() {
            break;
        }
        if let Some(rest) = rest_below(rows, *row, parent, path) {
            return Some((*row, rest));
        }
    }
    None
}

/// The row whose name comes next in the path below that parent, with what the path goes on with. The guesses are only
/// where to look first: no row has the name once all were gone over.
pub fn child_on<'a>(
    rows: &[Row],
    guesses: &Guesses,
    parent: u32,
    path: &'a [u8],
) -> Option<(u32, &'a [u8])>
    requires { length rows.now ≤ 4096 }
    ensures { MatchOption result
        ((child : ℕ) (rest : List ℕ) → ¬ IsChildOn (rows_of rows.now) parent path.now child rest)
        (λ found. IsChildOn (rows_of rows.now) parent path.now found.0 found.1.now) }
{
    if let Some(found) = guessed_child_on(rows, guesses, parent, path) {
        return Some(found);
    }
    for row in 0..rows.len() as u32 {
        if let Some(rest) = rest_below(rows, row, parent, path) {
            return Some((row, rest));
        }
    }
    None
}
