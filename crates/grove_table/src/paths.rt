ghost use Rattle.std.specs.Prelude.{◌≡◌, ◌<◌, ◌≤◌, length, pred, slice_index, count_by, ◌==◌};
ghost use Rattle.grove_base.specs.Numbers.{last_below};
ghost use Rattle.grove_tree.specs.Rules.{is_name_byte};
ghost use Rattle.grove_table.specs.PathScans.{are_names_after, has_names, PathIs};
ghost use Rattle.grove_table.specs.Refusals.{ends_path, is_slash_at, parent_path};

use crate::Reason;
use grove_tree::DEEPEST;

const LONGEST_NAME: usize = 32;

/// What is wrong with a path, if anything is.
#[tactic(auto, using(crate::proofs::PathNames::no_names, crate::proofs::PathNames::names_deep, crate::proofs::PathNames::names_few, crate::proofs::PathNames::root_named))]
pub fn fault_of_path(path: &str) -> Option<Reason>
    ensures { PathIs path.now result }
{
    if path == "/" {
        return None;
    }
    let bytes = path.as_bytes();
    if !has_names(bytes) {
        return Some(Reason::BadName);
    }
    if slashes_in(bytes) > DEEPEST as usize {
        return Some(Reason::TooDeep);
    }
    None
}

/// Are they names with a slash before each?
fn has_names(path: &[u8]) -> bool
    ensures { result ≡ has_names path.now }
{
    match path.split_first() {
        Some((first, names)) => *first == b'/' && are_names(names),
        None => false,
    }
}

/// Are they names with a slash between two?
fn are_names(bytes: &[u8]) -> bool
    ensures { result ≡ are_names_after 0 bytes.now }
{
    let mut length: usize = 0;
    for byte in bytes {
        if *byte == b'/' {
            if length == 0 {
                return false;
            }
            length = 0;
        } else {
            if length >= LONGEST_NAME || !is_byte_of_name(*byte) {
                return false;
            }
            length += 1;
        }
    }
    length > 0
}

fn is_byte_of_name(byte: u8) -> bool
    ensures { result ≡ is_name_byte byte }
{
    byte.is_ascii_lowercase() || byte.is_ascii_digit() || byte == b'_' || byte == b'-'
}

fn slashes_in(path: &[u8]) -> usize
    ensures { result ≡ count_by (λ byte. byte == 47) path.now }
{
    path.iter().filter(|byte| **byte == b'/').count()
}

/// Does the path of a node above, or of the node, end before the place?
pub fn ends_path(path: &[u8], place: usize) -> bool
    requires { place ≤ length path.now }
    ensures { result ≡ ends_path path.now place }
{
    place > 0 && (place == 1 || place == path.len() || path[place] == b'/')
}

/// The path of the parent; that of the root is its own.
pub fn parent_path(path: &str) -> &str
    ensures { result.now ≡ parent_path path.now }
{
    match last_slash(path.as_bytes()) {
        0 => "/",
        end => &path[..end],
    }
}

/// Where the last slash stands, or 0 if there is none.
fn last_slash(path: &[u8]) -> usize
    ensures place { result ≡ pred (last_below (length path.now) (is_slash_at path.now)) }
    ensures within { 0 < result → result < length path.now }
    ensures slash { 0 < result → slice_index path.now result ≡ 47 }
{
    let mut last = 0;
    for place in 0..path.len() {
        if path[place] == b'/' {
            last = place;
        }
    }
    last
}

/// The last name of a path.
pub fn name_in(path: &str) -> &str {
    match path.rsplit_once('/') {
        Some((_, name)) => name,
        None => path,
    }
}
