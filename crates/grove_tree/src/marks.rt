ghost use Rattle.std.specs.Prelude.{◌≡◌, ℕ, suc, ◌<◌, ◌↔◌, length, IsTrue, false};
ghost use Rattle.grove_base.specs.Numbers.{any_below};
ghost use Rattle.grove_tree.specs.Rules.{is_twin};
ghost use Rattle.grove_tree.specs.BuiltRows.{rows_of};
ghost use Rattle.grove_tree.specs.PathRests.{mark_of};
ghost use Rattle.grove_tree.specs.RowMarks.{mark_below, row_mark, IsSet, AreNoted};

use crate::Row;

/// How many marks there are.
const MARKS: u32 = 131_072;

const WORDS: usize = MARKS as usize / 64;

/// What a parent's number is multiplied by, so that the marks below different parents lie apart.
const APART: u32 = 81_007;

/// The marks of rows that were looked at, each a bit. Rows that have the same parent and the same name have the same
/// mark, so a row whose mark isn't there has no twin among them.
#[derive(Drop)]
pub(crate) struct Marks {
    words: [u64; WORDS],
}

impl Marks {
    /// None yet.
    pub(crate) fn new() -> Marks {
        Marks { words: [0; WORDS] }
    }

    /// May an earlier row have the same parent and the same name? None has where the row's mark isn't there.
    pub(crate) fn may_have_twin(&self, rows: &[Row], row: u32) -> bool
        requires within { row < length rows.now }
        requires noted { AreNoted self.now.words (rows_of rows.now) row }
        ensures { result ≡ false → any_below row (is_twin (rows_of rows.now) row) ≡ false }
    {
        self.has(mark_of_row(rows, row))
    }

    /// Adds the mark of the row.
    pub(crate) fn note(&mut self, rows: &[Row], row: u32)
        requires within { row < length rows.now }
        requires noted { AreNoted self.old.words (rows_of rows.now) row }
        ensures { AreNoted self.new.words (rows_of rows.now) (suc row) }
    {
        self.add(mark_of_row(rows, row));
    }

    /// Is the mark there?
    fn has(&self, mark: usize) -> bool
        requires { mark < 131072 }
        ensures { IsTrue result ↔ IsSet self.now.words mark }
    {
        (self.words[mark / 64] >> (mark % 64)) & 1 == 1
    }

    /// Adds the mark; those that were there stay.
    fn add(&mut self, mark: usize)
        requires { mark < 131072 }
        ensures own { IsSet self.new.words mark }
        ensures others { (other : ℕ) → IsSet self.old.words other → IsSet self.new.words other }
    {
        self.words[mark / 64] |= 1 << (mark % 64);
    }
}

/// A mark of the row's parent and its name.
pub(crate) fn mark_of_row(rows: &[Row], row: u32) -> usize
    requires { row < length rows.now }
    ensures within { result < 131072 }
    ensures mark { result ≡ row_mark (rows_of rows.now) row }
{
    let row = &rows[row as usize];
    mark_below(row.parent.unwrap_or(0), row.name.as_bytes())
}

/// A mark of a parent and of the name before the first slash.
pub(crate) fn mark_below(parent: u32, name: &[u8]) -> usize
    ensures within { result < 131072 }
    ensures mark { result ≡ mark_below parent name.now }
{
    let name = mark_of(name);
    (name.wrapping_add(parent.wrapping_mul(APART)) % MARKS) as usize
}

/// A mark of the bytes before the first slash.
fn mark_of(bytes: &[u8]) -> u32
    ensures { result ≡ mark_of bytes.now }
{
    let mut mark = 0u32;
    for byte in bytes {
        if *byte == b'/' {
            break;
        }
        mark = mark.wrapping_mul(31).wrapping_add(u32::from(*byte));
    }
    mark
}
