ghost use Rattle.std.specs.Prelude.{◌≡◌, ◌≤◌, ◌<◌, ◌+◌, ℕ, [], length, slice_get, All, Some, IfSome, IsTrue};
ghost use Rattle.grove_tree.specs.Trees.{Rows};
ghost use Rattle.grove_store.specs.KeptTexts.{kept_text, bytes_of, RepliesFor};

use grove_build::Target;
use grove_tree::NoMemory;
use indexmap::IndexMap;
use std::alloc::Global;
use std::marker::Model;

/// No more texts are kept.
const MOST_TEXTS: usize = 1024;

/// The texts that are kept have no more bytes together.
const MOST_BYTES: usize = 67_108_864;

/// The texts of replies to plan requests over a tree, by what they depend on beside the tree: the nodes and the lengths
/// of the list's accesses. There are at most 1,024 of them, with at most 64 MiB together.
#[derive(Debug, Drop)]
pub struct KeptTexts {
    texts: IndexMap<Vec<Target>, Vec<u8>>,
    /// How many bytes the texts have together.
    bytes: usize,
}

impl Model for KeptTexts {
    ghost use Rattle.std.specs.Prelude.{◌≡◌, ◌≤◌, List, length, map};
    ghost use Rattle.grove_store.specs.KeptTexts.{KeptText, kept_text, bytes_of};

    ghost Value = { List KeptText };

    ghost view = { λ kept. map (λ entry. kept_text entry.0.items entry.1.items) kept.texts.entries };

    ghost invariant = { λ kept. (length kept.texts.entries ≤ 1024) × (kept.bytes ≤ 67108864)
        × (bytes_of (map (λ entry. kept_text entry.0.items entry.1.items) kept.texts.entries) ≡ kept.bytes) };
}

impl KeptTexts {
    /// Nothing is kept yet.
    pub fn new(alloc: Global) -> KeptTexts
        ensures { result ≡ [] }
    {
        KeptTexts {
            texts: IndexMap::new(alloc),
            bytes: 0,
        }
    }

    /// Keeps nothing any more. It takes no memory.
    pub fn forget(&mut self)
        ensures { self.new ≡ [] }
    {
        self.texts.clear();
        self.bytes = 0;
    }

    /// The text that is kept for the lists with these targets. What holds of all that are kept is told here.
    pub fn get(&self, targets: &Vec<Target>) -> Option<&Vec<u8>>
        ensures few { length self.now ≤ 1024 }
        ensures bytes { bytes_of self.now ≤ 67108864 }
        ensures kept { IfSome result
            (λ text. (place : ℕ) × (slice_get self.now place ≡ Some (kept_text targets.now.items text.now.items))) }
    {
        self.texts.get(targets)
    }

    /// Keeps a text for the lists with these targets. Where there is no room for it, all others are forgotten first; a
    /// text that is too long by itself isn't kept.
    pub fn keep(&mut self, targets: Vec<Target>, text: Vec<u8>) -> Result<(), NoMemory>
        ensures { (rows : Rows) → All (RepliesFor rows) self.old
            → RepliesFor rows (kept_text targets.items text.items) → All (RepliesFor rows) self.new }
    {
        if text.len() > MOST_BYTES {
            return Ok(());
        }
        if !self.has_room(text.len()) {
            self.forget();
        }
        self.add(targets, text)
    }

    /// Is there room for one more text of so many bytes?
    fn has_room(&self, bytes: usize) -> bool
        requires { bytes ≤ 67108864 }
        ensures { IsTrue result → (length self.now < 1024) × (bytes_of self.now + bytes ≤ 67108864) }
    {
        self.texts.len() < MOST_TEXTS && bytes <= MOST_BYTES - self.bytes
    }

    /// Adds a text for which there is room, unless one is kept for its targets.
    fn add(&mut self, targets: Vec<Target>, text: Vec<u8>) -> Result<(), NoMemory>
        requires few { length self.old < 1024 }
        requires room { bytes_of self.old + length text.items ≤ 67108864 }
        ensures { (rows : Rows) → All (RepliesFor rows) self.old
            → RepliesFor rows (kept_text targets.items text.items) → All (RepliesFor rows) self.new }
    {
        let bytes = text.len();
        if self.texts.contains_key(&targets) {
            return Ok(());
        }
        self.texts.insert(targets, text)?;
        self.bytes += bytes;
        Ok(())
    }
}
