ghost use Rattle.std.specs.Prelude.{◌≡◌, ◌≢◌, ◌≤◌, ◌<◌, ℕ, List, length, Ok, Err, IfOk, IsFalse};
ghost use Rattle.grove_tree.specs.Trees.{Rows};
ghost use Rattle.grove_tree.specs.Weights.{unweighed};
ghost use Rattle.grove_access.specs.declared.access.Access.{Access};
ghost use Rattle.grove_wire.specs.declared.fault.WireFault.TheVariants.{Memory};
ghost use Rattle.grove_wire.specs.Outcomes.{Gives};
ghost use Rattle.grove_wire.specs.RequestLaws.{AskedFits};
ghost use Rattle.grove_wire.specs.Requests.{Batch, asked_of, request_of};

use crate::LineReader;
use grove_tree::{NoMemory, Tree};
use grove_wire::{Request, WireFault};
use std::alloc::Global;
use std::marker::{Model, PhantomData};
use std::mem;

/// Trees over which what is read of a line is what it asks for.
pub trait Trees {
    ghost use Rattle.grove_tree.specs.Trees.{Rows};

    ghost includes: { Rows → Type 0 };
}

/// Whatever tree there is: so of a line nothing is read before it is answered.
#[derive(Clone, Copy, Debug)]
pub struct AnyTree;

impl Trees for AnyTree {
    ghost includes = { λ _. Unit {0} };
}

/// A session line of at most 1,048,576 bytes and, once it is read, what it asks for over each of these trees.
#[derive(Debug, Drop)]
pub struct Line<T: Trees> {
    text: Vec<u8>,
    asked: Option<Result<Request, WireFault>>,
    of: PhantomData<T>,
}

impl<T: Trees> Model for Line<T> {
    ghost use Rattle.std.specs.Prelude.{ℕ, ◌≤◌, List, length};
    ghost use Rattle.grove_line.specs.Lines.{IsReadFor};

    ghost Value = { List ℕ };

    ghost view = { λ line. line.text.items };

    ghost invariant = { λ line. (length line.text.items ≤ 1048576) × IsReadFor T.includes line.text.items line.asked };
}

impl<T: Trees> Line<T> {
    /// A copy of the line, of which nothing is read.
    pub fn copied(alloc: Global, text: &[u8]) -> Result<Line<T>, NoMemory>
        requires { length text.now ≤ 1048576 }
        ensures { IfOk result (λ line. line ≡ text.now) }
    {
        Ok(Line {
            text: Vec::from_slice(alloc, text)?,
            asked: None,
            of: PhantomData,
        })
    }

    /// Reads the line by a tree that has the names of all of its trees. Where memory is refused, it is read once it is
    /// answered.
    pub fn read(&mut self, alloc: Global, reader: &mut LineReader, tree: &Tree)
        requires same { (rows : Rows) → T.includes rows → unweighed tree.now ≡ unweighed rows }
        ensures { self.new ≡ self.old }
    {
        let asked = reader.read(alloc, tree, &self.text);
        if !lacks_memory(&asked) {
            drop(mem::replace(&mut self.asked, Some(asked)));
        }
    }

    /// May it be a batch without fault, of so many lists at most?
    pub fn may_be_batch(&self, most: usize) -> bool
        ensures { IsFalse result → (rows : Rows) (lists : List (List Access)) → T.includes rows
            → request_of rows self.now ≡ Ok (Batch lists) → most < length lists }
    {
        match &self.asked {
            None => true,
            Some(Ok(Request::Batch(lists))) => lists.len() <= most,
            Some(Ok(Request::Plan(_))) => false,
            Some(Ok(Request::Check(_, _, _))) => false,
            Some(Ok(Request::Weights | Request::Reweigh)) => false,
            Some(Err(_)) => false,
        }
    }

    /// What it asks for over one of its trees. It is read now if it wasn't before.
    pub fn take_request(
        &mut self,
        alloc: Global,
        reader: &mut LineReader,
        tree: &Tree,
    ) -> Result<Request, WireFault>
        requires { T.includes tree.now }
        ensures read { Gives asked_of result (request_of tree.now self.old) }
        ensures fits { IfOk result (λ request. AskedFits tree.now (asked_of request)) }
        ensures same { self.new ≡ self.old }
    {
        match self.asked.take() {
            Some(asked) => asked,
            None => reader.read(alloc, tree, &self.text),
        }
    }

    /// Moves its bytes out.
    pub fn take(&mut self, alloc: Global) -> Vec<u8>
        ensures { result.items ≡ self.old }
    {
        self.asked = None;
        mem::replace(&mut self.text, Vec::new(alloc))
    }
}

/// Was there no memory to read it?
fn lacks_memory(asked: &Result<Request, WireFault>) -> bool
    ensures { IsFalse result → asked.now ≢ Err Memory }
{
    matches!(asked, Err(WireFault::Memory))
}
