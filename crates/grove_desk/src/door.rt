ghost use Rattle.std.specs.Prelude.{◌≡◌, ◌≤◌, length};
ghost use Rattle.grove_tree.specs.Weights.{unweighed};
ghost use Rattle.grove_session.specs.declared.answers.TheConstants.{LINE_LIMIT};

use crate::Opening;
use grove_line::{Line, LineReader, Trees};
use grove_store::Store;
use grove_tree::{NoMemory, Tree};
use std::alloc::Global;
use std::marker::{Model, PhantomData};

/// The trees with the names of the store that a desk was opened with: those of its store after any round.
pub(crate) struct NamesOf<B> {
    of: PhantomData<B>,
}

impl<B: Opening> Trees for NamesOf<B> {
    ghost use Rattle.std.specs.Prelude.{◌≡◌};
    ghost use Rattle.grove_tree.specs.Weights.{unweighed};

    ghost includes = { λ rows. unweighed rows ≡ unweighed B.store.rows };
}

/// Who reads a line.
#[derive(Clone, Copy, Debug, PartialEq, Eq)]
pub(crate) enum WhoReads {
    /// Its caller does before it puts it. So who leads has less to do.
    Caller,
    /// Who leads does, in the line's turn.
    Leader,
}

/// Where callers read their lines before they put them, by the names of the desk's tree, if there is memory for these.
#[derive(Drop)]
pub(crate) struct Door<B: Opening> {
    tree: Option<Tree>,
    of: PhantomData<B>,
}

impl<B: Opening> Model for Door<B> {
    ghost use Rattle.std.specs.Prelude.{◌≡◌, Option, IfSome};
    ghost use Rattle.grove_tree.specs.Trees.{Rows};
    ghost use Rattle.grove_tree.specs.Weights.{unweighed};

    ghost Value = { Option Rows };

    ghost view = { λ door. door.tree };

    ghost invariant = { λ door. IfSome door.tree (λ rows. unweighed rows ≡ unweighed B.store.rows) };
}

impl<B: Opening> Door<B> {
    /// The door of a desk that is opened with this store.
    pub(crate) fn new(alloc: Global, store: &Store) -> Self
        requires { store.now ≡ B.store }
    {
        Door {
            tree: store.tree().copy(alloc).ok(),
            of: PhantomData,
        }
    }

    /// A copy of the line, which is read here if its caller reads it.
    pub(crate) fn line(
        &self,
        alloc: Global,
        reader: &mut LineReader,
        reads: WhoReads,
        text: &[u8],
    ) -> Result<Line<NamesOf<B>>, NoMemory>
        requires { length text.now ≤ LINE_LIMIT }
    {
        let mut line = Line::copied(alloc, text)?;
        if let (WhoReads::Caller, Some(tree)) = (reads, &self.tree) {
            line.read(alloc, reader, tree);
        }
        Ok(line)
    }
}
