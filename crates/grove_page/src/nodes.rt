ghost use Rattle.std.specs.Prelude.{◌≡◌, ◌<◌, ◌++◌, false, IfOk, IfSome, OnOk, length};
ghost use Rattle.serde_json.specs.Written.{compact_text, comma_if};
ghost use Rattle.grove_base.specs.Numbers.{passing_below};
ghost use Rattle.grove_tree.specs.Weights.{unweighed};
ghost use Rattle.grove_wire.specs.Documents.{node_data};
ghost use Rattle.grove_page.specs.NodeLines.{line_of_nodes, is_told, IsWithin, part_of};
ghost use Rattle.grove_page.specs.NodeTexts.{entries_text, entry_start, entry_end};

use crate::paths::{Paths, start_of};
use crate::query::NodesQuery;
use grove_store::Store;
use grove_tree::{NoMemory, Node, Tree};
use itoa::{Buffer, Integer};
use std::alloc::{AllocError, Global};
use std::marker::Model;

/// Which nodes are told of.
#[derive(Clone, Copy, Debug)]
pub(crate) enum Part {
    /// All of them.
    Whole,
    /// A node, and those below it.
    Below(Node),
}

/// The part that is asked for: a node with those below it, if there is such a node, or the whole.
pub(crate) fn part_for(tree: &Tree, asked: &NodesQuery) -> Option<Part>
    ensures part { result ≡ part_of tree.now asked.now.below }
    ensures within { IfSome result (IsWithin tree.now) }
{
    match &asked.below {
        Some(path) => Some(Part::Below(tree.find(path)?)),
        None => Some(Part::Whole),
    }
}

/// About how many bytes a node takes.
const NODE_BYTES: usize = 112;

/// The nodes of a store, and their paths if these are known.
#[derive(Drop)]
pub(crate) struct Listing<'a> {
    store: &'a Store,
    paths: Option<&'a Paths>,
}

impl<'a> Model for Listing<'a> {
    ghost use Rattle.std.specs.Prelude.{◌≡◌};
    ghost use Rattle.std.specs.Option.{ForSome};
    ghost use Rattle.grove_tree.specs.Weights.{unweighed};
    ghost use Rattle.grove_store.specs.StoreStates.{StoreState};

    ghost Value = { StoreState };

    ghost view = { λ listing. listing.store.now };

    ghost invariant = { λ listing. ForSome listing.paths
        (λ paths. unweighed paths.now ≡ unweighed listing.store.now.rows) };
}

impl<'a> Listing<'a> {
    /// Paths are taken from those given, if these are the tree's.
    pub fn new(store: &'a Store, paths: Option<&'a Paths>) -> Listing<'a>
        ensures { result ≡ store.now }
    {
        Listing {
            store,
            paths: paths_for(store.tree(), paths),
        }
    }

    /// What there is of the nodes of a part, on a line.
    pub fn line(&self, alloc: Global, part: &Part) -> Result<Vec<u8>, NoMemory>
        requires { IsWithin self.now.rows part.now }
        ensures { IfOk result (λ line. line.items
            ≡ line_of_nodes self.now.rows self.now.records self.now.waits self.now.rounds part.now) }
    {
        let nodes = self.store.tree().len() as usize;
        let mut line = Vec::with_capacity(alloc, NODE_BYTES * nodes)?;
        line.extend_from_slice(b"{\"nodes\":[")?;
        self.write_nodes(&mut line, alloc, part)?;
        line.extend_from_slice(b"],\"round\":")?;
        write_number(&mut line, self.store.rounds())?;
        line.extend_from_slice(b"}\n")?;
        Ok(line)
    }

    fn write_nodes(&self, line: &mut Vec<u8>, alloc: Global, part: &Part) -> Result<(), NoMemory>
        requires { IsWithin self.now.rows part.now }
        ensures { OnOk result (line.new.items
            ≡ line.old.items ++ entries_text self.now.rows self.now.records self.now.waits false
            (passing_below (length self.now.rows) (is_told self.now.rows part.now))) }
    {
        let tree = self.store.tree();
        let mut later = false;
        for number in 0..tree.len() {
            let node = Node::new(number);
            if is_told(tree, part, node) {
                write_comma(line, later)?;
                self.write_node(line, alloc, node)?;
                later = true;
            }
        }
        Ok(())
    }

    fn write_node(&self, line: &mut Vec<u8>, alloc: Global, node: Node) -> Result<(), NoMemory>
        requires { node < length self.now.rows }
        ensures { OnOk result (line.new.items
            ≡ line.old.items ++ compact_text (node_data self.now.rows self.now.records self.now.waits node)) }
    {
        self.write_start(line, alloc, node)?;
        let weight = u64::from(self.store.tree().weight(node));
        let value = self.store.records().get(node);
        let waited = u64::from(self.store.waits()[node.number() as usize]);
        Ok(write_end(line, value, waited, weight)?)
    }

    /// What the node's entry begins with.
    fn write_start(&self, line: &mut Vec<u8>, alloc: Global, node: Node) -> Result<(), NoMemory>
        requires { node < length self.now.rows }
        ensures { OnOk result (line.new.items ≡ line.old.items ++ entry_start self.now.rows node) }
    {
        match self.paths {
            Some(paths) => line.extend_from_slice(paths.start(node))?,
            None => line.extend_from_slice(&start_of(alloc, self.store.tree(), node)?)?,
        }
        Ok(())
    }
}

/// The paths, if they are those of the tree's nodes.
fn paths_for<'a>(tree: &Tree, paths: Option<&'a Paths>) -> Option<&'a Paths>
    ensures { IfSome result (λ paths. unweighed paths.now ≡ unweighed tree.now) }
{
    let paths = paths?;
    if paths.are_of(tree) {
        Some(paths)
    } else {
        None
    }
}

/// The comma before an entry, if it is a later one.
fn write_comma(line: &mut Vec<u8>, later: bool) -> Result<(), AllocError>
    ensures { OnOk result (line.new.items ≡ line.old.items ++ comma_if later) }
{
    if later {
        line.push(b',')?;
    }
    Ok(())
}

/// Is the node one of the part?
fn is_told(tree: &Tree, part: &Part, node: Node) -> bool
    requires part { IsWithin tree.now part.now }
    requires node { node < length tree.now }
    ensures { result ≡ is_told tree.now part.now node }
{
    match part {
        Part::Below(top) => {
            let _size = tree.len();
            tree.is_above(*top, node)
        }
        Part::Whole => true,
    }
}

/// What an entry goes on with behind its path.
fn write_end(line: &mut Vec<u8>, value: i64, waits: u64, weight: u64) -> Result<(), AllocError>
    ensures { OnOk result (line.new.items ≡ line.old.items ++ entry_end value waits weight) }
{
    write_number(line, value)?;
    line.extend_from_slice(b",\"waits\":")?;
    write_number(line, waits)?;
    line.extend_from_slice(b",\"weight\":")?;
    write_number(line, weight)?;
    line.push(b'}')?;
    Ok(())
}

fn write_number<I: Integer>(line: &mut Vec<u8>, number: I) -> Result<(), AllocError>
    ensures { OnOk result (line.new.items ≡ line.old.items ++ I.text number) }
{
    let mut buffer = Buffer::new();
    line.extend_from_slice(buffer.format(number).as_bytes())
}
