ghost use Rattle.std.specs.Prelude.{◌≡◌, ◌<◌, length, IfOk, string_bytes};
ghost use Rattle.grove_table.specs.Texts.{line_text, table_text};

use grove_access::Records;
use grove_tree::{NoMemory, Node, Tree};
use std::alloc::Global;

/// The table of a tree with its records: a header, and a line for each node, in preorder.
pub fn table_text(alloc: Global, tree: &Tree, records: &Records) -> Result<String, NoMemory>
    requires fits { length records.now ≡ length tree.now }
    ensures { IfOk result (λ text. string_bytes text ≡ table_text tree.now records.now) }
{
    let mut text = String::from_str(alloc, "path,weight,value\n")?;
    for number in 0..tree.len() {
        let line = line_text(alloc, tree, records, Node::new(number))?;
        text.push_str(&line)?;
    }
    Ok(text)
}

/// The line of a node.
fn line_text(alloc: Global, tree: &Tree, records: &Records, node: Node) -> Result<String, NoMemory>
    requires node { node < length tree.now }
    requires record { node < length records.now }
    ensures { IfOk result (λ text. string_bytes text ≡ line_text tree.now records.now node) }
{
    let path = tree.path_of(alloc, node)?;
    let weight = tree.weight(node);
    let value = records.get(node);
    Ok(format!(in alloc; "{path},{weight},{value}\n")?)
}
