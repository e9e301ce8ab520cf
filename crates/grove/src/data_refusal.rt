ghost use Rattle.std.specs.Prelude.{IfOk, string_bytes};
ghost use Rattle.grove.specs.Lines.{IsDataFault};

use grove_base::{Hint, NoMemory};
use grove_tree::{Node, Tree};
use std::alloc::{AllocError, Global};

/// Why what a file of rounds has is refused.
#[derive(Drop)]
pub enum DataRefusal {
    /// A frame is damaged at this offset, and a whole one stands behind it.
    Damaged {
        offset: usize,
    },
    /// The first path that isn't the same in the document and in the file; nothing where one has no more nodes.
    OtherNode {
        document: Option<String>,
        file: Option<String>,
    },
}

impl DataRefusal {
    /// The text of the fault.
    pub fn text(&self, alloc: Global) -> Result<String, AllocError>
        ensures { IfOk result (λ text. IsDataFault (string_bytes text)) }
    {
        match self {
            DataRefusal::Damaged { offset } => format!(in alloc; "data damaged {offset}"),
            DataRefusal::OtherNode { document, file } => {
                let path = or_nothing(document.as_ref().or(file.as_ref()));
                format!(in alloc; "data other-node {path}")
            }
        }
    }

    /// What a person is told.
    pub fn hint(&self, alloc: Global) -> Result<Hint, NoMemory> {
        let told = match self {
            DataRefusal::Damaged { offset } => format!(in alloc;
                "what stands at byte {offset} is damaged, and a whole round stands behind it; begin with a copy"
            )?,
            DataRefusal::OtherNode {
                document: Some(document),
                file: Some(file),
            } => format!(in alloc;
                "the document has \"{document}\" where the file has \"{file}\""
            )?,
            DataRefusal::OtherNode { document, file } => {
                let (has, lacks) = if document.is_some() {
                    ("document", "file")
                } else {
                    ("file", "document")
                };
                let path = or_nothing(document.as_ref().or(file.as_ref()));
                format!(in alloc;
                    "the {has} has \"{path}\", and the {lacks} no node behind those before"
                )?
            }
        };
        Hint::new(alloc, &told)
    }
}

fn or_nothing(path: Option<&String>) -> &str {
    match path {
        Some(path) => path.as_str(),
        None => "",
    }
}

/// The first node of two trees that isn't the same by its path.
pub fn other_node(alloc: Global, document: &Tree, file: &Tree) -> Result<DataRefusal, NoMemory> {
    for number in 0..document.len().max(file.len()) {
        let (wanted, found) = (
            path_at(alloc, document, number)?,
            path_at(alloc, file, number)?,
        );
        if wanted != found {
            return Ok(DataRefusal::OtherNode {
                document: wanted,
                file: found,
            });
        }
    }
    Ok(DataRefusal::OtherNode {
        document: None,
        file: None,
    })
}

/// The path of the node of this number, if there is one.
fn path_at(alloc: Global, tree: &Tree, number: u32) -> Result<Option<String>, NoMemory> {
    if number < tree.len() {
        Ok(Some(tree.path_of(alloc, Node::new(number))?))
    } else {
        Ok(None)
    }
}
