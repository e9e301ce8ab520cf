ghost use Rattle.std.specs.Prelude.{◌≡◌, Ok, Err, IfOk, string_bytes};
ghost use Rattle.serde_json.specs.View.{view};
ghost use Rattle.grove_words.specs.declared.order.Command.TheVariants.{Tree, Table};
ghost use Rattle.grove_answer.specs.Says.{Says};
ghost use Rattle.grove.specs.Answers.{IsAnswerTo};
ghost use Rattle.grove.specs.Outcomes.{absent_for, IsMade, MaySay};

use crate::answer::{Answer, Cause, Stop};
use grove_answer::{Refusal, or_refuse};
use grove_table::{Absent, TableFault, fault_text, read_table, table_text, tree_of};
use grove_wire::{document_text, read_tree};
use serde_json::Value;
use std::alloc::Global;

/// The answer to the text of a table: a document of its tree, or why there is none.
pub fn answer_to_table<'d>(
    alloc: Global,
    text: &Value,
    adds_parents: bool,
) -> Result<Answer<'d>, Stop>
    ensures { IfOk result (IsAnswerTo (Tree adds_parents) (Ok (view text.now))) }
{
    let made = match text.as_str() {
        Some(text) => document_of(alloc, text, absent_for(adds_parents)),
        None => Err(TableFault::Unlike),
    };
    match made {
        Ok(lines) => Ok(Answer::Done(lines)),
        Err(TableFault::Memory) => Err(Stop::Memory),
        Err(fault) => {
            let text = fault_text(alloc, &fault)?;
            let line = format!(in alloc; "refused {text}\n")?;
            Ok(Answer::Refused {
                line,
                cause: Cause::Table(fault),
            })
        }
    }
}

fn absent_for(adds_parents: bool) -> Absent
    ensures { result ≡ absent_for adds_parents }
{
    if adds_parents {
        Absent::Added
    } else {
        Absent::Refused
    }
}

/// The document of a table's tree, on one line.
fn document_of(alloc: Global, text: &str, absent: Absent) -> Result<String, TableFault>
    ensures { IfOk result (λ lines. IsMade absent text.now (string_bytes lines)) }
{
    let lines = read_table(alloc, text.as_bytes())?;
    let (tree, records) = tree_of(alloc, &lines, absent)?;
    let document = document_text(alloc, &tree, &records)?;
    Ok(format!(in alloc; "{document}\n")?)
}

/// The table of a document's tree.
pub fn table_of(alloc: Global, document: &Value) -> Result<String, Refusal>
    ensures { Says (MaySay Table (view document.now)) result }
{
    let (tree, records) = or_refuse(alloc, read_tree(alloc, document))?;
    match table_text(alloc, &tree, &records) {
        Ok(text) => Ok(text),
        Err(_) => Err(Refusal::Memory),
    }
}
