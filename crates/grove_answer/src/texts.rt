ghost use Rattle.std.specs.Prelude.{◌≡◌, ◌++◌, length, map, IfOk, OnOk, string_bytes};
ghost use Rattle.serde_json.specs.Written.{compact_text};
ghost use Rattle.grove_wire.specs.Writing.{array_of, count_data, number_data, reply_data};

use grove_access::{Records, Reply};
use grove_base::NoMemory;
use grove_tree::{Node, Tree};
use grove_wire::{counts_value, lists_value, numbers_value, replies_value};
use std::alloc::{AllocError, Global};

/// Adds a word and what it tells to lines.
pub fn push_told(lines: &mut String, word: &str, told: String) -> Result<(), AllocError>
    ensures { OnOk result (string_bytes lines.new ≡ string_bytes lines.old ++ word.now ++ string_bytes told) }
{
    lines.push_str(word)?;
    lines.push_str(&told)
}

/// The replies of a list, as JSON.
#[tactic(auto, using(grove_wire::proofs::Floatless::replies_have_no_float))]
pub fn replies_text(alloc: Global, replies: &[Reply]) -> Result<String, NoMemory>
    ensures { IfOk result (λ text. string_bytes text ≡ compact_text (array_of reply_data replies.now)) }
{
    Ok(replies_value(alloc, replies)?.to_string(alloc)?)
}

/// Numbers, as JSON.
#[tactic(auto, using(grove_wire::proofs::Floatless::numbers_have_no_float))]
pub fn numbers_text(alloc: Global, numbers: &[i64]) -> Result<String, NoMemory>
    ensures { IfOk result (λ text. string_bytes text ≡ compact_text (array_of number_data numbers.now)) }
{
    Ok(numbers_value(alloc, numbers)?.to_string(alloc)?)
}

/// The records by node number.
pub fn numbers_of(alloc: Global, tree: &Tree, records: &Records) -> Result<Vec<i64>, AllocError>
    requires { length records.now ≡ length tree.now }
    ensures { IfOk result (λ numbers. numbers.items ≡ records.now) }
{
    let mut numbers = Vec::new(alloc);
    for number in 0..tree.len() {
        numbers.push(records.get(Node::new(number)))?;
    }
    Ok(numbers)
}

/// Counts, as JSON.
#[tactic(auto, using(grove_wire::proofs::Floatless::counts_have_no_float))]
pub fn counts_text(alloc: Global, counts: &[u32]) -> Result<String, NoMemory>
    ensures { IfOk result (λ text. string_bytes text ≡ compact_text (array_of count_data counts.now)) }
{
    Ok(counts_value(alloc, counts)?.to_string(alloc)?)
}

/// The replies of each list, as JSON.
#[tactic(auto, using(grove_wire::proofs::Floatless::lists_have_no_float))]
pub fn lists_text(alloc: Global, lists: &[&[Reply]]) -> Result<String, NoMemory>
    ensures { IfOk result
        (λ text. string_bytes text ≡ compact_text (array_of (array_of reply_data) (map (λ list. list.now) lists.now))) }
{
    Ok(lists_value(alloc, lists)?.to_string(alloc)?)
}
