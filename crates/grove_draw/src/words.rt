use crate::{Bar, Picture};
use grove_access::{Access, Op};
use grove_tree::Node;
use std::alloc::AllocError;

/// What a bar is called: by its path where it is the first one, else by the last name of it.
pub fn name_of(bar: &Bar, first: bool) -> &str {
    if first {
        return bar.path.as_str();
    }
    match bar.path.as_str().rsplit_once('/') {
        Some((_, name)) => name,
        None => bar.path.as_str(),
    }
}

/// How much deeper the bar lies than the first one, above all others.
pub fn depth_below(picture: &Picture, bar: &Bar) -> usize {
    match picture.bars.first() {
        Some(first) => bar.depth.saturating_sub(first.depth) as usize,
        None => 0,
    }
}

/// The path of a node that has a bar.
pub fn path_in(picture: &Picture, node: Node) -> &str {
    for bar in &picture.bars {
        if bar.node == node {
            return bar.path.as_str();
        }
    }
    ""
}

/// What the access does, in a word.
pub fn word_of(op: Op) -> &'static str {
    match op {
        Op::Get => "get",
        Op::Set(_) => "set",
        Op::Add(_) => "add",
        Op::Take(_) => "take",
    }
}

/// The number with which the access does it, if it has one.
pub fn push_number(out: &mut String, op: Op) -> Result<(), AllocError> {
    match number_of(op) {
        Some(number) => write!(out, " {number}"),
        None => Ok(()),
    }
}

fn number_of(op: Op) -> Option<i64> {
    match op {
        Op::Get => None,
        Op::Set(number) => Some(number),
        Op::Add(number) => Some(number),
        Op::Take(number) => Some(number),
    }
}

/// How long it takes, where that isn't one slot.
pub fn push_length(out: &mut String, access: &Access) -> Result<(), AllocError> {
    let length = access.length;
    if length == 1 {
        return Ok(());
    }
    write!(out, ", {length} slots")
}

/// What a bar costs, as it is worked out with this sign of multiplication.
pub fn push_cost(out: &mut String, bar: &Bar, held: usize, sign: &str) -> Result<(), AllocError> {
    let weight = bar.weight;
    let cost = bar.cost;
    write!(out, "{weight} {sign} {held} = {cost}")
}
