use grove_base::{Hint, NoMemory};
use serde_json::Value;
use std::alloc::{AllocError, Global};

/// So many hints are kept at most, so that they take little memory.
const MOST_HINTS: u32 = 100;

/// The lines of the hints that came in replies.
#[derive(Drop)]
pub struct HintLines {
    text: String,
    count: u32,
}

impl HintLines {
    /// No lines.
    pub fn new(alloc: Global) -> HintLines {
        HintLines {
            text: String::new(alloc),
            count: 0,
        }
    }

    /// Adds the line of a hint, unless there are many or there is no memory for it.
    pub fn add(&mut self, alloc: Global, hint: &Hint) {
        if self.count < MOST_HINTS && self.push(alloc, hint).is_ok() {
            self.count = self.count.saturating_add(1);
        }
    }

    fn push(&mut self, alloc: Global, hint: &Hint) -> Result<(), AllocError> {
        let hint = hint.as_str();
        let line = format!(in alloc; "{hint}\n")?;
        self.text.push_str(&line)
    }

    /// The lines.
    pub fn as_str(&self) -> &str {
        &self.text
    }
}

/// The hint in the reply to the line of this number, if it has one; the number is printed if there are several lines.
pub fn hint_in(alloc: Global, reply: &[u8], number: Option<u64>) -> Option<Hint> {
    let Ok(reply) = Value::from_slice(alloc, reply) else {
        return None;
    };
    let text = reply.get("hint")?.as_str()?;
    match hint_with(alloc, text, number) {
        Ok(hint) => Some(hint),
        Err(NoMemory) => None,
    }
}

fn hint_with(alloc: Global, text: &str, number: Option<u64>) -> Result<Hint, NoMemory> {
    match number {
        Some(number) => Hint::new(alloc, &format!(in alloc; "line {number}: {text}")?),
        None => Hint::new(alloc, text),
    }
}
