ghost use Rattle.std.specs.Prelude.{◌≡◌, ◌≢◌, ◌==◌, All, IfOk, string_bytes};
ghost use Rattle.std.specs.List.{before_first};

use grove_base::NoMemory;
use std::alloc::{AllocError, Global};
use std::marker::Model;

/// A text without a line feed.
#[derive(Debug, Drop)]
pub struct Line {
    text: String,
}

impl Model for Line {
    ghost use Rattle.std.specs.Prelude.{◌≢◌, ℕ, List, All, string_bytes};

    ghost Value = { List ℕ };

    ghost view = { λ line. string_bytes line.text };

    ghost invariant = { λ line. All (λ byte. byte ≢ 10) (string_bytes line.text) };
}

impl Line {
    /// The text up to its first line feed.
    #[tactic(auto, using(crate::proofs::FirstLines::feedless))]
    pub(crate) fn of(alloc: Global, text: String) -> Result<Line, NoMemory>
        ensures { IfOk result (λ line. line ≡ before_first (λ byte. byte == 10) (string_bytes text)) }
    {
        let text = first_line(alloc, text)?;
        Ok(Line { text })
    }

    pub fn as_str(&self) -> &str
        ensures text { result.now ≡ self.now }
        ensures one_line { All (λ byte. byte ≢ 10) result.now }
    {
        &self.text
    }

    pub fn into_string(self) -> String
        ensures { string_bytes result ≡ self }
    {
        self.text
    }
}

/// The text up to its first line feed.
#[tactic(auto, using(crate::proofs::FirstLines::whole_line))]
fn first_line(alloc: Global, text: String) -> Result<String, AllocError>
    ensures { IfOk result (λ line. string_bytes line ≡ before_first (λ byte. byte == 10) (string_bytes text)) }
{
    if let Some((line, _)) = text.split_once('\n') {
        return String::from_str(alloc, line);
    }
    Ok(text)
}
