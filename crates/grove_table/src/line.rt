ghost use Rattle.std.specs.Prelude.{◌<◌, MatchOption, Some};
ghost use Rattle.grove_table.specs.Refusals.{HasPath};

/// A line of a table: a node.
#[derive(Debug, Drop)]
pub struct Line {
    pub path: String,
    pub weight: u32,
    pub value: i64,
    /// Where it stands in its text, counted from 1.
    pub number: u64,
}

/// The place of the first of these lines that has the path.
pub fn line_with(lines: &[Line], path: &str) -> Option<usize>
    ensures { MatchOption result (¬ HasPath lines.now path.now) (λ _. HasPath lines.now path.now) }
{
    for place in 0..lines.len() {
        if lines[place].path.as_str() == path {
            return Some(place);
        }
    }
    None
}
