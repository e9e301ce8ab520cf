/// Numbers the lines of a text, for places in it that only go up.
#[derive(Drop)]
pub struct LineNumbers<'a> {
    rest: &'a [u8],
    /// How many bytes are before the rest, and the number of the line that it begins in.
    passed: u64,
    number: u64,
}

impl<'a> LineNumbers<'a> {
    pub fn new(text: &'a [u8]) -> LineNumbers<'a> {
        LineNumbers {
            rest: text,
            passed: 0,
            number: 1,
        }
    }

    /// The number of the line in which a record begins, for which the reader began to look at this place. Before the
    /// record may be a mark of the byte order, empty lines, and comments.
    pub fn number_from(&mut self, place: u64) -> u64 {
        let count = place
            .saturating_sub(self.passed)
            .min(self.rest.len() as u64) as usize;
        self.pass(count);
        if self.rest.starts_with(b"\xef\xbb\xbf") {
            self.pass(3);
        }
        for _ in 0..self.rest.len() {
            let blank = blank_in(self.rest);
            if blank == 0 {
                break;
            }
            self.pass(blank);
        }
        self.number
    }

    /// Goes on by so many bytes, or to the end.
    fn pass(&mut self, count: usize) {
        let (passed, rest) = self.rest.split_at(count.min(self.rest.len()));
        for byte in passed {
            if *byte == b'\n' {
                self.number = self.number.saturating_add(1);
            }
        }
        self.passed = self.passed.saturating_add(passed.len() as u64);
        self.rest = rest;
    }
}

/// How many bytes at the begin of the text are an end of a line, or a comment up to the end of its line.
fn blank_in(text: &[u8]) -> usize {
    match text.first() {
        Some(b'\n') | Some(b'\r') => 1,
        Some(b'#') => text
            .iter()
            .position(|byte| *byte == b'\n')
            .unwrap_or(text.len()),
        _ => 0,
    }
}
