use crate::response::HTTP_BEGINS;
use std::io::{self, Read};

/// A reader that ends as soon as what has come is no beginning of a response.
#[derive(Drop)]
pub struct ResponseReader<R> {
    reader: R,
    /// What has still to come of how a response begins. Nothing, if something else came.
    awaited: Option<&'static [u8]>,
}

impl<R: Read> ResponseReader<R> {
    pub fn new(reader: R) -> ResponseReader<R> {
        ResponseReader {
            reader,
            awaited: Some(HTTP_BEGINS.as_bytes()),
        }
    }
}

impl<R: Read> Read for ResponseReader<R> {
    fn read(&mut self, buffer: &mut [u8]) -> io::Result<usize> {
        let Some(awaited) = self.awaited else {
            return Ok(0);
        };
        let count = self.reader.read(buffer)?;
        let (now, later) = awaited.split_at(count.min(awaited.len()));
        self.awaited = if buffer.starts_with(now) {
            Some(later)
        } else {
            None
        };
        Ok(count)
    }
}
