use crate::counter::Counter;
use crate::timed_stream::LimitedRead;
use std::io::{self, Read, Write};
use std::net::TcpStream;
use std::time::Duration;

/// A connection whose bytes are counted as they are read or written.
#[derive(Drop)]
pub struct CountedStream<'a> {
    stream: &'a TcpStream,
    bytes: &'a Counter,
}

impl<'a> CountedStream<'a> {
    pub fn new(stream: &'a TcpStream, bytes: &'a Counter) -> CountedStream<'a> {
        CountedStream { stream, bytes }
    }
}

impl Read for CountedStream<'_> {
    fn read(&mut self, buffer: &mut [u8]) -> io::Result<usize> {
        let mut stream = self.stream;
        let count = stream.read(buffer)?;
        self.bytes.add(count as u64);
        Ok(count)
    }
}

impl Write for CountedStream<'_> {
    fn write(&mut self, bytes: &[u8]) -> io::Result<usize> {
        let mut stream = self.stream;
        let count = stream.write(bytes)?;
        self.bytes.add(count as u64);
        Ok(count)
    }

    fn flush(&mut self) -> io::Result<()> {
        let mut stream = self.stream;
        stream.flush()
    }
}

impl LimitedRead for CountedStream<'_> {
    fn limit_read(&self, longest: Option<Duration>) -> io::Result<()> {
        self.stream.set_read_timeout(longest)
    }
}
