use grove_session::{DeviceFault, Sink, WriterSink};
use std::io::{self, Write};

/// Takes nothing and reports no error.
#[derive(Drop)]
struct Full;

impl Write for Full {
    fn write(&mut self, _buf: &[u8]) -> io::Result<usize> {
        Ok(0)
    }

    fn flush(&mut self) -> io::Result<()> {
        Ok(())
    }
}

#[test]
fn a_writer_that_takes_nothing_is_a_fault(rt: HostRuntime) {
    let mut sink = WriterSink::new(Full);
    assert!(rt; sink.write(b"") == Ok(0));
    assert!(rt; sink.write(b"a") == Err(DeviceFault));
    assert!(rt; sink.failed());
}
