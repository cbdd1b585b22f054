use pool_outer::{Sink, SinkError, StdSink};
use std::io;

// Takes at most so many bytes of a piece.
#[derive(Drop)]
struct Narrow {
    most: usize,
}

impl io::Write for Narrow {
    fn write(&mut self, bytes: &[u8]) -> io::Result<usize> {
        Ok(bytes.len().min(self.most))
    }

    fn flush(&mut self) -> io::Result<()> {
        Ok(())
    }
}

#[test]
fn a_writer_that_takes_nothing_has_failed(rt: HostRuntime) {
    for (most, bytes, want) in [
        (8, "hello", Ok(5)),
        (2, "hello", Ok(2)),
        (0, "hello", Err(SinkError::Failed)),
        (0, "", Ok(0)),
    ] {
        let mut sink = StdSink::new(Narrow { most });
        assert_eq!(rt;
            sink.write(bytes.as_bytes()),
            want,
            "at most {most} of {bytes:?}"
        );
    }
}
