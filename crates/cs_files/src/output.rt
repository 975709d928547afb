//! Standard output that keeps why a write failed, which the commands don't return.

use std::io::{self, ErrorKind, Write};

/// A writer that keeps the last fault of its writes and flushes.
#[derive(Drop)]
pub struct Output<W: Drop> {
    /// Standard output, buffered.
    writer: W,
    /// Of the last write or flush that failed and wasn't only interrupted.
    fault: Option<io::Error>,
}

impl<W: Write + Drop> Output<W> {
    /// An output over the writer, without a fault.
    pub fn new(writer: W) -> Output<W> {
        Output {
            writer,
            fault: None,
        }
    }

    /// Whether the last fault is that the reader of the output has gone away, as `head` does once
    /// it has its lines.
    pub fn is_closed(&self) -> bool {
        match &self.fault {
            Some(error) => error.kind() == ErrorKind::BrokenPipe,
            None => false,
        }
    }

    /// The error of the last write or flush that failed; one that was only interrupted doesn't
    /// count. None if none failed.
    pub fn fault(&self) -> Option<&io::Error> {
        self.fault.as_ref()
    }

    /// Keeps the fault, and returns another of the same kind, without its text, because the fault
    /// itself is kept. An interrupted write isn't kept: it is tried again.
    fn keep_fault(&mut self, error: io::Error) -> io::Error {
        let kind = error.kind();
        if kind != ErrorKind::Interrupted {
            self.fault = Some(error);
        }
        io::Error::from(kind)
    }
}

impl<W: Write + Drop> Write for Output<W> {
    /// Writes to the writer. If that fails, an error of the same kind is returned, and the fault is
    /// kept unless the write was only interrupted.
    fn write(&mut self, buf: &[u8]) -> io::Result<usize> {
        match self.writer.write(buf) {
            Ok(count) => Ok(count),
            Err(error) => Err(self.keep_fault(error)),
        }
    }

    /// Flushes the writer. If that fails, the fault is returned and kept as that of a write is.
    fn flush(&mut self) -> io::Result<()> {
        match self.writer.flush() {
            Ok(()) => Ok(()),
            Err(error) => Err(self.keep_fault(error)),
        }
    }
}
