//! Streams over a reader and a writer of std, which are one object or two, with their calls
//! counted.
ghost use Rattle.std.specs.Prelude.{◌≡◌, None};
ghost use Rattle.cs_stream.specs.Overs.{inner_of, counts_of, reader_of, writer_of, ends_counts};
ghost use Rattle.cs_stream.specs.Overs.{transfer_of};

use crate::stream::{Counts, Stream, Transfer};
use std::io::{self, ErrorKind, Read, Write};

/// The answer of a reader or writer of std as a transfer. A number is Bytes, an error of the kind
/// Interrupted is Interrupted, and any other error is Failed. What else the error says is dropped.
fn transfer_of(answer: io::Result<usize>) -> Transfer
    ensures { result ≡ transfer_of answer }
{
    match answer {
        Ok(count) => Transfer::Bytes(count),
        Err(error) => match error.kind() {
            ErrorKind::Interrupted => Transfer::Interrupted,
            _ => Transfer::Failed,
        },
    }
}

/// A stream over one object that is both reader and writer, such as a socket. Contracts don't know
/// its bytes. `TwoEnded` is the same over two objects.
#[derive(Drop)]
pub struct Counted<RW> {
    inner: RW,
    counts: Counts,
}

impl<RW> Counted<RW> {
    /// A stream over `inner`, with no call counted.
    pub fn new(inner: RW) -> Counted<RW>
        ensures inner { inner_of result ≡ inner }
        ensures counts { counts_of result ≡ Counts.NONE }
    {
        Counted {
            inner,
            counts: Counts::NONE,
        }
    }

    /// The counts of the object's reads and writes so far. No command asks for them: contracts do.
    pub fn counts(&self) -> Counts
        ensures { result ≡ counts_of self.now }
    {
        self.counts
    }

    /// Returns the object that is the reader and writer, and drops the counts. No command calls
    /// this.
    pub fn into_inner(self) -> RW
        ensures { result ≡ inner_of self }
    {
        self.inner
    }
}

impl<RW: Read + Write> Stream for Counted<RW> {
    ghost remaining = { λ s. None };

    ghost contents = { λ s. None };

    ghost counts = { counts_of };

    /// Reads from the object, and counts the read, even if it fails.
    fn read(&mut self, buf: &mut [u8]) -> Transfer {
        let transfer = transfer_of(self.inner.read(buf));
        self.counts.count_read(transfer, buf.len());
        transfer
    }

    /// Writes to the object, and counts the write, even if it fails.
    fn write(&mut self, buf: &[u8]) -> Transfer {
        let transfer = transfer_of(self.inner.write(buf));
        self.counts.count_write(transfer, buf.len());
        transfer
    }
}

/// A stream over a reader and a writer that are two objects; `Counted` is the same over one.
/// Contracts know what it reads if they know the reader's bytes, and what it has written if they
/// know the writer's.
#[derive(Drop)]
pub struct TwoEnded<R, W> {
    reader: R,
    writer: W,
    counts: Counts,
}

impl<R, W> TwoEnded<R, W> {
    /// A stream that reads from `reader` and writes to `writer`, with no call counted.
    pub fn new(reader: R, writer: W) -> TwoEnded<R, W>
        ensures reader { reader_of result ≡ reader }
        ensures writer { writer_of result ≡ writer }
        ensures counts { ends_counts result ≡ Counts.NONE }
    {
        TwoEnded {
            reader,
            writer,
            counts: Counts::NONE,
        }
    }

    /// The counts so far of the reader's reads and the writer's writes. No command asks for them:
    /// contracts do.
    pub fn counts(&self) -> Counts
        ensures { result ≡ ends_counts self.now }
    {
        self.counts
    }

    /// Returns the writer, and drops the reader and the counts.
    pub fn into_writer(self) -> W
    where
        R: Drop,
        ensures { result ≡ writer_of self }
    {
        self.writer
    }
}

impl<R: Read, W: Write> Stream for TwoEnded<R, W> {
    ghost remaining = { λ s. R.remaining (reader_of s) };

    ghost contents = { λ s. W.contents (writer_of s) };

    ghost counts = { ends_counts };

    /// Reads from the reader, and counts the read, even if it fails.
    fn read(&mut self, buf: &mut [u8]) -> Transfer {
        let transfer = transfer_of(self.reader.read(buf));
        self.counts.count_read(transfer, buf.len());
        transfer
    }

    /// Writes to the writer, and counts the write, even if it fails.
    fn write(&mut self, buf: &[u8]) -> Transfer {
        let transfer = transfer_of(self.writer.write(buf));
        self.counts.count_write(transfer, buf.len());
        transfer
    }
}
