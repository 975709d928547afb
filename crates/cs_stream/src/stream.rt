//! A stream of bytes both ways, with its calls counted.
ghost use Rattle.std.specs.Prelude.{◌≡◌, ◌≤◌, ℕ, List, Option, length, OnOk, OnErr};
ghost use Rattle.std.specs.Io.KnownBytes.{Appends};
ghost use Rattle.cs_stream.specs.declared.stream.Counts.{Counts};
ghost use Rattle.cs_stream.specs.Streams.{ReadGives, WriteGives, AppendsFront, counted_read};
ghost use Rattle.cs_stream.specs.Streams.{counted_write, KeepsReads, KeepsFaults, BlamesWrites};
ghost use Rattle.cs_stream.specs.Streams.{GaveUpInTime};

use cs_names::limits::INTERRUPTIONS;

/// What a read or a write did, as read(2) and write(2) answer.
#[derive(Clone, Copy, Debug, PartialEq, Eq)]
pub enum Transfer {
    /// It moved this many bytes. If a read that had room moved none, the stream has ended.
    Bytes(usize),
    /// It was interrupted by a signal, and moved none. It may be tried again.
    Interrupted,
    /// It failed, and moved none.
    Failed,
}

/// How often a stream was called, and with which results. A count that reaches u64::MAX stays
/// there.
#[derive(Clone, Copy, Debug, PartialEq, Eq)]
pub struct Counts {
    /// Reads.
    pub reads: u64,
    /// Reads that failed.
    pub failed_reads: u64,
    /// Interrupted reads since the last read that wasn't.
    pub interrupted_reads: u64,
    /// Reads that had room and moved no byte: the stream had ended.
    pub ends: u64,
    /// Writes.
    pub writes: u64,
    /// Writes that failed.
    pub failed_writes: u64,
    /// Interrupted writes since the last write that wasn't.
    pub interrupted_writes: u64,
    /// Writes that had bytes to move and moved none.
    pub idle_writes: u64,
}

impl Counts {
    /// The counts of a stream that wasn't called yet.
    pub const NONE: Counts = Counts {
        reads: 0,
        failed_reads: 0,
        interrupted_reads: 0,
        ends: 0,
        writes: 0,
        failed_writes: 0,
        interrupted_writes: 0,
        idle_writes: 0,
    };

    /// Counts a read that had room for `room` bytes and did what `transfer` reports. A read that
    /// moves no byte counts as the stream's end only if it had room. `count_write` is its twin.
    pub fn count_read(&mut self, transfer: Transfer, room: usize)
        ensures { self.new ≡ counted_read transfer room self.old }
    {
        self.reads = self.reads.saturating_add(1);
        match transfer {
            Transfer::Bytes(count) => {
                self.interrupted_reads = 0;
                if count == 0 && room > 0 {
                    self.ends = self.ends.saturating_add(1);
                }
            }
            Transfer::Interrupted => {
                self.interrupted_reads = self.interrupted_reads.saturating_add(1);
            }
            Transfer::Failed => {
                self.interrupted_reads = 0;
                self.failed_reads = self.failed_reads.saturating_add(1);
            }
        }
    }

    /// Counts a write that was given `bytes` bytes and did what `transfer` reports. A write that
    /// moves no byte counts as idle only if it was given some. `count_read` is its twin.
    pub fn count_write(&mut self, transfer: Transfer, bytes: usize)
        ensures { self.new ≡ counted_write transfer bytes self.old }
    {
        self.writes = self.writes.saturating_add(1);
        match transfer {
            Transfer::Bytes(count) => {
                self.interrupted_writes = 0;
                if count == 0 && bytes > 0 {
                    self.idle_writes = self.idle_writes.saturating_add(1);
                }
            }
            Transfer::Interrupted => {
                self.interrupted_writes = self.interrupted_writes.saturating_add(1);
            }
            Transfer::Failed => {
                self.interrupted_writes = 0;
                self.failed_writes = self.failed_writes.saturating_add(1);
            }
        }
    }
}

/// A stream of bytes both ways that counts its calls. Contracts may know its bytes, or not (None).
pub trait Stream {
    /// The bytes that reads will give from here on, if they are known.
    ghost remaining: { Self → Option (List ℕ) };

    /// The bytes that writes have taken, if they are known.
    ghost contents: { Self → Option (List ℕ) };

    /// The counts of its calls so far.
    ghost counts: { Self → Counts };

    /// Reads bytes into the front of `buf`, at most as many as fit, and counts the read, even if it
    /// fails. Bytes(0) means that the stream has ended, unless `buf` is empty. After another answer
    /// than Bytes the content of `buf` means nothing.
    fn read(&mut self, buf: &mut [u8]) -> Transfer
        ensures bytes { ReadGives (remaining self.old) (remaining self.new) result buf.new }
        ensures contents { contents self.new ≡ contents self.old }
        ensures counted { counts self.new
            ≡ counted_read result (length buf.old) (counts self.old) };

    /// Writes some of the bytes, from the front and perhaps none, and counts the write, even if it
    /// fails.
    fn write(&mut self, buf: &[u8]) -> Transfer
        ensures bytes { WriteGives (contents self.old) (contents self.new) result buf.now }
        ensures remaining { remaining self.new ≡ remaining self.old }
        ensures counted { counts self.new
            ≡ counted_write result (length buf.now) (counts self.old) };
}

/// Why not all bytes were written: a write failed, took no byte, or INTERRUPTIONS writes in a row
/// were interrupted. Which of these it was, the stream's counts show.
#[derive(Clone, Copy, Debug, PartialEq, Eq)]
pub struct WriteFault;

/// Writes all of the bytes; if there are none, it makes no write. It fails if a write fails or
/// takes no byte. An interrupted write is tried again, but INTERRUPTIONS of them in a row within
/// this call are a fault. After a fault some bytes, from the front, may have been written; how many
/// isn't known. It makes no read.
pub fn write_all<S: Stream>(stream: &mut S, bytes: &[u8]) -> Result<(), WriteFault>
    ensures ok { OnOk result (Appends (S.contents stream.old) (S.contents stream.new) bytes.now) }
    ensures err { OnErr result
        (AppendsFront (S.contents stream.old) (S.contents stream.new) bytes.now) }
    ensures blamed { OnErr result (BlamesWrites (S.counts stream.old) (S.counts stream.new)) }
    ensures in_time { GaveUpInTime (S.counts stream.old).interrupted_writes
        (S.counts stream.new).interrupted_writes }
    ensures no_row { OnOk result
        ((S.counts stream.new).interrupted_writes ≤ (S.counts stream.old).interrupted_writes) }
    ensures faults { KeepsFaults (S.counts stream.old) (S.counts stream.new) }
    ensures remaining { S.remaining stream.new ≡ S.remaining stream.old }
    ensures reads { KeepsReads (S.counts stream.old) (S.counts stream.new) }
{
    let mut rest = bytes;
    let mut waits = 0;
    while !rest.is_empty() {
        match stream.write(rest) {
            Transfer::Bytes(0) => return Err(WriteFault),
            Transfer::Bytes(count) => {
                let (_, after) = rest.split_at(count);
                rest = after;
                waits = 0;
            }
            Transfer::Interrupted => {
                waits += 1;
                if waits >= INTERRUPTIONS {
                    return Err(WriteFault);
                }
            }
            Transfer::Failed => return Err(WriteFault),
        }
    }
    Ok(())
}
