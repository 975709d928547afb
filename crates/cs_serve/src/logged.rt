//! A connection's stream whose messages are printed as they pass. How one is printed is in `log`.

use crate::log::Log;
use cs_wire::Framer;
use std::alloc::Global;
use std::io::{self, Read, Write};
use std::sync::Wait;

/// A stream whose messages are printed, each with its reply, once that was written. Each message
/// has one reply, and the replies are in the order of the messages.
#[derive(Drop)]
pub(crate) struct LoggedStream<'a, RW, R, E> {
    /// The stream to the client, or to a `LinuxStream`.
    stream: RW,
    /// For the lock of the log.
    rt: &'a R,
    /// For messages that are decoded.
    alloc: Global,
    /// The connection's number, with which its lines begin.
    conn: u32,
    /// A verbose log.
    log: Log<'a, E>,
    /// What was read, from the first message on that isn't printed yet.
    messages: Framer,
    /// What was written, from the first reply on that isn't whole.
    replies: Framer,
    /// Whether bytes were lost because memory ran out. Then no more is printed.
    lost: bool,
}

/// Prints each whole reply with its message, and drops both from the framers. A reply without a
/// message, which the server doesn't write, would be dropped unprinted.
fn log_each<R: Wait, E: Write>(
    rt: &R,
    alloc: Global,
    conn: u32,
    log: Log<E>,
    messages: &mut Framer,
    replies: &mut Framer,
) {
    while let Ok(Some(reply)) = replies.next() {
        if let Ok(Some(message)) = messages.next() {
            log.print_message_and_reply(rt, alloc, conn, message, reply);
        }
    }
}

impl<'a, RW, R: Wait, E: Write> LoggedStream<'a, RW, R, E> {
    /// A `LoggedStream` over `stream`, which is that of the connection `conn`. Nothing was read or
    /// written yet.
    pub(crate) fn new(
        rt: &'a R,
        alloc: Global,
        stream: RW,
        conn: u32,
        log: Log<'a, E>,
    ) -> LoggedStream<'a, RW, R, E> {
        LoggedStream {
            stream,
            rt,
            alloc,
            conn,
            log,
            messages: Framer::new(alloc),
            replies: Framer::new(alloc),
            lost: false,
        }
    }

    /// Stops printing messages for good, and prints that it does.
    fn stop_printing(&mut self) {
        self.lost = true;
        self.log.print_loss(self.rt, self.conn);
    }

    /// Takes bytes of messages that were read, unless printing has stopped. If there is no memory
    /// for them, printing stops.
    fn take_messages(&mut self, bytes: &[u8]) {
        if !self.lost && self.messages.feed(bytes).is_err() {
            self.stop_printing();
        }
    }

    /// Takes bytes of replies that were written, and prints each reply that is whole now with its
    /// message, unless printing has stopped. If there is no memory for them, printing stops.
    fn take_replies(&mut self, bytes: &[u8]) {
        if self.lost {
            return;
        }
        if self.replies.feed(bytes).is_err() {
            self.stop_printing();
            return;
        }
        log_each(
            self.rt,
            self.alloc,
            self.conn,
            self.log,
            &mut self.messages,
            &mut self.replies,
        );
    }
}

impl<RW: Read, R: Wait, E: Write> Read for LoggedStream<'_, RW, R, E> {
    /// Reads from the stream, and takes what was read. Printing changes neither result nor error.
    fn read(&mut self, buf: &mut [u8]) -> io::Result<usize> {
        let count = self.stream.read(buf)?;
        self.take_messages(&buf[..count]);
        Ok(count)
    }
}

impl<RW: Write, R: Wait, E: Write> Write for LoggedStream<'_, RW, R, E> {
    /// Writes to the stream, and prints each reply that is now written whole. Printing changes
    /// neither result nor error.
    fn write(&mut self, buf: &[u8]) -> io::Result<usize> {
        let count = self.stream.write(buf)?;
        self.take_replies(&buf[..count]);
        Ok(count)
    }

    /// Flushes the stream, whose error is returned, and prints nothing.
    fn flush(&mut self) -> io::Result<()> {
        self.stream.flush()
    }
}
