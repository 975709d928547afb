//! The lines that `serve` prints on standard error, each by a function of `Log`.

use cs_inputs::ProgramFault;
use cs_message_lines::print_exchange;
use cs_session::ServeFault;
use cs_wire::{
    FrameFault, RBody, RMessage, TBody, TMessage, WireFault, decode_reply, decode_request,
};
use std::alloc::{AllocError, Global};
use std::fmt;
use std::io::{self, Write};
use std::net::SocketAddr;
use std::sync::{Mutex, Wait};

/// Prints lines to a writer that threads share. Its lock is held only while lines that belong
/// together are written; then they are flushed. A line that can't be written is dropped.
pub(crate) struct Log<'a, E> {
    /// Standard error. Its lock is taken last: nothing else is locked while it is held.
    pub(crate) writer: &'a Mutex<E>,
    /// Whether it also prints connections, their messages, and that all states are published.
    pub(crate) verbose: bool,
    /// Whether it also prints how many states are published so far.
    pub(crate) progress: bool,
}

impl<E> Clone for Log<'_, E> {
    /// The same log; it never fails.
    fn clone(&self) -> Result<Self, AllocError> {
        Ok(*self)
    }
}

impl<E> Copy for Log<'_, E> {}

/// The user and the run's key of an attach that was granted, as its message has them: a key has
/// only one spelling, so the message's is the run's. None for any other message, and for an attach
/// that was refused.
fn granted_attach<'a>(
    message: &'a Result<TMessage<'_>, WireFault>,
    reply: &Result<RMessage, WireFault>,
) -> Option<(&'a str, &'a str)> {
    match (message, reply) {
        (
            Ok(
                TMessage {
                    body: TBody::Attach { uname, aname, .. },
                    ..
                },
            ),
            Ok(
                RMessage {
                    body: RBody::Attach { .. },
                    ..
                },
            ),
        ) => Some((uname.as_str(), aname.as_str())),
        _ => None,
    }
}

impl<E: Write> Log<'_, E> {
    /// Prints the line and a line feed, and flushes. A line that can't be written is dropped.
    fn print(&self, rt: &impl Wait, line: &impl fmt::Display) {
        let mut writer = self.writer.lock(rt);
        let _unheard = writeln!(&mut *writer, "{line}");
        let _unheard = writer.flush();
    }

    /// Prints a fault as a line, after `crashfs: `, also if the log isn't verbose.
    pub(crate) fn print_fault(&self, rt: &impl Wait, fault: &impl fmt::Display) {
        self.print(rt, &format_args!("crashfs: {fault}"));
    }

    /// Prints two lines, each after `crashfs: `: that the server can't listen, and then the address
    /// with the system's reason.
    pub(crate) fn print_no_listener(&self, rt: &impl Wait, address: &str, error: &io::Error) {
        self.print_fault(rt, &ProgramFault::Listen);
        self.print_fault(rt, &format_args!("{address}: {error}"));
    }

    /// Prints that `published` of `states` are published so far, if progress is printed.
    pub(crate) fn print_progress(&self, rt: &impl Wait, published: u32, states: u32) {
        if self.progress {
            self.print(rt, &format_args!("published {published} of {states}"));
        }
    }

    /// Prints that all states are published, if the log is verbose or progress is printed.
    pub(crate) fn print_published(&self, rt: &impl Wait, states: u32) {
        if self.verbose || self.progress {
            let word = if states == 1 { "state" } else { "states" };
            self.print(rt, &format_args!("published {states} {word}"));
        }
    }

    /// Prints that a connection was accepted, and from where, if the log is verbose.
    pub(crate) fn print_accepted(&self, rt: &impl Wait, conn: u32, from: SocketAddr) {
        if self.verbose {
            self.print(rt, &format_args!("{conn} accepted from {from}"));
        }
    }

    /// Prints a message and its reply, given as bytes, and the user and the run of an attach that
    /// was granted. These lines stay together. It doesn't ask whether the log is verbose: only
    /// `LoggedStream` calls it, which `connection` makes for a verbose log only. What can't be
    /// decoded is printed as such.
    pub(crate) fn print_message_and_reply(
        &self,
        rt: &impl Wait,
        alloc: Global,
        conn: u32,
        message: &[u8],
        reply: &[u8],
    ) {
        let message = decode_request(alloc, message);
        let reply = decode_reply(alloc, reply);
        let mut writer = self.writer.lock(rt);
        print_exchange(conn, &message, &reply, &mut *writer);
        if let Some((user, run)) = granted_attach(&message, &reply) {
            let _unheard = writeln!(&mut *writer, "{conn} attached {user} to {run}");
        }
        let _unheard = writer.flush();
    }

    /// Prints that no more messages of this connection are printed, because memory ran out. The
    /// connection itself is still served. It doesn't ask whether the log is verbose: only
    /// `LoggedStream` calls it.
    pub(crate) fn print_loss(&self, rt: &impl Wait, conn: u32) {
        self.print(
            rt,
            &format_args!("{conn} is no longer logged: out of memory"),
        );
    }

    /// Prints that a connection wasn't served, as its socket couldn't be set up, if the log is
    /// verbose.
    pub(crate) fn print_not_set_up(&self, rt: &impl Wait, conn: u32) {
        if self.verbose {
            self.print(
                rt,
                &format_args!("{conn} ended: its socket cannot be set up"),
            );
        }
    }

    /// Prints how a connection ended, if the log is verbose. Else prints only that a client speaks
    /// another protocol, which is a fault; a stream that ends inside a message isn't one.
    pub(crate) fn print_end(&self, rt: &impl Wait, conn: u32, end: Result<(), ServeFault>) {
        if self.verbose {
            match end {
                Ok(()) => self.print(rt, &format_args!("{conn} ended")),
                Err(fault) => self.print(rt, &format_args!("{conn} ended: {fault}")),
            }
            return;
        }
        let Err(ServeFault::FrameFault(fault)) = end else {
            return;
        };
        if !matches!(fault, FrameFault::Cut) {
            self.print_fault(rt, &format_args!("connection {conn} is no 9P2000: {fault}"));
        }
    }
}
