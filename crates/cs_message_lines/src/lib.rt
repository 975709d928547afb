//! Requests and replies as lines of text, for people.
#![tactic(auto)]

use cs_wire::{TMessage, WireFault};
use std::fmt;
use std::io::Write;

/// Prints one line: the connection's number, the arrow, and what is shown: a request or a reply, or
/// why its bytes are neither. A failed write is ignored.
fn print_one<M: fmt::Display, E: Write>(
    conn: u32,
    arrow: &str,
    shown: &Result<M, WireFault>,
    err: &mut E,
) {
    let _unheard = match shown {
        Ok(message) => writeln!(err, "{conn} {arrow} {message}"),
        Err(fault) => writeln!(err, "{conn} {arrow} no message: {fault}"),
    };
}

/// Prints a connection's request and its reply as two lines of text, with the connection's number
/// and `<-` or `->` before them. A failed write is ignored. For bytes that aren't a message, also
/// because memory ran out for it, the fault is printed.
pub fn print_exchange<R: fmt::Display, E: Write>(
    conn: u32,
    request: &Result<TMessage<'_>, WireFault>,
    reply: &Result<R, WireFault>,
    err: &mut E,
) {
    print_one(conn, "<-", request, err);
    print_one(conn, "->", reply, err);
}
