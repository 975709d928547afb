//! A server that does no work, except that it may keep what is written: it answers each message
//! with a fixed reply of the right type and size.
ghost use Rattle.std.specs.Prelude.{◌≤◌, length, IfOk};

use crate::keeping::{Keeping, Kept};
use crate::link::{Link, MESSAGE};
use cs_wire::Framer;
use std::alloc::Global;
use std::io::{self, Write};
use std::net::{TcpListener, TcpStream};
use std::sync::Wait;
use std::thread;
use std::thread::Threads;

/// Bytes of the fields of an Rstat: of a file with a name of 2 bytes and users of 3, 5 and 3.
const STAT: usize = 64;

fn half_at(message: &[u8], at: usize) -> usize {
    match message.get(at..at.saturating_add(2)) {
        Some([low, high]) => usize::from(u16::from_le_bytes([*low, *high])),
        _ => 0,
    }
}

/// Bytes of the fields of the reply to a message.
fn fields(message: &[u8]) -> usize
    ensures { result ≤ 65529 }
{
    match message.get(4) {
        Some(100) => 12,
        Some(104) => 13,
        Some(110) => 2 + 13 * half_at(message, 15).min(16),
        Some(112 | 114) => 17,
        Some(116) => 4 + half_at(message, 19).min(65_525),
        Some(118) => 4,
        Some(124) => STAT,
        _ => 0,
    }
}

/// Puts the head of the reply to a message, and leaves its fields as they are: its size.
fn answer(message: &[u8], out: &mut [u8]) -> usize
    requires { 65536 ≤ length out.old }
    ensures { result ≤ 65536 }
{
    let size = fields(message) + 7;
    out[..4].copy_from_slice(&(size as u32).to_le_bytes());
    if let Some([kind, low, high]) = message.get(4..7) {
        out[4..7].copy_from_slice(&[kind.wrapping_add(1), *low, *high]);
    }
    size
}

/// Keeps and answers whole messages that have come while there is room for a reply: the bytes of
/// the replies.
fn answer_some(
    alloc: Global,
    framer: &mut Framer,
    kept: &mut Kept,
    out: &mut [u8],
) -> io::Result<usize>
    ensures { IfOk result (λ filled. filled ≤ length out.old) }
{
    let mut filled = 0;
    for _ in 0..MESSAGE {
        if out.len() - filled < MESSAGE {
            break;
        }
        match framer.next() {
            Err(_) => return Err(io::Error::from(io::ErrorKind::InvalidData)),
            Ok(None) => break,
            Ok(Some(message)) => {
                kept.keep(alloc, message)?;
                filled += answer(message, &mut out[filled..]);
            }
        }
    }
    Ok(filled)
}

/// Answers all messages that have come, and writes the replies that are ready in one write.
fn answer_all(alloc: Global, link: &mut Link, kept: &mut Kept, out: &mut [u8]) -> io::Result<()> {
    for _ in 0..MESSAGE {
        let filled = answer_some(alloc, &mut link.framer, kept, out)?;
        if filled == 0 {
            break;
        }
        link.stream.write_all(&out[..filled])?;
    }
    Ok(())
}

/// Serves a connection to its end.
fn serve(alloc: Global, stream: TcpStream, keeping: Keeping) -> io::Result<()> {
    let mut link = Link::new(alloc, stream)?;
    let mut kept = Kept::new(alloc, keeping);
    let mut out = vec![in alloc; 0u8; 2 * MESSAGE]?;
    for _ in 0..u64::MAX {
        if !link.read()? {
            break;
        }
        answer_all(alloc, &mut link, &mut kept, out.as_mut_slice())?;
    }
    Ok(())
}

/// Accepts so many connections, and serves each in a separate thread, to its end.
pub fn serve_each<R: Threads + Wait + Sync>(
    rt: &R,
    alloc: Global,
    listener: &TcpListener,
    connections: u32,
    keeping: Keeping,
) -> io::Result<()> {
    thread::scope(thread::scope_env(), rt, |scope| -> io::Result<()> {
        for _ in 0..connections {
            let (stream, _from) = listener.accept()?;
            let thread = scope.spawn(move || {
                // a connection that ends by a fault has ended as well
                let _ended = serve(alloc, stream, keeping);
            });
            if thread.is_err() {
                return Err(io::Error::from(io::ErrorKind::OutOfMemory));
            }
        }
        Ok(())
    })
}
