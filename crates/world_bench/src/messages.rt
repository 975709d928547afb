//! Messages as bytes, and how they are sent.

use cs_names::limits::CONNECTIONS;
use cs_wire::{RBody, RMessage, TBody, TMessage, encode_reply, encode_request};
use cs_world::World;
use std::alloc::Global;

/// The bytes of a message. None if it has no spelling, or memory runs out.
pub fn spelled(alloc: Global, body: TBody<'_>) -> Option<Vec<u8>> {
    let message = TMessage { tag: 1, body };
    if !message.fits() {
        return None;
    }
    let mut bytes = Vec::new(alloc);
    encode_request(&message, &mut bytes).ok()?;
    Some(bytes)
}

/// Sends a message on a connection, and encodes its reply in a buffer that is reused. None if it is
/// denied.
pub fn send_on(
    alloc: Global,
    world: &mut World,
    conn: u32,
    bytes: &[u8],
    out: &mut Vec<u8>,
) -> Option<()> {
    if bytes.len() < 7 || conn >= CONNECTIONS {
        return None;
    }
    let reply = world.message(alloc, conn, 1, bytes);
    if let RBody::Error { .. } = reply.body {
        return None;
    }
    out.clear();
    encode_reply(&reply, out).ok()
}

/// Sends a message on the connection 0.
pub fn send(alloc: Global, world: &mut World, bytes: &[u8], out: &mut Vec<u8>) -> Option<()> {
    send_on(alloc, world, 0, bytes, out)
}

/// Sends a message with this body on the connection 0.
pub fn ask(alloc: Global, world: &mut World, body: TBody<'_>, out: &mut Vec<u8>) -> Option<()> {
    let bytes = spelled(alloc, body)?;
    send(alloc, world, &bytes, out)
}

/// A walk of one name, or of none. None if memory runs out.
pub fn walk(alloc: Global, fid: u32, newfid: u32, name: Option<&str>) -> Option<TBody<'static>> {
    let mut wname = Vec::new(alloc);
    if let Some(name) = name {
        wname.push(String::from_str(alloc, name).ok()?).ok()?;
    }
    Some(TBody::Walk { fid, newfid, wname })
}

/// A version that begins a session of 65,536 bytes. None if memory runs out.
pub fn version(alloc: Global) -> Option<TBody<'static>> {
    Some(TBody::Version {
        msize: 65_536,
        version: String::from_str(alloc, "9P2000").ok()?,
    })
}

/// An attach of ann to the tree of that name. None if memory runs out.
pub fn attach(alloc: Global, fid: u32, aname: &str) -> Option<TBody<'static>> {
    Some(TBody::Attach {
        fid,
        afid: u32::MAX,
        uname: String::from_str(alloc, "ann").ok()?,
        aname: String::from_str(alloc, aname).ok()?,
    })
}

/// Adds a message's bytes to the messages. None if there is no message, or memory runs out.
pub fn push(alloc: Global, all: &mut Vec<Vec<u8>>, body: Option<TBody<'_>>) -> Option<()> {
    let bytes = spelled(alloc, body?)?;
    all.push(bytes).ok()
}

/// Adds the messages that begin a session. They are added to a list of the caller, so that nothing
/// is dropped at an early return.
fn push_opening(alloc: Global, all: &mut Vec<Vec<u8>>) -> Option<()> {
    push(alloc, all, version(alloc))?;
    push(alloc, all, attach(alloc, 0, "0/x"))?;
    push(alloc, all, walk(alloc, 0, 1, None))?;
    push(alloc, all, walk(alloc, 0, 2, Some("f")))?;
    push(alloc, all, walk(alloc, 2, 3, None))?;
    push(alloc, all, Some(TBody::Open { fid: 3, mode: 2 }))
}

/// The messages that begin a session, with fids on the root (0 and 1) and on the file (2, and 3,
/// which is open).
pub fn opening(alloc: Global) -> Option<Vec<Vec<u8>>> {
    let mut all = Vec::new(alloc);
    push_opening(alloc, &mut all)?;
    Some(all)
}
