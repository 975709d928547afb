//! The messages that a client sends, as bytes.

use crate::kind::{BLOCK, Kind};
use cs_wire::{TBody, TMessage, encode_request};
use std::alloc::{AllocError, Global};
use std::io;

/// The fid on the root of the run.
const ROOT: u32 = 0;

/// The fid of the client's own file, open for reading and writing.
const OPEN: u32 = 1;

/// A fid of the client's own file.
const FILE: u32 = 2;

/// The fid that a work makes and lets go.
const PASSING: u32 = 3;

/// Reading and writing, as the low bits of an open's mode.
const READ_WRITE: u8 = 2;

/// The bytes of a write.
static WRITTEN: [u8; BLOCK as usize] = [7; BLOCK as usize];

/// The bytes of a message.
fn spelled(alloc: Global, body: TBody<'_>) -> io::Result<Vec<u8>> {
    let message = TMessage { tag: 1, body };
    if !message.fits() {
        return Err(io::Error::from(io::ErrorKind::InvalidInput));
    }
    let mut bytes = Vec::new(alloc);
    encode_request(&message, &mut bytes)?;
    Ok(bytes)
}

fn walk(alloc: Global, newfid: u32, name: Option<String>) -> Result<TBody<'static>, AllocError> {
    let mut wname = Vec::new(alloc);
    if let Some(name) = name {
        wname.push(name)?;
    }
    Ok(TBody::Walk {
        fid: ROOT,
        newfid,
        wname,
    })
}

fn create(fid: u32, name: String) -> TBody<'static> {
    TBody::Create {
        fid,
        name,
        perm: 0o644,
        mode: READ_WRITE,
    }
}

fn write() -> TBody<'static> {
    TBody::Write {
        fid: OPEN,
        offset: 0,
        data: &WRITTEN,
    }
}

fn read(fid: u32) -> TBody<'static> {
    TBody::Read {
        fid,
        offset: 0,
        count: BLOCK,
    }
}

/// A new session.
fn version(alloc: Global) -> Result<TBody<'static>, AllocError> {
    Ok(TBody::Version {
        msize: 65_536,
        version: String::from_str(alloc, "9P2000")?,
    })
}

/// Ann attaches to the run of that number of the state 0.
fn attach(alloc: Global, run: u32) -> Result<TBody<'static>, AllocError> {
    Ok(TBody::Attach {
        fid: ROOT,
        afid: u32::MAX,
        uname: String::from_str(alloc, "ann")?,
        aname: format!(in alloc; "0/r{run}")?,
    })
}

fn spell_all(alloc: Global, bodies: Vec<TBody<'_>>) -> io::Result<Vec<Vec<u8>>> {
    let mut all = Vec::new(alloc);
    for body in bodies {
        all.push(spelled(alloc, body)?)?;
    }
    Ok(all)
}

/// What a client sends before a work: it begins a session, attaches to a run, and makes its own
/// file, of one block.
pub fn joining(alloc: Global, client: u32, run: u32) -> io::Result<Vec<Vec<u8>>> {
    let name = format!(in alloc; "c{client}")?;
    let mut bodies = Vec::new(alloc);
    bodies.push(version(alloc)?)?;
    bodies.push(attach(alloc, run)?)?;
    bodies.push(walk(alloc, OPEN, None)?)?;
    bodies.push(create(OPEN, name.clone()?))?;
    bodies.push(write())?;
    bodies.push(walk(alloc, FILE, Some(name))?)?;
    spell_all(alloc, bodies)
}

/// A walk to the client's own file, an open, a read of a block, and a clunk.
fn push_opens(
    alloc: Global,
    client: u32,
    bodies: &mut Vec<TBody<'static>>,
) -> Result<(), AllocError> {
    let name = format!(in alloc; "c{client}")?;
    bodies.push(walk(alloc, PASSING, Some(name))?)?;
    bodies.push(TBody::Open {
        fid: PASSING,
        mode: 0,
    })?;
    bodies.push(read(PASSING))?;
    bodies.push(TBody::Clunk { fid: PASSING })?;
    Ok(())
}

/// A walk of no name, a create, and a remove.
fn push_creates(
    alloc: Global,
    client: u32,
    bodies: &mut Vec<TBody<'static>>,
) -> Result<(), AllocError> {
    let name = format!(in alloc; "t{client}")?;
    bodies.push(walk(alloc, PASSING, None)?)?;
    bodies.push(create(PASSING, name))?;
    bodies.push(TBody::Remove { fid: PASSING })?;
    Ok(())
}

/// What a client sends for one work, again and again.
pub fn working(alloc: Global, kind: Kind, client: u32) -> io::Result<Vec<Vec<u8>>> {
    let mut bodies = Vec::new(alloc);
    match kind {
        Kind::Stats => bodies.push(TBody::Stat { fid: FILE })?,
        Kind::Reads => bodies.push(read(OPEN))?,
        Kind::Writes => bodies.push(write())?,
        Kind::Opens => push_opens(alloc, client, &mut bodies)?,
        Kind::Creates => push_creates(alloc, client, &mut bodies)?,
        Kind::Mixed => {
            bodies.push(TBody::Stat { fid: FILE })?;
            bodies.push(read(OPEN))?;
            bodies.push(write())?;
            push_opens(alloc, client, &mut bodies)?;
        }
    }
    spell_all(alloc, bodies)
}
