//! The calls that are timed.

use crate::files::{DEPTH, FILE, name, user};
use cs_fids::Place;
use cs_names::Texts;
use cs_permit::{Call, ReadCall, SentBytes, StatCall, WalkCall, WriteCall};
use std::alloc::Global;

/// Bytes of a read and of a write.
pub const BLOCK: usize = 4_096;

/// Where they begin.
pub const OFFSET: u64 = 8_192;

/// A stat, a read or a write of a block of the file, or a walk of so many names.
#[derive(Clone, Copy, Debug, PartialEq, Eq)]
pub enum Kind {
    Stats,
    Reads,
    Writes,
    Walks(u64),
}

/// The size of the message of such a write, in bytes.
const MESSAGE: u64 = 4_119;

/// Two blocks, from which each write borrows its bytes.
pub fn blocks(alloc: Global) -> Option<Vec<u8>> {
    vec![in alloc; 9u8; BLOCK * 2].ok()
}

/// The bytes of a write. Those of the next write begin a message later, as on a connection: how
/// fast a processor copies depends on the two places within their pages.
fn written(blocks: &[u8], place: u64) -> Option<&[u8]> {
    let begin = (place.wrapping_mul(MESSAGE) % BLOCK as u64) as usize;
    blocks.get(begin..begin + BLOCK)
}

/// A walk of so many names from the root down.
fn walk(alloc: Global, count: u64) -> Option<Call<'static>> {
    let mut names = Vec::new(alloc);
    for depth in 1..count.min(DEPTH) + 1 {
        let name = name(alloc, depth)?;
        names.push(name.as_string().clone().ok()?).ok()?;
    }
    Some(Call::Walk(WalkCall {
        number: 0,
        user: user(alloc)?,
        names: Texts::new(names),
    }))
}

impl Kind {
    pub fn name(self) -> &'static str {
        match self {
            Kind::Stats => "stats",
            Kind::Reads => "reads of 4 kB",
            Kind::Writes => "writes of 4 kB",
            Kind::Walks(1) => "walks of 1 name",
            Kind::Walks(_) => "walks of 16 names",
        }
    }

    /// The call at a place among others. A write borrows its bytes from these blocks.
    pub fn call<'a>(self, alloc: Global, blocks: &'a [u8], place: u64) -> Option<Call<'a>> {
        match self {
            Kind::Stats => Some(Call::Stat(StatCall { number: FILE })),
            Kind::Reads => Some(Call::Read(ReadCall {
                number: FILE,
                offset: OFFSET,
                count: BLOCK as u32,
                place: Place::start(),
            })),
            Kind::Writes => Some(Call::Write(WriteCall {
                number: FILE,
                user: user(alloc)?,
                offset: OFFSET,
                bytes: SentBytes::borrow_from(written(blocks, place)?),
            })),
            Kind::Walks(count) => walk(alloc, count),
        }
    }
}
