//! The messages that are timed.

use crate::messages::{spelled, walk};
use cs_wire::TBody;
use std::alloc::Global;

/// How many bytes a read and a write have.
const BLOCK: u32 = 4_096;

/// The bytes of a write.
const WRITTEN: [u8; BLOCK as usize] = [9; BLOCK as usize];

/// The kind of the messages that are sent again and again, on a connection with fids on the root
/// (0 and 1) and on the file (2, and 3, which is open).
#[derive(Clone, Copy, Debug, PartialEq, Eq)]
pub enum Kind {
    Stats,
    Reads,
    Writes,
    Walks,
}

impl Kind {
    pub const ALL: [Kind; 4] = [Kind::Stats, Kind::Reads, Kind::Writes, Kind::Walks];

    /// The messages in the words of a row.
    pub fn name(self) -> &'static str {
        match self {
            Kind::Stats => "stats",
            Kind::Reads => "reads of 4 kB",
            Kind::Writes => "writes of 4 kB",
            Kind::Walks => "walks of 1 name, down and up",
        }
    }

    /// One message, or two of which the second undoes the first. None if memory runs out.
    fn bodies(self, alloc: Global) -> Option<(TBody<'static>, Option<TBody<'static>>)> {
        Some(match self {
            Kind::Stats => (TBody::Stat { fid: 2 }, None),
            Kind::Reads => (
                TBody::Read {
                    fid: 3,
                    offset: 8_192,
                    count: BLOCK,
                },
                None,
            ),
            Kind::Writes => (
                TBody::Write {
                    fid: 3,
                    offset: 8_192,
                    data: &WRITTEN,
                },
                None,
            ),
            Kind::Walks => (
                walk(alloc, 1, 1, Some("d"))?,
                Some(walk(alloc, 1, 1, Some(".."))?),
            ),
        })
    }

    /// The messages as bytes. None if memory runs out.
    pub fn messages(self, alloc: Global) -> Option<Vec<Vec<u8>>> {
        let (first, second) = self.bodies(alloc)?;
        let mut all = Vec::new(alloc);
        all.push(spelled(alloc, first)?).ok()?;
        if let Some(second) = second {
            all.push(spelled(alloc, second)?).ok()?;
        }
        Some(all)
    }
}
