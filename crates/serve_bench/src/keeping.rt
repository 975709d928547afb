//! What a server that does no other work does with the bytes of writes: the least that a journal
//! could cost.

use std::alloc::{AllocError, Global};

/// Bytes of a large block: 8 MiB.
const LARGE: usize = 8_388_608;

/// Where the bytes of a message's data begin: after its size, type, tag, fid, offset and count.
const DATA: usize = 23;

/// Where the bytes of writes go.
#[derive(Clone, Copy, Debug, PartialEq, Eq)]
pub enum Keeping {
    /// Nowhere.
    Nothing,
    /// Those of each write into a separate block.
    Blocks,
    /// Into blocks of 8 MiB, one after the other.
    LargeBlocks,
}

impl Keeping {
    pub const ALL: [Keeping; 3] = [Keeping::Nothing, Keeping::Blocks, Keeping::LargeBlocks];

    pub fn name(self) -> &'static str {
        match self {
            Keeping::Nothing => "one that forgets",
            Keeping::Blocks => "one that keeps blocks",
            Keeping::LargeBlocks => "one that keeps large blocks",
        }
    }

    /// That of a word on the command line.
    pub fn of(word: &str) -> Keeping {
        match word {
            "blocks" => Keeping::Blocks,
            "large" => Keeping::LargeBlocks,
            _ => Keeping::Nothing,
        }
    }
}

/// The bytes of the writes that came on a connection.
#[derive(Drop)]
pub struct Kept {
    keeping: Keeping,
    blocks: Vec<Vec<u8>>,
}

/// The bytes that a message writes; none of another message.
fn written(message: &[u8]) -> Option<&[u8]> {
    if message.get(4).copied() == Some(118) {
        message.get(DATA..)
    } else {
        None
    }
}

impl Kept {
    /// Nothing was written yet.
    pub fn new(alloc: Global, keeping: Keeping) -> Kept {
        Kept {
            keeping,
            blocks: Vec::new(alloc),
        }
    }

    /// A new block, with room for so many bytes, that begins with these.
    fn begin(&mut self, alloc: Global, room: usize, bytes: &[u8]) -> Result<(), AllocError> {
        let mut block = Vec::with_capacity(alloc, room)?;
        block.extend_from_slice(bytes)?;
        self.blocks.push(block)?;
        Ok(())
    }

    /// Puts the bytes after those that came before, in a new block if the last has no room for
    /// them.
    fn append(&mut self, alloc: Global, bytes: &[u8]) -> Result<(), AllocError> {
        if let Some(block) = self.blocks.last_mut() {
            if block.len().saturating_add(bytes.len()) <= LARGE {
                return block.extend_from_slice(bytes);
            }
        }
        self.begin(alloc, LARGE, bytes)
    }

    /// Keeps the bytes of a message, if it is a write.
    pub fn keep(&mut self, alloc: Global, message: &[u8]) -> Result<(), AllocError> {
        let Some(bytes) = written(message) else {
            return Ok(());
        };
        match self.keeping {
            Keeping::Nothing => Ok(()),
            Keeping::Blocks => self.begin(alloc, bytes.len(), bytes),
            Keeping::LargeBlocks => self.append(alloc, bytes),
        }
    }
}
