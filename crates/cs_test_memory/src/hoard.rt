//! All memory that the process can have, held so that a growth is refused.
ghost use Rattle.std.specs.Prelude.{◌<◌, ◌^◌};

use std::alloc::{AllocError, Global};

/// How many blocks a hoard may hold of each sort.
const PLACES: usize = 1 << 19;

/// The most bytes that a closed hoard leaves.
pub const GAP: usize = 1 << 18;

/// What an open hoard leaves at least.
const AMPLE: usize = 1 << 24;

/// Blocks that are given back one after the other, if what is free is in pieces.
const SPARES: usize = 64;

const SPARE: usize = 1 << 21;

/// All memory of the process but what it leaves. It holds address space and no pages, since no
/// block is ever written. It serves in a process of one thread, on Linux with GNU's C library, if
/// the kernel lends more memory than there is (`vm.overcommit_memory` 0 or 1).
#[derive(Drop)]
pub struct Hoard {
    /// Held as long as the hoard is there.
    far: Vec<Vec<u8>>,
    /// Held while it is closed.
    near: Vec<Vec<u8>>,
    spares: Vec<Vec<u8>>,
    filler: Vec<u8>,
}

/// Takes blocks of that size until one is refused.
fn take_all(alloc: Global, held: &mut Vec<Vec<u8>>, size: usize)
    requires { size < 2 ^ 62 }
{
    for _ in 0..PLACES {
        if held.len() == held.capacity() {
            return;
        }
        let Ok(block) = Vec::<u8>::with_capacity(alloc, size) else {
            return;
        };
        if held.push(block).is_err() {
            return;
        }
    }
}

/// Takes all blocks of 2 to the powers from `most` down to `least`.
fn take_powers(alloc: Global, held: &mut Vec<Vec<u8>>, most: u32, least: u32) {
    for down in 0..64u32 {
        let power = most.saturating_sub(down);
        if power < least {
            return;
        }
        let size = 1usize.wrapping_shl(power);
        if size < 1usize << 60 {
            take_all(alloc, held, size);
        }
    }
}

/// Takes the blocks that malloc keeps aside by their sizes.
fn take_scraps(alloc: Global, held: &mut Vec<Vec<u8>>) {
    for k in 0..68usize {
        take_all(alloc, held, 1096 - k * 16);
    }
}

impl Hoard {
    /// Takes all there is but what an open hoard leaves.
    pub fn new(alloc: Global) -> Result<Hoard, AllocError> {
        let mut far = Vec::with_capacity(alloc, PLACES)?;
        let near = Vec::with_capacity(alloc, PLACES)?;
        let mut spares = Vec::with_capacity(alloc, SPARES)?;
        for _ in 0..SPARES {
            spares.push(Vec::with_capacity(alloc, SPARE)?)?;
        }
        // Once so large a block was given back, malloc keeps smaller ones to itself, the gap too.
        let ample = Vec::<u8>::with_capacity(alloc, AMPLE)?;
        take_powers(alloc, &mut far, 46, 20);
        drop(ample);
        Ok(Hoard {
            far,
            near,
            spares,
            filler: Vec::new(alloc),
        })
    }

    /// Leaves ample memory.
    pub fn open(&mut self, alloc: Global) {
        self.near.clear();
        self.filler = Vec::new(alloc);
    }

    /// A block of the gap's size, of what is free or of spare blocks.
    fn gap(&mut self, alloc: Global) -> Result<Vec<u8>, AllocError> {
        for _ in 0..SPARES {
            if let Ok(gap) = Vec::with_capacity(alloc, GAP) {
                return Ok(gap);
            }
            drop(self.spares.pop());
        }
        Vec::with_capacity(alloc, GAP)
    }

    /// Leaves about so many bytes, GAP at most: of the growths to come, the first that finds no
    /// place in them is refused.
    pub fn close(&mut self, alloc: Global, bytes: usize) -> Result<(), AllocError> {
        self.open(alloc);
        // The rest is taken while the gap is held; else it would take that too.
        let gap = self.gap(alloc)?;
        take_powers(alloc, &mut self.near, 24, 4);
        take_scraps(alloc, &mut self.near);
        drop(gap);
        self.filler = Vec::with_capacity(alloc, GAP.saturating_sub(bytes))?;
        Ok(())
    }
}
