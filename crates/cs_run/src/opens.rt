//! The opens of a run, as one list. Their blocks are in `blocks`.
ghost use Rattle.std.specs.Prelude.{◌≡◌, ◌<◌, [], ◌∷◌, ◌++◌, length, OnOk};
ghost use Rattle.cs_permit.specs.Opens.{is_open};
ghost use Rattle.cs_run.specs.Opens.{AreBelow, open_numbered, opens_without, opens_without_if};

use crate::blocks::{
    first_block_on_file, open_at, open_place_of, push_last, remove_open, widen_last,
};
use cs_permit::OpenFile;
use std::alloc::{AllocError, Global};
use std::marker::Model;

/// The opens of a run, in ascending order of their numbers, which are all different. Contracts see
/// their list, and the room for more.
#[derive(Drop)]
pub struct Opens {
    /// The opens in blocks, one after another. Only the last block may be empty.
    blocks: Vec<Vec<OpenFile>>,
    /// How many opens the blocks have in all.
    count: usize,
}

impl Model for Opens {
    ghost use Rattle.cs_run.specs.Blocks.{InBlocks, all_opens, last_room};
    ghost use Rattle.cs_run.specs.Opens.{OpensKept};

    ghost Value = { OpensKept };

    ghost view = { λ o. record {
      items = all_opens o.blocks.items;
      room = last_room o.blocks.items;
    } };

    ghost invariant = { λ o. InBlocks o.blocks.items o.count };
}

impl Opens {
    /// An empty list of opens.
    pub fn new(alloc: Global) -> Opens
        ensures { result.items ≡ [] }
    {
        Opens {
            blocks: Vec::new(alloc),
            count: 0,
        }
    }

    /// How many opens there are.
    pub fn len(&self) -> usize
        ensures { result ≡ length self.now.items }
    {
        self.count
    }

    /// A part of the opens, in which one is on that file exactly if any open of the run is; empty
    /// if none is. It may have opens on other files.
    pub(crate) fn block_on_file(&self, file: u64) -> &[OpenFile]
        ensures { is_open result.now file ≡ is_open self.now.items file }
    {
        first_block_on_file(self.blocks.as_slice(), file)
    }

    /// The open of that number and pass; None if no open has both.
    pub fn get(&self, number: u32, pass: u32) -> Option<OpenFile>
        ensures { result ≡ open_numbered number pass self.now.items }
    {
        let place = open_place_of(self.blocks.as_slice(), number, pass)?;
        Some(open_at(self.blocks.as_slice(), place))
    }

    /// Makes room for one more open, which `add` needs. The error is out of memory; the opens stay
    /// as they were.
    pub fn reserve(&mut self) -> Result<(), AllocError>
        ensures opens { self.new.items ≡ self.old.items }
        ensures room { OnOk result (0 < self.new.room) }
    {
        widen_last(&mut self.blocks)
    }

    /// Adds an open, whose number is above all others, into the room that `reserve` made.
    pub fn add(&mut self, opened: OpenFile)
        requires room { 0 < self.old.room }
        requires above { AreBelow opened.number self.old.items }
        ensures { self.new.items ≡ self.old.items ++ opened ∷ [] }
    {
        push_last(&mut self.blocks, opened);
        self.count += 1;
    }

    /// Removes the open of that number and pass, and returns it. None if no open has both; then all
    /// opens stay.
    pub fn release(&mut self, number: u32, pass: u32) -> Option<OpenFile>
        ensures value { result ≡ open_numbered number pass self.old.items }
        ensures opens { self.new.items ≡ opens_without number pass self.old.items }
    {
        let place = open_place_of(self.blocks.as_slice(), number, pass)?;
        self.count -= 1;
        Some(remove_open(&mut self.blocks, place))
    }

    /// Removes the open of that number and pass, if `number` is Some and there is such an open;
    /// else all opens stay.
    pub(crate) fn release_if(&mut self, number: Option<u32>, pass: u32)
        ensures { self.new.items ≡ opens_without_if number pass self.old.items }
    {
        if let Some(number) = number {
            // whether there was such an open makes no difference
            let _open = self.release(number, pass);
        }
    }
}
