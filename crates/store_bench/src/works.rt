//! The works that are timed.

use crate::store::Store;
use crate::subject::{Subject, names};
use cs_bench::Work;
use cs_names::Name;
use cs_tree_model::TreeStore;
use std::alloc::Global;

/// Each name is looked up, `rounds` times.
#[derive(Drop)]
pub struct LookUps<'a, S> {
    pub files: &'a S,
    pub names: &'a [Name],
    pub rounds: u64,
}

/// How many of the names are found.
fn count_found<S: Subject>(files: &S, names: &[Name]) -> u64 {
    let mut found = 0u64;
    for name in names {
        if files.look_up(name).is_some() {
            found = found.wrapping_add(1);
        }
    }
    found
}

impl<S: Subject> Work for LookUps<'_, S> {
    /// Returns how many look-ups found a file.
    fn run(&mut self, _alloc: Global) -> u64 {
        let mut done = 0u64;
        for _ in 0..self.rounds {
            done = done.wrapping_add(count_found(self.files, self.names));
        }
        done
    }
}

/// The root is listed from its first entry to its last.
#[derive(Drop)]
pub struct Listing<'a, S> {
    pub files: &'a S,
}

impl<S: Subject> Work for Listing<'_, S> {
    /// Returns how many entries were listed.
    fn run(&mut self, _alloc: Global) -> u64 {
        self.files.list()
    }
}

/// `count` reads of a file; each begins `step` bytes after the one before.
#[derive(Drop)]
pub struct Reads<'a, S> {
    pub files: &'a S,
    pub number: u64,
    pub bytes: usize,
    pub step: u64,
    pub count: u64,
}

impl<S: Subject> Work for Reads<'_, S> {
    /// Returns how many reads succeeded.
    fn run(&mut self, alloc: Global) -> u64 {
        let mut done = 0u64;
        for read in 0..self.count {
            let offset = read.wrapping_mul(self.step);
            let bytes = self.files.read(alloc, self.number, offset, self.bytes);
            done = done.wrapping_add(u64::from(bytes.is_some()));
        }
        done
    }
}

/// A file of each name is made and removed.
#[derive(Drop)]
pub struct Changes<'a, S> {
    pub files: &'a mut S,
    pub names: &'a [Name],
}

impl<S: Subject> Work for Changes<'_, S> {
    /// Returns how many files were made and removed.
    fn run(&mut self, alloc: Global) -> u64 {
        let mut done = 0u64;
        for name in self.names {
            if let Some(number) = self.files.make(alloc, name) {
                let gone = self.files.delete(alloc, number);
                done = done.wrapping_add(u64::from(gone.is_some()));
            }
        }
        done
    }
}

/// Writes the bytes to a file `count` times, each time after those before. Returns how many writes
/// succeeded.
pub fn put_each<S: Subject>(
    alloc: Global,
    files: &mut S,
    number: u64,
    bytes: &[u8],
    count: u64,
) -> u64 {
    let mut done = 0u64;
    for piece in 0..count {
        let offset = piece.wrapping_mul(bytes.len() as u64);
        if files.put(alloc, number, offset, bytes).is_some() {
            done = done.wrapping_add(1);
        }
    }
    done
}

/// Bytes are written over those of a file `count` times, one piece after the other.
#[derive(Drop)]
pub struct Writes<'a, S> {
    pub files: &'a mut S,
    pub number: u64,
    pub bytes: &'a [u8],
    pub count: u64,
}

impl<S: Subject> Work for Writes<'_, S> {
    /// Returns how many writes succeeded.
    fn run(&mut self, alloc: Global) -> u64 {
        put_each(alloc, self.files, self.number, self.bytes, self.count)
    }
}

/// Bytes are appended `count` times to a file that is made for it and removed again.
#[derive(Drop)]
pub struct Appends<'a, S> {
    files: &'a mut S,
    name: Name,
    bytes: Vec<u8>,
    count: u64,
}

impl<'a, S> Appends<'a, S> {
    /// Appends of `piece` bytes each, up to `all` bytes.
    pub fn new(
        alloc: Global,
        files: &'a mut S,
        piece: usize,
        all: usize,
    ) -> Option<Appends<'a, S>> {
        let name = names(alloc, 90_000, 1, 1)?.pop()?;
        let bytes = vec![in alloc; 7u8; piece].ok()?;
        let count = (all / piece.max(1)) as u64;
        Some(Appends {
            files,
            name,
            bytes,
            count,
        })
    }
}

impl<S: Subject> Work for Appends<'_, S> {
    /// Returns how many appends succeeded.
    fn run(&mut self, alloc: Global) -> u64 {
        let Some(number) = self.files.make(alloc, &self.name) else {
            return 0;
        };
        let done = put_each(alloc, self.files, number, &self.bytes, self.count);
        let _gone = self.files.delete(alloc, number);
        done
    }
}

/// A file is grown to a length, and cut to a block again.
#[derive(Drop)]
pub struct Resizes<'a, T> {
    pub store: &'a mut Store<T>,
    pub number: u64,
    pub length: u64,
}

impl<T: TreeStore> Work for Resizes<'_, T> {
    /// Returns 1 if both succeeded, else 0.
    fn run(&mut self, alloc: Global) -> u64 {
        let grown = self.store.resize(alloc, self.number, self.length);
        let cut = self.store.resize(alloc, self.number, 4_096);
        u64::from(grown.is_some() && cut.is_some())
    }
}
