//! What is measured: files in the root, with the same calls for a store and for std's maps.

use cs_names::Name;
use std::alloc::Global;

/// Files in the root. A call that does not do what it should returns None, also if it runs out of
/// memory.
pub trait Subject {
    /// The number of the file of that name.
    fn look_up(&self, name: &Name) -> Option<u64>;

    /// How many entries a listing has that asks for each entry by the name before it.
    fn list(&self) -> u64;

    /// Reads `count` bytes of a file, all of which it must have.
    fn read(&self, alloc: Global, number: u64, offset: u64, count: usize) -> Option<()>;

    /// Makes an empty file and returns its number.
    fn make(&mut self, alloc: Global, name: &Name) -> Option<u64>;

    /// Removes the file.
    fn delete(&mut self, alloc: Global, number: u64) -> Option<()>;

    /// Writes bytes over those of a file, or after them.
    fn put(&mut self, alloc: Global, number: u64, offset: u64, bytes: &[u8]) -> Option<()>;
}

/// `count` names of files, `file` and a number each: the numbers begin at `first` and grow by
/// `step`.
pub fn names(alloc: Global, first: u64, count: u64, step: u64) -> Option<Vec<Name>> {
    let mut names = Vec::new(alloc);
    for index in 0..count {
        let number = index.wrapping_mul(step).wrapping_add(first);
        let text = format!(in alloc; "file{number:05}").ok()?;
        names.push(Name::from_text(text).ok()?).ok()?;
    }
    Some(names)
}
