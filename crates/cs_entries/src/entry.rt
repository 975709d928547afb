//! The entries of directories, as operations of a trace name them.
ghost use Rattle.std.specs.Prelude.{◌≡◌, IfOk};
ghost use Rattle.cs_entries.specs.DirEntries.{entry_of, last_name};
ghost use Rattle.cs_entries.specs.Entries.{entry_eq};

use cs_names::{Name, Path};
use std::alloc::{AllocError, Global};

/// An entry of a directory. Entries are ordered by their directories' numbers, and then by names,
/// in byte order.
#[derive(Debug, Drop, PartialEq, Eq, PartialOrd, Ord)]
pub struct Entry {
    /// The number of the directory; the root's is 0.
    pub directory: u32,
    /// The name in that directory.
    pub name: Name,
}

/// An entry of a directory, with the path by which a line of the trace names it. Two paths may lead
/// to one entry, since directories are renamed.
#[derive(Debug, Drop, PartialEq)]
pub struct DirEntry {
    /// The number of the directory.
    pub directory: u32,
    /// The path at the time of the line. Its last name is the entry's; only the root's path has
    /// none.
    pub path: Path,
}

impl DirEntry {
    /// The name of the entry: the last of its path. It is empty if the path is the root's, which no
    /// entry has.
    pub fn name(&self) -> &str
        ensures { result.now ≡ last_name self.now.path }
    {
        match self.path.names().split_last() {
            Some((_, name)) => name,
            None => "",
        }
    }

    /// Whether both are the same entry: the same name in the same directory, by whichever paths. It
    /// takes no memory.
    pub fn is_same_entry(&self, other: &DirEntry) -> bool
        ensures { result ≡ entry_eq (entry_of self.now) (entry_of other.now) }
    {
        self.directory == other.directory && self.name() == other.name()
    }

    /// The entry without its path: the number of its directory and a copy of its name. For the
    /// root's path, which has no name, it is an AllocError too, so callers pass no such path.
    /// Otherwise the only error is that memory runs out.
    pub fn entry(&self, alloc: Global) -> Result<Entry, AllocError>
        ensures { IfOk result (λ entry. entry ≡ entry_of self.now) }
    {
        Ok(Entry {
            directory: self.directory,
            name: copy_name(alloc, self.name())?,
        })
    }

    /// A copy of the entry, with its path. The only error is that memory runs out.
    pub fn try_clone(&self, alloc: Global) -> Result<DirEntry, AllocError>
        ensures { IfOk result (λ copy. copy ≡ self.now) }
    {
        Ok(DirEntry {
            directory: self.directory,
            path: self.path.try_clone(alloc)?,
        })
    }
}

/// A copy of a name. The caller knows it to be legal, so an AllocError means that memory ran out; a
/// name that isn't legal would give the same error.
pub fn copy_name(alloc: Global, name: &str) -> Result<Name, AllocError>
    ensures { IfOk result (λ copy. copy ≡ name.now) }
{
    Name::read(alloc, name.as_bytes()).map_err(|_| AllocError)
}
