//! Files in std's maps and vectors as one would write them with no model in mind: what the store is
//! compared with.

use crate::subject::Subject;
use cs_names::Name;
use std::alloc::Global;
use std::collections::BTreeMap;
use std::ops::Bound;

/// A file with its fields, as a server has them.
#[derive(Drop)]
struct File {
    name: String,
    vers: u32,
    owner: String,
    group: String,
    mode: u32,
    atime: u32,
    mtime: u32,
    muid: String,
    bytes: Vec<u8>,
}

impl File {
    /// Marks the file as changed by the user.
    fn stamp(&mut self, user: String) {
        self.vers = self.vers.wrapping_add(1);
        self.mtime = 1;
        self.muid = user;
    }
}

/// Files by number, and the entries of the root by name.
#[derive(Drop)]
pub struct Files {
    files: BTreeMap<u64, File>,
    entries: BTreeMap<String, u64>,
    user: String,
    last: u64,
}

impl Files {
    /// Only the root.
    pub fn new(alloc: Global) -> Option<Files> {
        Some(Files {
            files: BTreeMap::new(alloc),
            entries: BTreeMap::new(alloc),
            user: String::from_str(alloc, "ann").ok()?,
            last: 0,
        })
    }

    /// The name of the next entry after a name, or of the first.
    fn name_after(&self, last: Option<&String>) -> Option<&String> {
        let (name, _number) = match last {
            Some(last) => self
                .entries
                .range((Bound::Excluded(last), Bound::Unbounded))
                .next()?,
            None => self.entries.iter().next()?,
        };
        Some(name)
    }

    /// A file with no bytes.
    fn file(&self, alloc: Global, name: &Name) -> Option<File> {
        Some(File {
            name: name.as_string().clone().ok()?,
            vers: 0,
            owner: self.user.clone().ok()?,
            group: self.user.clone().ok()?,
            mode: 0o664,
            atime: 1,
            mtime: 1,
            muid: self.user.clone().ok()?,
            bytes: Vec::new(alloc),
        })
    }
}

impl Subject for Files {
    /// One search by name.
    fn look_up(&self, name: &Name) -> Option<u64> {
        self.entries.get(name.as_str()).copied()
    }

    /// Searches for each entry again, as a client does that asks for one at a time.
    fn list(&self) -> u64 {
        let mut last = None;
        let mut count = 0u64;
        for _ in 0..self.entries.len() {
            let Some(name) = self.name_after(last) else {
                break;
            };
            last = Some(name);
            count = count.wrapping_add(1);
        }
        count
    }

    /// Copies the bytes.
    fn read(&self, alloc: Global, number: u64, offset: u64, count: usize) -> Option<()> {
        let start = usize::try_from(offset).ok()?;
        let end = start.checked_add(count)?;
        let bytes = self.files.get(&number)?.bytes.get(start..end)?;
        let _read = Vec::from_slice(alloc, bytes).ok()?;
        Some(())
    }

    /// Fails if there is a file of that name.
    fn make(&mut self, alloc: Global, name: &Name) -> Option<u64> {
        if self.entries.get(name.as_str()).is_some() {
            return None;
        }
        let number = self.last.checked_add(1)?;
        let file = self.file(alloc, name)?;
        self.entries
            .insert(name.as_string().clone().ok()?, number)
            .ok()?;
        self.files.insert(number, file).ok()?;
        self.last = number;
        Some(number)
    }

    /// Removes the file and its entry.
    fn delete(&mut self, _alloc: Global, number: u64) -> Option<()> {
        let file = self.files.remove(&number)?;
        self.entries.remove(file.name.as_str());
        Some(())
    }

    /// Writes the bytes and stamps the file.
    fn put(&mut self, _alloc: Global, number: u64, offset: u64, bytes: &[u8]) -> Option<()> {
        let user = self.user.clone().ok()?;
        let file = self.files.get_mut(&number)?;
        write_bytes(&mut file.bytes, usize::try_from(offset).ok()?, bytes)?;
        file.stamp(user);
        Some(())
    }
}

/// Writes bytes over others, or after the last one; a gap is filled by zeros.
fn write_bytes(content: &mut Vec<u8>, offset: usize, bytes: &[u8]) -> Option<()> {
    if offset == content.len() {
        return content.extend_from_slice(bytes).ok();
    }
    let end = offset.checked_add(bytes.len())?;
    if end > content.len() {
        content.resize(end, 0).ok()?;
    }
    if end > content.len() {
        return None;
    }
    content[offset..end].copy_from_slice(bytes);
    Some(())
}
