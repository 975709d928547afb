//! What an entry of a directory holds.

/// What kind of file a number has. Directories are no files here.
#[derive(Clone, Copy, Debug, PartialEq, Eq)]
pub enum FileKind {
    /// A regular file.
    Regular,
    /// A symbolic link, whose bytes are where it leads. Only traces of version 4 make one.
    Symlink,
}

/// What an entry of a directory holds: a directory or a file, by its number. A file may be held by
/// several entries (hard links), a directory by one.
#[derive(Clone, Copy, Debug, PartialEq, Eq)]
pub enum Node {
    /// A directory. The root's number is 0. In version 4 of traces each directory that is made has
    /// the next number. In earlier versions a directory that is made again at an entry has the
    /// number of the one that was there before.
    Directory(u32),
    /// A regular file or a symbolic link. These are numbered from 0 as they are made, not together
    /// with directories: those at the start in the order of their lines, and then each creat and
    /// each symlink. No number is given twice.
    File(FileKind, u32),
}
