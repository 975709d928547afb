//! The operations by the names that lines have under `op`.
ghost use Rattle.std.specs.Prelude.{◌≡◌};
ghost use Rattle.cs_trace_lines.specs.Lines.{belongs_to, key_count, verb_in, verb_named};

use crate::version::Version;

/// What an operation does, by the name under `op`, which is the variant in lower case (`FsyncRange`
/// is `fsync_range`).
#[derive(Clone, Copy, Debug, PartialEq, Eq)]
pub(crate) enum Verb {
    Creat,
    Mkdir,
    Symlink,
    Unlink,
    Rmdir,
    Rename,
    Link,
    Write,
    Truncate,
    Chmod,
    Chown,
    Fsync,
    Fdatasync,
    FsyncRange,
    Sync,
    Say,
}

impl Verb {
    /// The verb with this name in any version. None if no version has one. Frequent names come
    /// first, since the name is compared with one after another.
    fn of_name(name: &str) -> Option<Verb>
        ensures { result ≡ verb_named name.now }
    {
        Some(match name {
            "write" => Verb::Write,
            "fsync" => Verb::Fsync,
            "creat" => Verb::Creat,
            "rename" => Verb::Rename,
            "unlink" => Verb::Unlink,
            "say" => Verb::Say,
            "truncate" => Verb::Truncate,
            "mkdir" => Verb::Mkdir,
            "rmdir" => Verb::Rmdir,
            "fdatasync" => Verb::Fdatasync,
            "link" => Verb::Link,
            "symlink" => Verb::Symlink,
            "sync" => Verb::Sync,
            "fsync_range" => Verb::FsyncRange,
            "chmod" => Verb::Chmod,
            "chown" => Verb::Chown,
            _ => return None,
        })
    }

    /// Whether a trace of this version may have this verb: chmod and chown from version 2 on, link
    /// and fsync_range from version 3 on, symlink and fdatasync in version 4, and all others in
    /// every version.
    fn belongs_to(self, version: Version) -> bool
        ensures { result ≡ belongs_to version self }
    {
        match self {
            Verb::Chmod | Verb::Chown => !matches!(version, Version::First),
            Verb::Link | Verb::FsyncRange => version.is_third_or_later(),
            Verb::Symlink | Verb::Fdatasync => version.is_fourth(),
            _ => true,
        }
    }

    /// The verb with this name in a trace of this version. None if the version has no such verb.
    pub(crate) fn of(version: Version, name: &str) -> Option<Verb>
        ensures { result ≡ verb_in version name.now }
    {
        let verb = Verb::of_name(name)?;
        if verb.belongs_to(version) {
            Some(verb)
        } else {
            None
        }
    }

    /// How many keys a line with this verb has: `op` and those that `operation_of` in `operation`
    /// reads. A `note` isn't counted.
    pub(crate) fn key_count(self) -> usize
        ensures { result ≡ key_count self }
    {
        match self {
            Verb::Sync => 1,
            Verb::Unlink | Verb::Rmdir | Verb::Fsync | Verb::Fdatasync | Verb::Say => 2,
            Verb::Rename | Verb::Link | Verb::Truncate | Verb::Chmod => 3,
            Verb::Write | Verb::Chown | Verb::FsyncRange => 4,
            Verb::Creat | Verb::Mkdir | Verb::Symlink => 5,
        }
    }
}
