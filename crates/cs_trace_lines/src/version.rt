//! The version of a trace, which its header declares, and the sizes of its blocks.
ghost use Rattle.std.specs.Prelude.{◌≡◌};
ghost use Rattle.cs_trace_lines.specs.Versions.{block_bytes, block_size_of, block_size_of_bytes};
ghost use Rattle.cs_trace_lines.specs.Versions.{is_fourth, is_third_or_later, profile_of};
ghost use Rattle.cs_trace_lines.specs.Versions.{says_first, with_profile};

use crate::profile::Profile;

/// How many bytes a block has: the unit that the disk writes whole.
#[derive(Clone, Copy, Debug, PartialEq, Eq)]
pub enum BlockSize {
    Bytes512,
    Bytes1024,
    Bytes2048,
    Bytes4096,
}

impl BlockSize {
    /// How many bytes a block of this size has. `of_bytes` below has the same list.
    pub fn bytes(self) -> u64
        ensures { result ≡ block_bytes self }
    {
        match self {
            BlockSize::Bytes512 => 512,
            BlockSize::Bytes1024 => 1024,
            BlockSize::Bytes2048 => 2048,
            BlockSize::Bytes4096 => 4096,
        }
    }

    /// The block size of so many bytes: 512, 1,024, 2,048 or 4,096, as in `bytes`. None for any
    /// other number.
    pub(crate) fn of_bytes(bytes: u64) -> Option<BlockSize>
        ensures { result ≡ block_size_of_bytes bytes }
    {
        match bytes {
            512 => Some(BlockSize::Bytes512),
            1024 => Some(BlockSize::Bytes1024),
            2048 => Some(BlockSize::Bytes2048),
            4096 => Some(BlockSize::Bytes4096),
            _ => None,
        }
    }
}

/// The version of a trace: which form its lines have, and which rules order its micro-operations;
/// with the profile of its file system, and the size of its blocks.
#[derive(Clone, Copy, Debug, PartialEq, Eq)]
pub enum Version {
    /// Version 1: profile `blocks`, blocks of 4,096 bytes.
    First,
    /// Version 2, with `chmod` and `chown`; its header has the profile.
    Second(Profile),
    /// Version 3, with links, syncs of a range, notes and texts; its header has the size of a
    /// block, too. All that follows an acknowledged line needs it.
    Third(Profile, BlockSize),
    /// Version 4, with directories that may be moved, symbolic links, fdatasync, and files in
    /// parts. Each directory has a number. Some writes, truncates and renames have more
    /// micro-operations, as real file systems were seen to leave them.
    Fourth(Profile, BlockSize),
}

impl Version {
    /// The profile of the file system; Blocks in version 1, whose header names none.
    pub fn profile(self) -> Profile
        ensures { result ≡ profile_of self }
    {
        match self {
            Version::First => Profile::Blocks,
            Version::Second(profile) | Version::Third(profile, _) | Version::Fourth(profile, _) =>
                profile,
        }
    }

    /// The size of a block; 4,096 bytes in versions 1 and 2, whose headers name none.
    pub fn block_size(self) -> BlockSize
        ensures { result ≡ block_size_of self }
    {
        match self {
            Version::First | Version::Second(_) => BlockSize::Bytes4096,
            Version::Third(_, block) | Version::Fourth(_, block) => block,
        }
    }

    /// Whether all that follows an acknowledged line needs it (P9): in version 3 and later.
    pub fn says_first(self) -> bool
        ensures { result ≡ says_first self }
    {
        self.is_third_or_later()
    }

    /// Whether it is version 3 or 4: there may be links, syncs of a range, notes, and texts in
    /// place of digits.
    pub(crate) fn is_third_or_later(self) -> bool
        ensures { result ≡ is_third_or_later self }
    {
        matches!(self, Version::Third(..) | Version::Fourth(..))
    }

    /// Whether it is version 4, with any profile and block size.
    pub fn is_fourth(self) -> bool
        ensures { result ≡ is_fourth self }
    {
        matches!(self, Version::Fourth(..))
    }

    /// The same version with this profile; no crate calls it. Version 1, whose header has none,
    /// stays as it is.
    pub fn with_profile(self, profile: Profile) -> Version
        ensures { result ≡ with_profile profile self }
    {
        match self {
            Version::First => Version::First,
            Version::Second(_) => Version::Second(profile),
            Version::Third(_, block) => Version::Third(profile, block),
            Version::Fourth(_, block) => Version::Fourth(profile, block),
        }
    }
}
