//! Owner, group and permissions of a file, a symbolic link or a directory: its rights.
ghost use Rattle.std.specs.Prelude.{◌≡◌, IfOk};

use cs_names::UserName;
use std::alloc::AllocError;

/// Owner, group and permissions of a file, a symbolic link or a directory.
#[derive(Debug, Drop, PartialEq)]
pub struct Rights {
    /// The name of the owner.
    pub owner: UserName,
    /// The name of the group.
    pub group: UserName,
    /// Three octal digits, nine bits: r, w and x of the owner, the group and others.
    pub permissions: u16,
}

impl Rights {
    /// A copy of the rights.
    pub fn try_clone(&self) -> Result<Rights, AllocError>
        ensures { IfOk result (λ copy. copy ≡ self.now) }
    {
        Ok(Rights {
            owner: self.owner.try_clone()?,
            group: self.group.try_clone()?,
            permissions: self.permissions,
        })
    }
}
