//! What a user may do with a file. users(6) doesn't say this: the rights are a rule of this server.
ghost use Rattle.std.specs.Prelude.{◌≡◌, ◌≤◌, ◌↔◌, IsTrue};
ghost use Rattle.cs_users.specs.Rights.{HasRight, Owns, bit_of, has_bit, has_right, owns};

use crate::rows::is_user_none;
use crate::users::Users;

/// A right on a file; on a directory Execute is the right to search it (intro(5)).
#[derive(Clone, Copy, Debug, PartialEq, Eq)]
pub enum Right {
    /// To read a file, or a directory's entries.
    Read,
    /// To write a file, or to make and remove a directory's entries.
    Write,
    /// To execute a file, or to walk through a directory.
    Execute,
}

impl Right {
    /// The right's bit among the bits of others: 4, 2 or 1. The group's bit is 8 times that, the
    /// owner's 64 times.
    fn bit(self) -> u32
        ensures value { result ≡ bit_of self }
        ensures small { result ≤ 4 }
    {
        match self {
            Right::Read => 4,
            Right::Write => 2,
            Right::Execute => 1,
        }
    }
}

/// Whether the mode has at least one bit of the mask, not all of them; false if the mask is 0.
pub fn has_bit(mode: u32, mask: u32) -> bool
    ensures { result ≡ has_bit mode mask }
{
    mode & mask != 0
}

/// Whether a user of this name owns a file of this owner: the names are the same, and aren't
/// `none`, who owns nothing.
pub fn owns(user: &[u8], owner: &[u8]) -> bool
    ensures test { result ≡ owns user.now owner.now }
    ensures owner { IsTrue result ↔ Owns user.now owner.now }
{
    user == owner && !is_user_none(user)
}

/// Whether the user has the right on a file of this owner, group and mode. The bits of others give
/// it; so do the owner's bits if the user owns the file, and the group's if the user is a member of
/// its group. So an owner never has fewer rights than others (unlike POSIX), and `none` has only
/// the bits of others. The group is looked up only if its bit decides.
pub fn has_right(
    users: &Users,
    user: &[u8],
    owner: &[u8],
    group: &[u8],
    mode: u32,
    right: Right,
) -> bool
    ensures test { result ≡ has_right users.now user.now owner.now group.now mode right }
    ensures right { IsTrue result ↔ HasRight users.now user.now owner.now group.now mode right }
{
    let bit = right.bit();
    has_bit(mode, bit)
        || (has_bit(mode, bit * 64) && owns(user, owner))
        || (has_bit(mode, bit * 8) && users.is_member(user, group))
}
