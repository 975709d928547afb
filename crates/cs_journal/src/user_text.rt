//! A user's name in a fixed array.
ghost use Rattle.std.specs.Prelude.{◌≡◌, IfOk};
ghost use Rattle.cs_names.specs.Legal.{IsUserName};

use cs_names::limits::USER_NAME_BYTES;
use cs_names::{NameFault, UserName};
use std::alloc::{AllocError, Global};
use std::marker::Model;

/// A user's name in a fixed array, so that a kept call needs no further memory for it.
#[derive(Drop)]
pub(crate) struct UserText {
    /// The name, and after it bytes without a meaning.
    bytes: [u8; USER_NAME_BYTES],
    /// How many bytes the name has.
    len: usize,
}

impl Model for UserText {
    ghost use Rattle.std.specs.Prelude.{List, ℕ, ◌≤◌, take};
    ghost use Rattle.cs_names.specs.Legal.{IsUserName};
    ghost use Rattle.cs_names.specs.declared.limits.TheConstants.{USER_NAME_BYTES};

    ghost Value = { List ℕ };

    ghost view = { λ text. take text.len text.bytes };

    ghost invariant = { λ text. (text.len ≤ USER_NAME_BYTES)
        × IsUserName (take text.len text.bytes) };
}

impl UserText {
    /// The text of the name `-`, to be replaced by that of a call's user later.
    pub(crate) fn blank() -> UserText {
        UserText {
            bytes: [b'-'; USER_NAME_BYTES],
            len: 1,
        }
    }

    /// The text of this name.
    pub(crate) fn of(user: &UserName) -> UserText
        ensures { result ≡ user.now }
    {
        let text = user.as_bytes();
        let mut bytes = [0; USER_NAME_BYTES];
        bytes[..text.len()].copy_from_slice(text);
        UserText {
            bytes,
            len: text.len(),
        }
    }

    /// Copies the text into a name. An error means that memory ran out.
    pub(crate) fn name(&self, alloc: Global) -> Result<UserName, AllocError>
        ensures { IfOk result (λ name. name ≡ self.now) }
    {
        match UserName::read(alloc, self.as_bytes()) {
            Ok(name) => Ok(name),
            Err(NameFault::Memory) => Err(AllocError),
            // the text is a legal name: the invariant says so
            Err(_) => unreachable!(),
        }
    }

    /// The bytes of the name.
    pub(crate) fn as_bytes(&self) -> &[u8]
        ensures value { result.now ≡ self.now }
        ensures legal { IsUserName self.now }
    {
        &self.bytes[..self.len]
    }
}
