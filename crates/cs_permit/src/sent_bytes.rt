//! The bytes that a Twrite sends (read(5)).
ghost use Rattle.std.specs.Prelude.{◌≡◌, IfOk, length};

use std::alloc::{AllocError, Global};
use std::borrow::CowSlice;
use std::marker::Model;

/// The bytes of a write as they came: borrowed from the message, or a copy of them. Contracts see a
/// list of bytes, and don't see which of the two it is.
#[derive(Debug, Drop)]
pub struct SentBytes<'a> {
    bytes: CowSlice<'a, u8>,
}

impl<'a> Model for SentBytes<'a> {
    ghost use Rattle.std.specs.Cow.{cow_slice_items};
    ghost use Rattle.std.specs.Prelude.{List, ℕ};

    ghost Value = { List ℕ };

    ghost view = { λ sent. cow_slice_items sent.bytes };
}

impl<'a> SentBytes<'a> {
    /// These bytes, borrowed.
    pub fn borrow_from(bytes: &'a [u8]) -> SentBytes<'a>
        ensures { result ≡ bytes.now }
    {
        SentBytes {
            bytes: CowSlice::Borrowed(bytes),
        }
    }

    /// A copy of these bytes, which borrows nothing. The only error is that memory runs out.
    pub fn copy_of(alloc: Global, bytes: &[u8]) -> Result<SentBytes<'static>, AllocError>
        ensures { IfOk result (λ copy. copy ≡ bytes.now) }
    {
        Ok(SentBytes {
            bytes: CowSlice::Owned(Vec::from_slice(alloc, bytes)?),
        })
    }

    /// The bytes as a slice.
    pub fn as_slice(&self) -> &[u8]
        ensures { result.now ≡ self.now }
    {
        self.bytes.as_slice()
    }

    /// The number of bytes.
    pub fn len(&self) -> usize
        ensures { result ≡ length self.now }
    {
        self.bytes.len()
    }

    /// A copy that borrows nothing, even if these bytes are borrowed. The only error is that memory
    /// runs out.
    pub fn try_clone(&self, alloc: Global) -> Result<SentBytes<'static>, AllocError>
        ensures { IfOk result (λ copy. copy ≡ self.now) }
    {
        SentBytes::copy_of(alloc, self.bytes.as_slice())
    }
}
