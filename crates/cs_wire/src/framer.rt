//! A stream of messages in one buffer: bytes come in pieces, and whole messages are lent from the
//! buffer (intro(5): each begins with its size).

ghost use Rattle.std.specs.Prelude.{◌≡◌, ◌≢◌, ◌+◌, ◌≤◌, ◌<◌, ℕ, List, [], ◌++◌, length, take, drop};
ghost use Rattle.std.specs.Prelude.{vec_len, IsOk, OnOk, OnErr, MatchResult, MatchOption, IfOk};
ghost use Rattle.std.specs.Prelude.{IfErr};
ghost use Rattle.std.specs.Borrow.{sem};
ghost use Rattle.std.specs.Io.BufRead.{Rests};
ghost use Rattle.cs_wire.specs.Framing.{size_in};
ghost use Rattle.cs_wire.specs.Held.{pending_bytes, size_of, after_advance};
ghost use Rattle.cs_wire.specs.Buffers.{NextGives, FrontIs};

use cs_names::limits::MESSAGE_BYTES;
use std::alloc::{AllocError, Global};
use std::fmt;
use std::marker::Model;

/// Why a stream has no further message.
#[derive(Clone, Copy, Debug, PartialEq, Eq)]
pub enum FrameFault {
    /// The next size is below 7, the bytes of size, type and tag.
    Undersize,
    /// The next size is above MESSAGE_BYTES, 65,536.
    Oversize,
    /// The stream ended, and bytes are left: a part of a message, or messages that `next` hasn't
    /// given yet.
    Cut,
}

impl fmt::Display for FrameFault {
    /// Prints in words why the stream has no further message.
    fn fmt<W: fmt::Write>(&self, f: &mut fmt::Formatter<W>) -> fmt::Result {
        match self {
            FrameFault::Undersize => write!(f, "a message's size is below 7"),
            FrameFault::Oversize => write!(f, "a message's size is above 65536"),
            FrameFault::Cut => write!(f, "the stream ended inside a message"),
        }
    }
}

/// The number of bytes of size, type and tag together, with which each message begins.
pub(crate) const HEADER_BYTES: usize = 7;

/// The size that the bytes begin with; None if its four bytes aren't all there.
#[tactic(auto, unfolding(crate::specs::Framing::size_in))]
fn size_in_front(bytes: &[u8]) -> Option<usize>
    ensures { result ≡ size_in bytes.now }
{
    match bytes.split_first_chunk::<4>() {
        None => None,
        Some((size, _)) => Some(u32::from_le_bytes(*size) as usize),
    }
}

/// The size of the message that the bytes begin with; None if not all of its bytes are there yet. A
/// size below 7 is Undersize and one above 65,536 Oversize, as soon as its four bytes are there.
fn whole_in_front(bytes: &[u8]) -> Result<Option<usize>, FrameFault>
    ensures { FrontIs result bytes.now }
{
    match size_in_front(bytes) {
        None => Ok(None),
        Some(size) => {
            if size < HEADER_BYTES {
                return Err(FrameFault::Undersize);
            }
            if size > MESSAGE_BYTES as usize {
                return Err(FrameFault::Oversize);
            }
            if bytes.len() < size {
                return Ok(None);
            }
            Ok(Some(size))
        }
    }
}

/// The bytes of a stream that came, in one buffer, and how many of them were given as messages.
///
/// Bytes move only if there isn't enough room after them: then those that weren't given yet move to
/// the front, and the buffer grows if that isn't enough. If the caller takes every whole message
/// before it feeds again, each byte moves at most once, unless the buffer grows, which moves all of
/// them.
#[derive(Drop)]
pub struct Framer {
    // the bytes that came, and after them room for more
    buffer: Vec<u8>,
    // how many of the bytes that came, from the front, were given as messages
    place: usize,
    // how many bytes came: the room begins there
    filled: usize,
}

impl Model for Framer {
    ghost use Rattle.std.specs.Prelude.{◌≤◌, take, drop, vec_len};
    ghost use Rattle.cs_wire.specs.Held.{Held};

    ghost Value = { Held };

    ghost view = { λ f. record {
      bytes = take f.filled f.buffer.items;
      place = f.place;
      room =
          drop f.filled f.buffer.items;
    } };

    ghost invariant = { λ f. (f.place ≤ f.filled) × (f.filled ≤ vec_len f.buffer) };
}

impl Framer {
    ghost use Rattle.cs_wire.specs.contracts.framer.Framer.{the_row};
    ghost use Rattle.cs_wire.specs.Lending.{LendsRoom};

    /// An empty framer. It takes no memory.
    pub fn new(alloc: Global) -> Framer
        ensures { result ≡ record { bytes = []; place = 0; room = [] } }
    {
        Framer {
            buffer: Vec::new(alloc),
            place: 0,
            filled: 0,
        }
    }

    /// The bytes in the buffer, and how many of them, from the front, `next` has given already. The
    /// given ones go when room is made (`reserve`, `feed`, `make_room`).
    pub fn buffered(&self) -> (&[u8], usize)
        ensures bytes { result.0.now ≡ self.now.bytes }
        ensures place { result.1 ≡ self.now.place }
        ensures within { self.now.place ≤ length self.now.bytes }
    {
        (&self.buffer[..self.filled], self.place)
    }

    /// Makes room for `count` bytes after those that came. If there is room already nothing moves;
    /// else the bytes that weren't given yet move to the front, and the buffer grows if that isn't
    /// enough. The only error is that memory runs out; then the framer is unchanged.
    pub fn reserve(&mut self, count: usize) -> Result<(), AllocError>
        ensures ok { OnOk result (count ≤ length self.new.room) }
        ensures left { pending_bytes self.new ≡ pending_bytes self.old }
        ensures stays { count ≤ length self.old.room → IsOk result × (self.new ≡ self.old) }
        // A buffer that holds the pending bytes and `count` more neither grows nor shrinks.
        ensures enough { length (pending_bytes self.old) + count ≤ size_of self.old → IsOk result
            × (size_of self.new ≡ size_of self.old) }
        ensures err { OnErr result (self.new ≡ self.old) }
    {
        if count <= self.buffer.len() - self.filled {
            return Ok(());
        }
        let kept = self.filled - self.place;
        // more bytes than a usize counts are out of memory too
        let needed = kept.checked_add(count).ok_or(AllocError)?;
        if needed > self.buffer.len() {
            self.buffer.resize(needed, 0)?;
        }
        self.make_room();
        Ok(())
    }

    /// Moves the bytes that weren't given yet to the front, over those that were, so that all after
    /// them is room. It allocates nothing. If no byte was given yet nothing changes, and the room
    /// may be empty.
    pub fn make_room(&mut self)
        ensures left { pending_bytes self.new ≡ pending_bytes self.old }
        ensures size { size_of self.new ≡ size_of self.old }
        ensures room { length (pending_bytes self.new) + length self.new.room ≡ size_of self.new }
    {
        if self.place == 0 {
            return;
        }
        self.buffer.copy_within(self.place..self.filled, 0);
        self.filled -= self.place;
        self.place = 0;
    }

    /// The room after the bytes that came, to be written to; `reserve` says how to get enough. What
    /// is written counts only after `advance` with the number of bytes written.
    pub fn room(&mut self) -> &mut [u8]
        ensures* writes_back { sem 𝓛 (LendsRoom self.entry result) }
        ensures value { result.now ≡ self.old.room }
    {
        self.buffer.slice_mut(self.filled..)
    }

    /// Adds the first `count` bytes of the room, which the caller wrote, to those that came. There
    /// must be so many in the room.
    pub fn advance(&mut self, count: usize)
        requires { count ≤ length self.old.room }
        ensures left { pending_bytes self.new ≡ pending_bytes self.old ++ take count self.old.room }
        ensures exact { self.new ≡ after_advance self.old count }
    {
        self.filled += count;
    }

    /// Takes the next piece of the stream. If there is room for it, nothing moves and nothing is
    /// allocated. The only error is that memory runs out; then the framer is unchanged.
    pub fn feed(&mut self, piece: &[u8]) -> Result<(), AllocError>
        ensures ok { OnOk result (pending_bytes self.new ≡ pending_bytes self.old ++ piece.now) }
        ensures enough { length (pending_bytes self.old) + length piece.now ≤ size_of self.old
            → IsOk result }
        ensures stays { length piece.now ≤ length self.old.room → IsOk result
            × (self.new.bytes ≡ self.old.bytes ++ piece.now) × (self.new.place ≡ self.old.place) }
        ensures err { OnErr result (self.new ≡ self.old) }
    {
        self.reserve(piece.len())?;
        let (front, _) = self.room().split_at_mut(piece.len());
        front.copy_from_slice(piece);
        self.advance(piece.len());
        Ok(())
    }

    /// Checks that the stream may end here: all bytes that came were given. Else the fault is Cut,
    /// whether a part of a message is left or whole ones that `next` hasn't given yet.
    pub fn end(&self) -> Result<(), FrameFault>
        ensures { MatchResult result (λ _. pending_bytes self.now ≡ [])
            (λ fault. (fault ≡ FrameFault.Cut) × (pending_bytes self.now ≢ [])) }
    {
        if self.place < self.filled {
            return Err(FrameFault::Cut);
        }
        Ok(())
    }

    /// The next whole message, lent from the buffer; None if it hasn't come yet (intro(5)).
    ///
    /// A size below 7 is Undersize and one above 65,536 Oversize, as soon as its four bytes are
    /// there. After these faults, and after None, the framer is unchanged, and answers the same
    /// again.
    pub fn next(&mut self) -> Result<Option<&[u8]>, FrameFault>
        ensures* { sem 𝓛 (Rests the_row self.entry (λ new. NextGives result self.old new)) }
    {
        match whole_in_front(&self.buffer[self.place..self.filled]) {
            Err(fault) => Err(fault),
            Ok(None) => Ok(None),
            Ok(Some(size)) => {
                let start = self.place;
                self.place = start + size;
                Ok(Some(&self.buffer[start..start + size]))
            }
        }
    }
}
