//! The bytes of a file, of which only some parts are kept: bytes that no part has are zero.
ghost use Rattle.std.specs.Prelude.{◌≡◌, ◌≤◌, IfOk, length, map};
ghost use Rattle.cs_trace_lines.specs.Kept.{part_value};
ghost use Rattle.cs_trace_lines.specs.Lines.{laid_out_if};
ghost use Rattle.cs_trace_lines.specs.Sparse.{are_apart, end_of, laid_out, lies_between, with_part};
ghost use Rattle.std.specs.Prelude.{true};

use std::alloc::{AllocError, Global};
use std::marker::Model;

/// Some bytes of a file, one after another. `SparseBytes::of_parts` checks that there is at least
/// one, and that they are in the file.
#[derive(Drop)]
pub struct Part {
    /// The offset in the file at which they begin.
    pub at: u64,
    /// The bytes.
    pub bytes: Vec<u8>,
}

/// How the bytes of a file are kept.
#[derive(Drop)]
pub(crate) enum Kept {
    /// All of them.
    Whole(Vec<u8>),
    /// Those of some parts of a file with `length` bytes. The parts ascend and don't overlap.
    Parts { length: u64, parts: Vec<Part> },
}

/// The bytes of a file. Only its parts take memory, not the zeros between them. Contracts see all
/// bytes.
#[derive(Drop)]
pub struct SparseBytes {
    /// The bytes, whole or in parts.
    kept: Kept,
}

impl Model for SparseBytes {
    ghost use Rattle.std.specs.Prelude.{List, ℕ};
    ghost use Rattle.cs_trace_lines.specs.Kept.{bytes_of, IsKept};

    ghost Value = { List ℕ };

    ghost view = { λ s. bytes_of s.kept };

    ghost invariant = { λ s. IsKept s.kept };
}

/// Whether the part has a byte, begins at the offset `from` or after it, and ends at the file's
/// end, `length`, or before it.
fn lies_between(from: u64, length: u64, part: &Part) -> bool
    ensures { result ≡ lies_between from length (part_value part.now) }
{
    let count = part.bytes.len() as u64;
    if count == 0 || part.at < from || part.at > length {
        return false;
    }
    count <= length - part.at
}

/// Whether each part has a byte and begins at the end of the part before it (the first at `from`)
/// or after it, and the last ends at the file's end, `length`, or before it.
fn are_apart(from: u64, length: u64, parts: &[Part]) -> bool
    ensures { result ≡ are_apart from length (map part_value parts.now) }
{
    let mut end = from;
    for part in parts {
        if !lies_between(end, length, part) {
            return false;
        }
        end = part.at + part.bytes.len() as u64;
    }
    true
}

/// Puts the bytes of a part at their offset into the file, which must be long enough.
fn put_part(file: &mut [u8], part: &Part)
    requires { end_of (part_value part.now) ≤ length file.old }
    ensures { file.new ≡ with_part file.old (part_value part.now) }
{
    let at = part.at as usize;
    let end = at + part.bytes.len();
    file[at..end].copy_from_slice(&part.bytes);
}

/// All bytes of a file with `length` bytes that has these parts; the others are zero.
fn whole_bytes(alloc: Global, length: u64, parts: &[Part]) -> Result<Vec<u8>, AllocError>
    requires { are_apart 0 length (map part_value parts.now) ≡ true }
    ensures { IfOk result (λ file. file.items ≡ laid_out length (map part_value parts.now)) }
{
    let mut file = vec![in alloc; 0u8; length as usize]?;
    for part in parts {
        put_part(&mut file, part);
    }
    Ok(file)
}

impl SparseBytes {
    /// A file of which all bytes are kept. It takes no memory.
    pub fn of_bytes(bytes: Vec<u8>) -> SparseBytes
        ensures { result ≡ bytes.items }
    {
        SparseBytes {
            kept: Kept::Whole(bytes),
        }
    }

    /// A file with `length` bytes that has these parts; its other bytes are zero. None if the parts
    /// don't ascend or overlap, one has no byte, or one ends after the end of the file.
    pub fn of_parts(length: u64, parts: Vec<Part>) -> Option<SparseBytes>
        ensures { result ≡ laid_out_if length (map part_value parts.items) }
    {
        if !are_apart(0, length, &parts) {
            return None;
        }
        Some(SparseBytes {
            kept: Kept::Parts { length, parts },
        })
    }

    /// How many bytes the file has, with those that are in no part.
    pub fn len(&self) -> u64
        ensures { result ≡ length self.now }
    {
        match &self.kept {
            Kept::Whole(bytes) => bytes.len() as u64,
            Kept::Parts { length, .. } => *length,
        }
    }

    /// All bytes of the file. Those that no part has take memory, too, from now on. If memory runs
    /// out, the parts are dropped.
    pub fn into_bytes(self, alloc: Global) -> Result<Vec<u8>, AllocError>
        ensures { IfOk result (λ bytes. bytes.items ≡ self) }
    {
        match self.kept {
            Kept::Whole(bytes) => Ok(bytes),
            Kept::Parts { length, parts } => whole_bytes(alloc, length, &parts),
        }
    }
}
