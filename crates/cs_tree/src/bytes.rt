//! The bytes of a file, which a write may lengthen.
ghost use Rattle.std.specs.Prelude.{◌≡◌, ◌+◌, ◌++◌, ◌<◌, ◌≤◌, ◌^◌, IfOk, OnOk, OnErr, take, drop};
ghost use Rattle.std.specs.Prelude.{length, replicate};
ghost use Rattle.cs_tree_model.specs.Effects.{bytes_after_write};

use std::alloc::{AllocError, Global};
use std::marker::Model;

/// The bytes of a file, in one piece of memory.
#[derive(Drop)]
pub struct FileBytes {
    bytes: Vec<u8>,
}

impl Model for FileBytes {
    ghost use Rattle.std.specs.Prelude.{List, ℕ};

    ghost Value = { List ℕ };

    ghost view = { λ file. file.bytes.items };
}

impl FileBytes {
    /// A file's bytes, made of these.
    pub fn of(bytes: Vec<u8>) -> FileBytes
        ensures { result ≡ bytes.items }
    {
        FileBytes { bytes }
    }

    /// The number of bytes of the file.
    pub fn len(&self) -> u64
        ensures { result ≡ length self.now }
    {
        self.bytes.len() as u64
    }

    /// At most `count` bytes from `offset` on, lent: fewer if the file ends before, none at its end
    /// or past it.
    pub fn part(&self, offset: u64, count: usize) -> &[u8]
        ensures { result.now ≡ take count (drop offset self.now) }
    {
        part_of(&self.bytes, offset as usize, count)
    }

    /// Writes at least one byte at an offset; the write must end before 2^63. If the offset is past
    /// the end, the bytes between are zeros. It allocates only if the file grows. The only error is
    /// that memory runs out; then the file is unchanged.
    pub fn write(&mut self, offset: u64, bytes: &[u8]) -> Result<(), AllocError>
        requires some { 0 < length bytes.now }
        requires room { offset + length bytes.now < 2 ^ 63 }
        ensures ok { OnOk result (self.new ≡ bytes_after_write offset bytes.now self.old) }
        ensures err { OnErr result (self.new ≡ self.old) }
    {
        write_growing(&mut self.bytes, offset as usize, bytes)?;
        Ok(())
    }

    /// A copy that has `length` bytes, which must be fewer than 2^63: the file's first ones, and
    /// zeros after them if the file has fewer. The only error is that memory runs out.
    pub fn with_length(&self, alloc: Global, length: u64) -> Result<FileBytes, AllocError>
        requires { length < 2 ^ 63 }
        ensures { IfOk result (λ file. file ≡ take length (self.now ++ replicate length 0)) }
    {
        let bytes = copy_with_length(alloc, &self.bytes, length as usize)?;
        Ok(FileBytes { bytes })
    }
}

/// At most `count` bytes from `offset` on: fewer if the bytes end before, none at their end or past
/// it. It is the body of `FileBytes::part`. (`part_of` of cs_overlay and `piece_at` of cs_state do
/// the same.)
fn part_of(bytes: &[u8], offset: usize, count: usize) -> &[u8]
    ensures { result.now ≡ take count (drop offset bytes.now) }
{
    let start = bytes.len().min(offset);
    let rest = &bytes[start..];
    let end = rest.len().min(count);
    &rest[..end]
}

/// Writes at least one byte at an offset, with zeros between the old end and the offset. After an
/// error the vector is unchanged. It is the body of `FileBytes::write`. `FileContent::overwrite` of
/// cs_apm does the same to the bytes of a crash state.
fn write_growing(content: &mut Vec<u8>, offset: usize, bytes: &[u8]) -> Result<(), AllocError>
    requires some { 0 < length bytes.now }
    requires room { offset + length bytes.now < 2 ^ 63 }
    ensures ok { OnOk result
        (content.new.items ≡ bytes_after_write offset bytes.now content.old.items) }
    ensures err { OnErr result (content.new.items ≡ content.old.items) }
{
    let end = offset + bytes.len();
    let length = content.len().max(end);
    content.resize(length, 0)?;
    overwrite(content, offset, bytes);
    Ok(())
}

/// Replaces bytes from `offset` on by as many new ones, which must not reach past the end. It
/// allocates nothing. (`put_at` of cs_apm and `overwrite_bytes` of cs_overlay do the same.)
fn overwrite(content: &mut [u8], offset: usize, bytes: &[u8])
    requires { offset + length bytes.now ≤ length content.old }
    ensures bytes { content.new ≡ take offset content.old ++ bytes.now
        ++ drop (offset + length bytes.now) content.old }
    ensures length { length content.new ≡ length content.old }
{
    content[offset..offset + bytes.len()].copy_from_slice(bytes);
}

/// A copy of the first `length` bytes, with zeros after them if there are fewer. The only error is
/// that memory runs out. It is the body of `FileBytes::with_length`. `copy_part` of cs_state does
/// the same from any offset on.
fn copy_with_length(alloc: Global, bytes: &[u8], length: usize) -> Result<Vec<u8>, AllocError>
    ensures { IfOk result (λ v. v.items ≡ take length (bytes.now ++ replicate length 0)) }
{
    let kept = bytes.len().min(length);
    let mut copy = Vec::with_capacity(alloc, length)?;
    copy.extend_from_slice(&bytes[..kept])?;
    copy.resize(length, 0)?;
    Ok(copy)
}
