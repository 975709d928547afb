//! The content of a file or symbolic link of a crash state: its size, and its bytes. Bytes past the
//! size are hidden.
ghost use Rattle.std.specs.Prelude.{◌≡◌, ℕ, ◌+◌, ◌<◌, ◌≤◌, List, length, OnOk, IfOk};
ghost use Rattle.std.specs.List.{All};
ghost use Rattle.cs_apm.specs.Contents.{IsSmall, content_after_op, changes_file, content_after};
ghost use Rattle.cs_apm.specs.Contents.{content_left};
ghost use Rattle.cs_apm.specs.States.{overwritten, padded, bytes_over, content_with_size, visible};

use cs_micro::MicroOp;
use cs_trace::LARGE_FILE_BYTES;
use std::alloc::AllocError;
use std::marker::Model;

/// The content of a file while the members of a set are applied. There may be fewer bytes than the
/// size: the missing ones are zero. There may be more: those past the size are hidden, until a
/// larger size shows them.
#[derive(Debug, Drop)]
pub struct FileContent {
    /// How long the file is, in bytes.
    size: u64,
    /// The bytes that were written, from offset 0 on, hidden ones too.
    bytes: Vec<u8>,
}

impl Model for FileContent {
    ghost use Rattle.cs_apm.specs.States.{Content, content_code};

    ghost Value = { Content };

    ghost coded = { content_code };

    ghost view = { λ content. record { size = content.size; bytes = content.bytes.items } };
}

impl FileContent {
    /// The content of a file that has exactly these bytes; none is hidden.
    pub fn of(bytes: Vec<u8>) -> FileContent
        ensures { result ≡ record { size = length bytes.items; bytes = bytes.items } }
    {
        FileContent {
            size: bytes.len() as u64,
            bytes,
        }
    }

    /// Changes the size. A smaller size drops every byte past it, hidden ones too. A larger one
    /// shows the hidden bytes up to it. The same one changes nothing.
    fn resize(&mut self, size: u64)
        ensures { self.new ≡ content_with_size size self.old }
    {
        if size < self.size {
            self.bytes.truncate(size as usize);
        }
        self.size = size;
    }

    /// Writes the piece at the offset `at`. The size stays, so bytes past it are hidden. If the
    /// bytes end before `at`, those between are zero. After an error the content must not be used.
    fn overwrite(&mut self, at: usize, piece: &[u8]) -> Result<(), AllocError>
        requires { at + length piece.now ≤ LARGE_FILE_BYTES }
        ensures { OnOk result (self.new ≡ overwritten at piece.now self.old) }
    {
        pad(&mut self.bytes, at + piece.len())?;
        put_at(&mut self.bytes, at, piece);
        Ok(())
    }

    /// Applies a change of size or a write of a block to this content, whichever file it names: the
    /// caller has asked `changes_file`. Any other micro-operation changes nothing. After an error
    /// the content must not be used. `apply_to_part` of cs_state does the same to a part of a file,
    /// but only for writes and for changes that make the file shorter.
    fn apply(&mut self, op: &MicroOp) -> Result<(), AllocError>
        requires { IsSmall op.now }
        ensures { OnOk result (self.new ≡ content_after_op self.old op.now) }
    {
        match op {
            MicroOp::ChangeFileSize { length, .. } => self.resize(*length),
            MicroOp::WriteBlock {
                start,
                at,
                bytes,
                ..
            } => self.overwrite((*start + *at) as usize, bytes.as_slice())?,
            _ => {}
        }
        Ok(())
    }

    /// Applies those members of a set that change the file of this number, in the order of the
    /// places. The members are the micro-operations of `ops` at these places. After an error the
    /// content must not be used: some members may have been applied.
    pub fn apply_members(
        &mut self,
        file: u32,
        ops: &[MicroOp],
        places: &[u32],
    ) -> Result<(), AllocError>
        requires small { All IsSmall ops.now }
        requires inside { All (λ place. place < length ops.now) places.now }
        ensures { OnOk result (self.new ≡ content_left file self.old ops.now places.now) }
    {
        for place in places {
            let op = &ops[*place as usize];
            if changes_file(file, op) {
                self.apply(op)?;
            }
        }
        Ok(())
    }

    /// The bytes that a reader of the file gets: as many as its size, with zeros for those that
    /// nothing wrote. Hidden bytes are dropped.
    pub fn into_visible(self) -> Result<Vec<u8>, AllocError>
        ensures { IfOk result (λ bytes. bytes.items ≡ visible self) }
    {
        let mut bytes = self.bytes;
        bytes.truncate(self.size as usize);
        bytes.resize(self.size as usize, 0)?;
        Ok(bytes)
    }
}

/// Appends zeros until there are `end` bytes; nothing if there are as many or more already. If it
/// is out of memory, the bytes are as they were.
fn pad(bytes: &mut Vec<u8>, end: usize) -> Result<(), AllocError>
    ensures { OnOk result (bytes.new.items ≡ padded end bytes.old.items) }
{
    if bytes.len() < end {
        bytes.resize(end, 0)?;
    }
    Ok(())
}

/// Overwrites the bytes from the offset `at` on by the piece, which must not reach past their end:
/// `pad` them first. cs_state uses it for parts of files. (`overwrite` of cs_tree and
/// `overwrite_bytes` of cs_overlay do the same.)
pub fn put_at(bytes: &mut [u8], at: usize, piece: &[u8])
    requires { at + length piece.now ≤ length bytes.old }
    ensures { bytes.new ≡ bytes_over at piece.now bytes.old }
{
    bytes[at..at + piece.len()].copy_from_slice(piece);
}

/// Whether the micro-operation changes the size or the bytes of the file of this number. The same
/// two kinds are in `FileContent::apply`, in `mark_changed` of `flags`, in `is_of_data` of `rules`,
/// in `writes_or_resizes`, `reaches` and `apply_to_part` of cs_state, and in `apply_to_window` of
/// cs_same_states: change all of them together.
pub fn changes_file(file: u32, op: &MicroOp) -> bool
    ensures { result ≡ changes_file file op.now }
{
    match op {
        MicroOp::ChangeFileSize { file: other, .. } => *other == file,
        MicroOp::WriteBlock { file: other, .. } => *other == file,
        _ => false,
    }
}
