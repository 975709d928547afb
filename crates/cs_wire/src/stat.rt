//! A stat whose texts are borrowed, and copies between it and one that owns them.

ghost use Rattle.std.specs.Prelude.{◌≡◌, IfOk, OnErr, true};
ghost use Rattle.cs_wire.specs.Fields.{holds_bytes};
ghost use Rattle.cs_wire.specs.Messages.{stat_in, stat_of, stat_shape};

use crate::copying::copy_text;
use crate::message::{Qid, Stat};
use std::alloc::{AllocError, Global};

/// A stat with borrowed texts. Its fields are those of `Stat`, whose comments say what they mean
/// (stat(5)).
#[derive(Clone, Copy)]
pub struct StatRef<'a> {
    pub kind: u16,
    pub dev: u32,
    pub qid: Qid,
    pub mode: u32,
    pub atime: u32,
    pub mtime: u32,
    pub length: u64,
    pub name: &'a str,
    pub uid: &'a str,
    pub gid: &'a str,
    pub muid: &'a str,
}

impl StatRef<'_> {
    /// The same stat, with its texts copied. It allocates only for a text that isn't empty. After
    /// an error nothing is left of the copies. (`copy_stat` of cs_permit lists the same fields:
    /// change both.)
    pub fn to_stat(&self, alloc: Global) -> Result<Stat, AllocError>
        ensures same { IfOk result (λ copy. stat_of copy ≡ stat_in self.now) }
        ensures grows { OnErr result (holds_bytes stat_shape (stat_in self.now) ≡ true) }
    {
        Ok(Stat {
            kind: self.kind,
            dev: self.dev,
            qid: self.qid,
            mode: self.mode,
            atime: self.atime,
            mtime: self.mtime,
            length: self.length,
            name: copy_text(alloc, self.name)?,
            uid: copy_text(alloc, self.uid)?,
            gid: copy_text(alloc, self.gid)?,
            muid: copy_text(alloc, self.muid)?,
        })
    }
}

impl Stat {
    /// The same stat, with its texts borrowed. It allocates nothing.
    pub fn as_stat_ref(&self) -> StatRef<'_>
        ensures { stat_in result ≡ stat_of self.now }
    {
        StatRef {
            kind: self.kind,
            dev: self.dev,
            qid: self.qid,
            mode: self.mode,
            atime: self.atime,
            mtime: self.mtime,
            length: self.length,
            name: self.name.as_str(),
            uid: self.uid.as_str(),
            gid: self.gid.as_str(),
            muid: self.muid.as_str(),
        }
    }
}
