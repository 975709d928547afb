//! The stat that a Twstat sends (stat(5)).
ghost use Rattle.std.specs.Prelude.{◌≡◌, IfOk};
ghost use Rattle.cs_permit.specs.Sent.{sent_of};

use cs_wire::Stat;
use std::alloc::AllocError;
use std::marker::Model;

/// The stat that a Twstat sends, as it came. Contracts see its fields, with each text as bytes.
#[derive(Debug, Drop)]
pub struct SentStat {
    stat: Stat,
}

impl Model for SentStat {
    ghost use Rattle.cs_permit.specs.Sent.{SentFields, sent_of};

    ghost Value = { SentFields };

    ghost view = { λ s. sent_of s.stat };
}

impl SentStat {
    /// Wraps a stat as it came; nothing of it is checked here.
    pub fn new(stat: Stat) -> SentStat
        ensures { result ≡ sent_of stat }
    {
        SentStat { stat }
    }

    /// The stat, to look at its fields.
    pub fn as_stat(&self) -> &Stat
        ensures { sent_of result.now ≡ self.now }
    {
        &self.stat
    }

    /// A copy of the stat, with its texts. The only error is that memory runs out; then the texts
    /// that were copied are dropped.
    pub fn try_clone(&self) -> Result<SentStat, AllocError>
        ensures { IfOk result (λ copy. copy ≡ self.now) }
    {
        Ok(SentStat {
            stat: copy_stat(&self.stat)?,
        })
    }
}

/// A copy of a message's stat and its texts. The only error is that memory runs out; then the texts
/// that were copied are dropped. (`StatRef::to_stat` of cs_wire lists the same fields, and copies
/// borrowed texts: change both.)
fn copy_stat(stat: &Stat) -> Result<Stat, AllocError>
    ensures { IfOk result (λ copy. sent_of copy ≡ sent_of stat.now) }
{
    Ok(Stat {
        kind: stat.kind,
        dev: stat.dev,
        qid: stat.qid,
        mode: stat.mode,
        atime: stat.atime,
        mtime: stat.mtime,
        length: stat.length,
        name: stat.name.clone()?,
        uid: stat.uid.clone()?,
        gid: stat.gid.clone()?,
        muid: stat.muid.clone()?,
    })
}
