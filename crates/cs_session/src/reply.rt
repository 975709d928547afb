//! The replies to steps and messages.

use cs_names::{Bytes, RuleId};
use cs_run::{FileStat, Walk};
use cs_wire::Qid;

/// The reply to a step. The reply to a message's last step is the reply to the message. Each grant
/// has the name of the message that carries it on the wire.
#[derive(Debug, Drop)]
pub enum Reply {
    /// The message size, and whether the version is one that this server speaks.
    Version { msize: u32, is_spoken: bool },
    /// The run of an attach was found: the attach itself is the next step.
    Found,
    /// The qid of the run's root.
    Attach(Qid),
    /// The qids of the files that were reached, and the rule that stopped the walk, if one did.
    Walk(Walk),
    /// The qid of the file, which is open now.
    Open(Qid),
    /// The qid of the new file, which is open now.
    Create(Qid),
    /// The bytes that were read.
    Read(Bytes),
    /// How many bytes were written.
    Write(u32),
    /// The fid is free.
    Clunk,
    /// The file is removed, and the fid is free.
    Remove,
    /// The file's attributes.
    Stat(FileStat),
    /// The attributes are changed.
    Wstat,
    /// The answer to each Tflush: the message that it names was answered before (flush(5)).
    Flush,
    /// The connection has ended.
    Closed,
    /// The first rule that fails.
    Error(RuleId),
    /// Out of memory.
    Memory,
}
