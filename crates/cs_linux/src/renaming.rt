//! The steps of a rename onto a name that is taken, from one reply to the next. `rename` says what
//! its source and its target are. Nothing is sent here: each step is a request for the server or
//! the reply for the client. If memory runs out for a request, the rename ends with the refusal of
//! the client's own request.
ghost use Rattle.std.specs.Prelude.{◌≡◌, ◌<◌, IsSome};
ghost use Rattle.cs_linux.specs.Renames.{AfterDirectory, AfterRemoval, AfterSource, AfterTarget};
ghost use Rattle.cs_linux.specs.Renames.{Begins, Ends, Follows, FreesTarget, Refuses, Tries};
ghost use Rattle.cs_linux.specs.Renames.{came_to, is_taken, last_untried};

use crate::rename::{File, Rename, Renaming, Step};
use crate::requests::{
    is_directory_qid, is_rename, tclunk, tremove, tstat, twalk, twalk_probe, twstat,
};
use cs_names::RuleId;
use cs_wire::{Qid, RBody, RMessage, TBody, TMessage};
use std::alloc::Global;

/// The last step: the client gets the refusal of its own request.
fn refuse(rename: Rename) -> Step
    ensures { Refuses result rename }
{
    Step::Answer(rename.refusal)
}

/// The last step, after a reply with which the rename can't continue: the client gets the reply if
/// it is an Rerror, else the refusal of its own request. Nothing was changed.
fn end_after(rename: Rename, reply: RMessage) -> Step
    ensures { Ends result rename reply reply.body }
{
    match &reply.body {
        RBody::Error { .. } => Step::Answer(reply),
        _ => refuse(rename),
    }
}

/// The last fid that wasn't tried yet: the last of the first `left` fids. None if `left` is 0, or
/// greater than the number of fids.
fn last_untried(fids: &[u32], left: usize) -> Option<u32>
    ensures value { result ≡ last_untried fids.now left }
    ensures some { IsSome result → 0 < left }
{
    if left == 0 {
        return None;
    }
    fids.get(left - 1).copied()
}

/// The step that looks for the source in the last of the first `left` directories. If there is
/// none, or memory runs out, the rename ends with its refusal.
fn try_last(alloc: Global, rename: Rename, file: File, left: usize) -> Step
    ensures { Tries result rename file left }
{
    let Some(directory) = last_untried(&rename.directories, left) else {
        return refuse(rename);
    };
    let left = left - 1;
    match twalk_probe(alloc, rename.tag, directory, &file.name) {
        Ok(request) => {
            let renaming = Renaming::Directory {
                rename,
                file,
                directory,
                left,
            };
            Step::Ask(renaming, request)
        }
        Err(_) => refuse(rename),
    }
}

/// The step after the Tstat of the source: it is looked for in the client's directories. A rename
/// of a directory ends with its refusal, and after any other reply as in `end_after`.
fn after_source(alloc: Global, rename: Rename, reply: RMessage) -> Step
    ensures { AfterSource result rename reply reply.body }
{
    let RMessage { tag, body } = reply;
    match body {
        RBody::Stat { stat } if is_directory_qid(stat.qid) => refuse(rename),
        RBody::Stat { stat } => {
            let left = rename.directories.len();
            let file = File {
                name: stat.name,
                number: stat.qid.path,
            };
            try_last(alloc, rename, file, left)
        }
        body => end_after(rename, RMessage { tag, body }),
    }
}

/// Whether a walk found the file of that number: the reply has one qid, and it is the file's.
fn is_walk_to(number: u64, wqid: &[Qid]) -> bool
    ensures { result ≡ came_to number wqid.now }
{
    match wqid {
        [qid] => qid.path == number,
        _ => false,
    }
}

/// The step after the walk in `directory`: if it found the source, a walk to the new name there.
/// After any other reply, also an error, the last of the `left` directories is tried. If none is
/// left, or memory runs out, the rename ends with its refusal.
fn after_directory(
    alloc: Global,
    rename: Rename,
    file: File,
    directory: u32,
    left: usize,
    reply: RMessage,
) -> Step
    ensures { AfterDirectory result rename file directory left reply.body }
{
    let found = match &reply.body {
        RBody::Walk { wqid } => is_walk_to(file.number, wqid),
        _ => false,
    };
    if !found {
        return try_last(alloc, rename, file, left);
    }
    match twalk(alloc, rename.tag, directory, &rename.stat.name) {
        Ok(request) => Step::Ask(Renaming::Target(rename), request),
        Err(_) => refuse(rename),
    }
}

/// The step after a walk to the new name with these qids. A single qid is that of the target: if it
/// is a file, it is removed; if it is a directory, `OWN_FID` is clunked, and the rename will be
/// refused. With any other number of qids it is refused at once.
fn free_target(rename: Rename, wqid: &[Qid]) -> Step
    ensures { FreesTarget result rename wqid.now }
{
    let tag = rename.tag;
    match wqid {
        [qid] if is_directory_qid(*qid) => Step::Ask(Renaming::Release(rename), tclunk(tag)),
        [_] => Step::Ask(Renaming::Removal(rename), tremove(tag)),
        _ => refuse(rename),
    }
}

/// The step after the walk to the new name: that of `free_target` if the reply is an Rwalk, else
/// that of `end_after`.
fn after_target(rename: Rename, reply: RMessage) -> Step
    ensures { AfterTarget result rename reply reply.body }
{
    match &reply.body {
        RBody::Walk { wqid } => free_target(rename, wqid),
        _ => end_after(rename, reply),
    }
}

/// The step after the removal of the target: the client's own request again; if nothing was
/// removed, that of `end_after`. A Tremove clunks `OWN_FID` either way (remove(5)).
fn after_removal(rename: Rename, reply: RMessage) -> Step
    ensures { AfterRemoval result rename reply reply.body }
{
    match &reply.body {
        RBody::Remove => {
            let Rename { tag, fid, stat, .. } = rename;
            Step::Ask(Renaming::Again, twstat(tag, fid, stat))
        }
        _ => end_after(rename, reply),
    }
}

/// Whether the reply is the refusal by Q7: the new name is taken. It is found by the rule's text.
fn is_taken(body: &RBody) -> bool
    ensures { result ≡ is_taken body.now }
{
    match body {
        RBody::Error { ename } => ename.as_str() == RuleId::Q7.text(),
        _ => false,
    }
}

/// The first step after a request and its reply. If the request is a Twstat of only a new name, and
/// was refused because that name is taken, a rename begins, and the client gets no reply yet. Else
/// the client gets the reply. `directories` are the fids that the rename may try, from the last on:
/// those of `Directories::of_one_attach`. It allocates nothing.
pub fn renaming_of(request: TMessage<'_>, reply: RMessage, directories: Vec<u32>) -> Step
    ensures { Begins result request.entry.tag request.entry.body reply directories }
{
    let TMessage { tag, body } = request;
    let TBody::Wstat { fid, stat } = body else {
        return Step::Answer(reply);
    };
    if !is_taken(&reply.body) || !is_rename(&stat) {
        return Step::Answer(reply);
    }
    let rename = Rename {
        tag,
        fid,
        stat,
        refusal: reply,
        directories,
    };
    Step::Ask(Renaming::Source(rename), tstat(tag, fid))
}

impl Renaming {
    /// The step after the reply to the rename's last request. After the client's own request, sent
    /// again, the client gets its reply: if that is an error, the target is gone nevertheless.
    /// After a clunk it gets its refusal, whatever the reply.
    pub fn next(self, alloc: Global, reply: RMessage) -> Step
        ensures { Follows self reply result }
    {
        match self {
            Renaming::Source(rename) => after_source(alloc, rename, reply),
            Renaming::Directory {
                rename,
                file,
                directory,
                left,
            } => after_directory(alloc, rename, file, directory, left, reply),
            Renaming::Target(rename) => after_target(rename, reply),
            Renaming::Removal(rename) => after_removal(rename, reply),
            Renaming::Again => Step::Answer(reply),
            Renaming::Release(rename) => refuse(rename),
        }
    }
}
