//! The requests of a client of Linux that aren't answered, and what the server is asked in their
//! place. The bytes are in `for_linux`; the steps of a rename are cs_linux's.

use cs_linux::{Directories, Renaming, Step, directory_of, is_rename, renaming_of};
use cs_wire::{RBody, RKind, RMessage, TBody, TKind, TMessage, decode_reply, decode_request};
use std::alloc::Global;
use std::borrow::CowStr;

/// What is done with a reply of the server.
#[derive(Drop)]
pub(crate) enum ReplyFate {
    /// The client gets it.
    Passed,
    /// The client gets this one.
    Replaced(RMessage),
    /// The client gets none yet: the server is asked this first.
    Followed(TMessage<'static>),
}

/// What the server was asked on a connection, as far as its replies matter. Those to walks matter,
/// as a rename needs the fids on directories, and those to renames: a rename onto a name that is
/// taken is continued here by further requests, and the client gets one reply.
#[derive(Drop)]
pub(crate) struct PendingRequests {
    /// For messages that are decoded.
    alloc: Global,
    /// How many requests aren't answered yet.
    unanswered: u64,
    /// The last of them, if its reply matters.
    last: Option<TMessage<'static>>,
    /// The fids that walks put on directories since the last Rversion, and how many attaches there
    /// were.
    directories: Directories,
    /// The rename that is continued, if one is.
    renaming: Option<Renaming>,
}

/// The type of a client's message, by its fifth byte: its size is in the first four. None if there
/// are fewer bytes, or if no type of request has that number.
pub(crate) fn request_type_of(request: &[u8]) -> Option<TKind> {
    TKind::of_number(request.get(4).copied()?)
}

/// The type of a reply, by its fifth byte. None if there are fewer bytes, or if no type of reply
/// has that number.
pub(crate) fn reply_type_of(reply: &[u8]) -> Option<RKind> {
    RKind::of_number(reply.get(4).copied()?)
}

/// The same request, owned, if its reply matters: a walk, or a rename. None for any other. The
/// types are those that `decode_if_it_matters` decodes: change both.
fn owned_if_it_matters(request: TMessage<'_>) -> Option<TMessage<'static>> {
    let tag = request.tag;
    match request.body {
        TBody::Walk { fid, newfid, wname } => {
            let body = TBody::Walk { fid, newfid, wname };
            Some(TMessage { tag, body })
        }
        TBody::Wstat { fid, stat } => {
            if !is_rename(&stat) {
                return None;
            }
            let body = TBody::Wstat { fid, stat };
            Some(TMessage { tag, body })
        }
        _other => None,
    }
}

/// The request that the bytes spell, if its reply matters. None for any other, and for bytes that
/// can't be decoded, also because memory runs out: that request is passed on as one whose reply
/// doesn't matter. The types are those of `owned_if_it_matters`: change both.
fn decode_if_it_matters(alloc: Global, request: &[u8]) -> Option<TMessage<'static>> {
    match request_type_of(request) {
        Some(TKind::Walk | TKind::Wstat) => {}
        _ => return None,
    }
    match decode_request(alloc, request) {
        Ok(request) => owned_if_it_matters(request),
        Err(_) => None,
    }
}

/// The reply that the bytes spell. If they can't be decoded, an Rerror `out of memory` with their
/// tag: the server's own replies are well-formed, so only memory can be missing. `reply_to_linux`
/// of cs_linux knows this text.
fn reply_of(alloc: Global, reply: &[u8]) -> RMessage {
    match decode_reply(alloc, reply) {
        Ok(reply) => reply,
        Err(_) => {
            // the tag is in bytes 5 and 6, and a whole reply has at least 7 bytes
            let (low, high) = (reply.get(5).copied(), reply.get(6).copied());
            RMessage {
                tag: u16::from_le_bytes([low.unwrap_or(0), high.unwrap_or(0)]),
                body: RBody::Error {
                    ename: CowStr::Borrowed("out of memory"),
                },
            }
        }
    }
}

impl PendingRequests {
    /// A connection on which nothing was asked.
    pub(crate) fn new(alloc: Global) -> PendingRequests {
        PendingRequests {
            alloc,
            unanswered: 0,
            last: None,
            directories: Directories::new(),
            renaming: None,
        }
    }

    /// Notes a request that the client sent and the server is asked now; requests that a rename
    /// adds are noted by `note_reply`. True if its reply matters: then no other may be asked before
    /// that comes.
    pub(crate) fn note_request(&mut self, request: &[u8]) -> bool {
        // no connection has as many requests as a u64 counts
        self.unanswered = self.unanswered.saturating_add(1);
        self.last = decode_if_it_matters(self.alloc, request);
        self.last.is_some()
    }

    /// What is done with a reply after which a rename takes this step. If the step asks something,
    /// that is noted as the only request that isn't answered.
    fn fate_after_step(&mut self, step: Step) -> ReplyFate {
        match step {
            Step::Ask(renaming, request) => {
                self.unanswered = 1;
                self.renaming = Some(renaming);
                ReplyFate::Followed(request)
            }
            Step::Answer(reply) => ReplyFate::Replaced(reply),
        }
    }

    /// What is done with the reply to this walk or rename. A walk's fid is kept in `directories` if
    /// it may be on a directory. If memory runs out, the client gets the reply unchanged.
    fn fate_of_reply(&mut self, request: TMessage<'_>, reply: &[u8]) -> ReplyFate {
        let Ok(reply) = decode_reply(self.alloc, reply) else {
            return ReplyFate::Passed;
        };
        if let TBody::Walk { .. } = &request.body {
            if let Some(fid) = directory_of(&request.body, &reply.body) {
                self.directories.add(fid);
            }
            return ReplyFate::Passed;
        }
        match Vec::from_slice(self.alloc, self.directories.of_one_attach()) {
            Ok(directories) => self.fate_after_step(renaming_of(request, reply, directories)),
            Err(_) => ReplyFate::Passed,
        }
    }

    /// Notes the reply to the first request that isn't answered, and returns what is done with it.
    /// An Rversion forgets the directories' fids; an Rattach is counted, because a rename may use
    /// these fids only if there was one attach. A reply to a step of a rename leads to its next
    /// step.
    pub(crate) fn note_reply(&mut self, reply: &[u8]) -> ReplyFate {
        // the server replies only to requests
        self.unanswered = self.unanswered.saturating_sub(1);
        match reply_type_of(reply) {
            Some(RKind::Version) => self.directories = Directories::new(),
            Some(RKind::Attach) => self.directories.count_attach(),
            _ => {}
        }
        if self.unanswered > 0 {
            return ReplyFate::Passed;
        }
        if let Some(renaming) = self.renaming.take() {
            let step = renaming.next(self.alloc, reply_of(self.alloc, reply));
            return self.fate_after_step(step);
        }
        match self.last.take() {
            Some(request) => self.fate_of_reply(request, reply),
            None => ReplyFate::Passed,
        }
    }
}
