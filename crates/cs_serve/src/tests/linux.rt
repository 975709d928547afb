//! A stream as Linux's own client needs it.

use crate::for_linux::LinuxStream;
use crate::pending::{PendingRequests, ReplyFate};
use std::alloc::Global;
use std::collections::VecDeque;
use std::io::{self, Read, Write};
use std::process::Abort;

const CLUNK: &[u8] = b"\x0b\0\0\0x\x01\0\x01\0\0\0";

/// A Twstat of another mtime, as Linux sends it: with an atime, and a user who changed it last.
const WSTAT: &[u8] =
    b"\x41\0\0\0\x7e\x02\0\x01\0\0\0\x34\0\x32\0\xff\xff\xff\xff\xff\xff\xff\xff\xff\xff\xff\xff\xff\xff\xff\xff\xff\xff\xff\xff\xff\xff\xff\x05\0\0\0\x09\0\0\0\xff\xff\xff\xff\xff\xff\xff\xff\0\0\0\0\0\0\x03\0ann";

/// The same without these two.
const MEANT: &[u8] =
    b"\x3e\0\0\0\x7e\x02\0\x01\0\0\0\x31\0\x2f\0\xff\xff\xff\xff\xff\xff\xff\xff\xff\xff\xff\xff\xff\xff\xff\xff\xff\xff\xff\xff\xff\xff\xff\xff\xff\xff\xff\x09\0\0\0\xff\xff\xff\xff\xff\xff\xff\xff\0\0\0\0\0\0\0\0";

/// An Rerror with a rule's text, and an Rclunk.
const DENIED: &[u8] = b"\x18\0\0\0\x6b\x07\0\x0f\0K8 no such name\x07\0\0\0\x79\x08\0";

/// The same, as the client gets them.
const RECEIVED: &[u8] = b"\x22\0\0\0\x6b\x07\0\x19\0No such file or directory\x07\0\0\0\x79\x08\0";

/// What a reader gives to its end, as many bytes at a time as `piece` holds.
fn read_to_end<R: Read>(alloc: Global, reader: &mut R, piece: &mut [u8]) -> io::Result<Vec<u8>> {
    let mut bytes = Vec::new(alloc);
    for _ in 0..1_000u32 {
        let count = reader.read(piece)?;
        if count == 0 {
            break;
        }
        bytes.extend_from_slice(&piece[..count])?;
    }
    Ok(bytes)
}

/// Messages of Linux, the last of which is cut, and what they are read as.
const SENT: [&[u8]; 4] = [CLUNK, WSTAT, CLUNK, b"cut"];

const MEANT_ALL: [&[u8]; 4] = [CLUNK, MEANT, CLUNK, b"cut"];

/// Writes the pieces, one after the other.
fn write_each<W: Write>(writer: &mut W, pieces: &[&[u8]]) -> io::Result<()> {
    for piece in pieces {
        writer.write_all(piece)?;
    }
    Ok(())
}

/// What the stream gives to its end, as many bytes at a time as `piece` holds, is these pieces, one
/// after the other.
fn gives<R: Read>(
    rt: &(impl Abort + AllocGlobal),
    stream: &mut R,
    piece: &mut [u8],
    wanted: &[&[u8]],
) {
    let bytes = read_to_end(rt.alloc(), stream, piece).expect(rt, "memory");
    let mut joined = Vec::new(rt.alloc());
    write_each(&mut joined, wanted).expect(rt, "memory");
    assert!(rt; bytes.as_slice() == joined.as_slice());
}

/// A clunk, a Twstat with an atime, a new mtime and a muid, a clunk and three bytes more, read five
/// bytes at a time: the Twstat has neither atime nor muid, and all else is what was sent.
#[test]
fn a_wstat_asks_for_no_other_atime_or_muid(rt: HostRuntime) {
    let mut sent = VecDeque::new(rt.alloc());
    write_each(&mut sent, &SENT).expect(&rt, "memory");
    let mut stream = LinuxStream::new(rt.alloc(), sent);
    gives(&rt, &mut stream, &mut [0u8; 5], &MEANT_ALL);
}

/// An Rerror with K8 and an Rclunk, written in two pieces: `No such file or directory`, and the
/// Rclunk.
#[test]
fn a_denial_is_sent_as_an_error_of_linux(rt: HostRuntime) {
    let mut stream = LinuxStream::new(rt.alloc(), VecDeque::new(rt.alloc()));
    let (front, rest) = DENIED.split_at(9);
    write_each(&mut stream, &[front, rest]).expect(&rt, "memory");
    // the bytes are read back as requests, which they aren't, so they come back as they are
    gives(&rt, &mut stream, &mut [0u8; 64], &[RECEIVED]);
}

/// The requests with which a session begins, and their replies: an attach of fid 0, and a walk that
/// makes fid 5 of it.
const SESSION: [(&[u8], &[u8]); 3] = [
    (
        b"\x13\0\0\0d\xff\xff\0 \0\0\x06\09P2000",
        b"\x13\0\0\0e\xff\xff\0 \0\0\x06\09P2000",
    ),
    (
        b"\x17\0\0\0h\x01\0\0\0\0\0\xff\xff\xff\xff\x03\0cat\x01\x000",
        b"\x14\0\0\0i\x01\0\x80\0\0\0\0\0\0\0\0\0\0\0\0",
    ),
    (
        b"\x11\0\0\0n\x01\0\0\0\0\0\x05\0\0\0\0\0",
        b"\x09\0\0\0o\x01\0\0\0",
    ),
];

/// A Twstat that gives the file of fid 1 the name `g`, the refusal of that name, and an Rstat of a
/// file `f`, which replies to the first step of the rename.
const RENAME: &[u8] =
    b"?\0\0\0~\x02\0\x01\0\0\02\00\0\xff\xff\xff\xff\xff\xff\xff\xff\xff\xff\xff\xff\xff\xff\xff\xff\xff\xff\xff\xff\xff\xff\xff\xff\xff\xff\xff\xff\xff\xff\xff\xff\xff\xff\xff\xff\xff\xff\xff\x01\0g\0\0\0\0\0\0";

const TAKEN: &[u8] = b"\x17\0\0\0k\x02\0\x0e\0Q7 name exists";

const FILE: &[u8] =
    b"D\0\0\0}\x02\0;\09\0\0\0\0\0\0\0\0\0\0\0\0\x01\0\0\0\0\0\0\0\xa4\x01\0\0\0\0\0\0\0\0\0\0\0\0\0\0\0\0\0\0\x01\0f\x03\0cat\x03\0cat\x03\0cat";

/// Notes these requests, each with its reply.
fn note_each(pending: &mut PendingRequests, session: &[(&[u8], &[u8])]) {
    for (request, reply) in session {
        let _matters = pending.note_request(request);
        let _passed = pending.note_reply(reply);
    }
}

/// Whether a rename onto a name that is taken looks for its file in a directory.
fn looks_in_a_directory(pending: &mut PendingRequests) -> bool {
    let _matters = pending.note_request(RENAME);
    let _asked = pending.note_reply(TAKEN);
    let looks = matches!(pending.note_reply(FILE), ReplyFate::Followed(_));
    // the file isn't there: so the rename ends
    let _refused = pending.note_reply(TAKEN);
    looks
}

/// A rename looks for its file in the directories of its own session: after a second Tversion and
/// attach in the one that was walked to since, and in none if none was. The attach and the
/// directory of the first session don't count any more.
#[test]
fn a_session_has_its_own_attach_and_directories(rt: HostRuntime) {
    let mut pending = PendingRequests::new(rt.alloc());
    note_each(&mut pending, &SESSION);
    note_each(&mut pending, &SESSION);
    assert!(rt; looks_in_a_directory(&mut pending));
    note_each(&mut pending, &SESSION[..1]);
    assert!(rt; !looks_in_a_directory(&mut pending));
}
