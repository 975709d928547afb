//! Messages as bytes on the wire, from outside.

use cs_wire::{
    RBody, RMessage, Stat, TBody, TMessage, WireFault, decode_reply, decode_request, encode_reply,
    encode_request,
};
use std::borrow::CowStr;
use std::process::Abort;

/// The bytes of a message, and its line.
struct Spelled(&'static [u8], &'static str);

/// Bytes that are no message, and their fault.
struct Faulty(&'static [u8], WireFault);

const REQUESTS: [Spelled; 14] = [
    Spelled(
        b"\x13\0\0\0d\xff\xff\0 \0\0\x06\09P2000",
        "Tversion tag 65535 msize 8192 version \"9P2000\"",
    ),
    Spelled(
        b"\x19\0\0\0h\x01\0\0\0\0\0\xff\xff\xff\xff\x03\0ann\x03\00/x",
        "Tattach tag 1 fid 0 afid 4294967295 uname \"ann\" aname \"0/x\"",
    ),
    Spelled(
        b"\x14\0\0\0n\x01\0\0\0\0\0\x01\0\0\0\x01\0\x01\0f",
        "Twalk tag 1 fid 0 newfid 1 wname [\"f\"]",
    ),
    Spelled(
        b"\x0c\0\0\0p\x01\0\x01\0\0\0\0",
        "Topen tag 1 fid 1 mode 0x00",
    ),
    Spelled(
        b"\x17\0\0\0t\x01\0\x01\0\0\0\0\0\0\0\0\0\0\0@\0\0\0",
        "Tread tag 1 fid 1 offset 0 count 64",
    ),
    Spelled(b"\x0b\0\0\0|\x01\0\x01\0\0\0", "Tstat tag 1 fid 1"),
    Spelled(b"\x0b\0\0\0x\x01\0\x01\0\0\0", "Tclunk tag 1 fid 1"),
    Spelled(
        b"\x15\0\0\0d\xff\xff\0 \0\0\x08\09P2000.L",
        "Tversion tag 65535 msize 8192 version \"9P2000.L\"",
    ),
    Spelled(
        b"\x0f\0\0\0d\xff\xff\0 \0\0\x02\08P",
        "Tversion tag 65535 msize 8192 version \"8P\"",
    ),
    Spelled(
        b"\x19\0\0\0h\x01\0\0\0\0\0\xff\xff\xff\xff\x03\0ann\x03\00/x",
        "Tattach tag 1 fid 0 afid 4294967295 uname \"ann\" aname \"0/x\"",
    ),
    Spelled(
        b"\x13\0\0\0r\x01\0\x01\0\0\0\x01\0g\xa4\x01\0\0\x01",
        "Tcreate tag 1 fid 1 name \"g\" perm 644 mode 0x01",
    ),
    Spelled(
        b"\x1a\0\0\0v\x01\0\x01\0\0\0\x05\0\0\0\0\0\0\0\x03\0\0\0abc",
        "Twrite tag 1 fid 1 offset 5 count 3",
    ),
    Spelled(b"\x0b\0\0\0z\x01\0\x01\0\0\0", "Tremove tag 1 fid 1"),
    Spelled(
        b"?\0\0\0~\x01\0\x01\0\0\0\x32\0\x30\0\xff\xff\xff\xff\xff\xff\xff\xff\xff\xff\xff\xff\xff\xff\xff\xff\xff\xff\xff\xff\xff\xff\xff\xff\xff\xff\xff\xff\xff\xff\xff\xff\xff\xff\xff\xff\xff\xff\xff\x01\0g\0\0\0\0\0\0",
        "Twstat tag 1 fid 1 type 65535 dev 4294967295 qid (ff 4294967295 18446744073709551615) mode 37777777777 atime 4294967295 mtime 4294967295 length 18446744073709551615 name \"g\" uid \"\" gid \"\" muid \"\"",
    ),
];

fn expect_request_written(rt: &(impl Abort + AllocGlobal), message: &TMessage<'_>, bytes: &[u8]) {
    assert!(rt; message.fits());
    let mut out = Vec::new(rt.alloc());
    encode_request(message, &mut out).expect(rt, "memory");
    assert!(rt; out.as_slice() == bytes);
    assert!(rt; message.spelled_length() == bytes.len());
}

fn expect_request(rt: &(impl Abort + AllocGlobal), spelled: &Spelled) {
    let message = decode_request(rt.alloc(), spelled.0).expect(rt, "a message");
    let mut shown = String::new(rt.alloc());
    write!(shown, "{message}").expect(rt, "memory");
    assert!(rt; shown.as_str() == spelled.1, "{shown}");
    expect_request_written(rt, &message, spelled.0);
}

/// The requests of the first exchange, and versions `9P2000.L` and `8P`: read, printed, and written
/// again to the same bytes. So are a Tcreate, a Twrite, a Tremove, and a Twstat that changes only
/// the name.
#[test]
fn requests_are_read_and_written_again(rt: HostRuntime) {
    for spelled in &REQUESTS {
        expect_request(&rt, spelled);
    }
}

const REPLIES: [Spelled; 15] = [
    Spelled(
        b"\x13\0\0\0e\xff\xff\0 \0\0\x06\09P2000",
        "Rversion tag 65535 msize 8192 version \"9P2000\"",
    ),
    Spelled(
        b"\x14\0\0\0i\x01\0\x80\0\0\0\0\0\0\0\0\0\0\0\0",
        "Rattach tag 1 qid (80 0 0)",
    ),
    Spelled(
        b"\x16\0\0\0o\x01\0\x01\0\0\0\0\0\0\x04\0\0\0\0\0\0\0",
        "Rwalk tag 1 wqid [(00 0 4)]",
    ),
    Spelled(
        b"\x18\0\0\0q\x01\0\0\0\0\0\0\x04\0\0\0\0\0\0\0\0\0\0\0",
        "Ropen tag 1 qid (00 0 4) iounit 0",
    ),
    Spelled(b"\x10\0\0\0u\x01\0\x05\0\0\0hello", "Rread tag 1 count 5"),
    Spelled(
        b"F\0\0\0}\x01\0=\0;\0\0\0\0\0\0\0\0\0\0\0\0\x04\0\0\0\0\0\0\0\xb4\x01\0\0\0\0\0\0\0\0\0\0\x05\0\0\0\0\0\0\0\x01\0f\x03\0ann\x05\0staff\x03\0ann",
        "Rstat tag 1 type 0 dev 0 qid (00 0 4) mode 664 atime 0 mtime 0 length 5 name \"f\" uid \"ann\" gid \"staff\" muid \"ann\"",
    ),
    Spelled(b"\x07\0\0\0y\x01\0", "Rclunk tag 1"),
    Spelled(
        b"\x13\0\0\0e\xff\xff\0 \0\0\x06\09P2000",
        "Rversion tag 65535 msize 8192 version \"9P2000\"",
    ),
    Spelled(
        b"\x14\0\0\0e\xff\xff\0 \0\0\x07\0unknown",
        "Rversion tag 65535 msize 8192 version \"unknown\"",
    ),
    Spelled(
        b"\x16\0\0\0k\x01\0\x0d\0S1 no session",
        "Rerror tag 1 ename \"S1 no session\"",
    ),
    Spelled(
        b"#\0\0\0o\x01\0\x02\0\x80\0\0\0\0\x01\0\0\0\0\0\0\0\0\x02\0\0\0\x04\0\0\0\0\0\0\0",
        "Rwalk tag 1 wqid [(80 0 1), (00 2 4)]",
    ),
    Spelled(
        b"\x18\0\0\0s\x01\0\0\0\0\0\0\x06\0\0\0\0\0\0\0\0\0\0\0",
        "Rcreate tag 1 qid (00 0 6) iounit 0",
    ),
    Spelled(b"\x0b\0\0\0w\x01\0\x03\0\0\0", "Rwrite tag 1 count 3"),
    Spelled(b"\x07\0\0\0{\x01\0", "Rremove tag 1"),
    Spelled(b"\x07\0\0\0\x7f\x01\0", "Rwstat tag 1"),
];

fn expect_reply_written(rt: &(impl Abort + AllocGlobal), message: &RMessage, bytes: &[u8]) {
    assert!(rt; message.fits());
    let mut out = Vec::new(rt.alloc());
    encode_reply(message, &mut out).expect(rt, "memory");
    assert!(rt; out.as_slice() == bytes);
    assert!(rt; message.spelled_length() == bytes.len());
}

fn expect_reply(rt: &(impl Abort + AllocGlobal), spelled: &Spelled) {
    let message = decode_reply(rt.alloc(), spelled.0).expect(rt, "a reply");
    let mut shown = String::new(rt.alloc());
    write!(shown, "{message}").expect(rt, "memory");
    assert!(rt; shown.as_str() == spelled.1, "{shown}");
    expect_reply_written(rt, &message, spelled.0);
}

/// Their replies, `unknown`, an Rerror `S1 no session`, an Rwalk of two qids, an Rcreate, an
/// Rwrite, an Rremove and an Rwstat, likewise.
#[test]
fn replies_are_read_and_written_again(rt: HostRuntime) {
    for spelled in &REPLIES {
        expect_reply(&rt, spelled);
    }
}

const CUT: Faulty = Faulty(b"\x07\0\0\0d\xff", WireFault::Short);

fn expect_fault(rt: &(impl Abort + AllocGlobal), faulty: &Faulty) {
    let fault = decode_request(rt.alloc(), faulty.0)
        .err()
        .expect(rt, "a fault");
    assert!(rt; fault == faulty.1);
}

/// Six bytes are Short. A script and a stream refuse them before they are decoded.
#[test]
fn the_first_fault_is_reported(rt: HostRuntime) {
    expect_fault(&rt, &CUT);
}

const REPLY_FAULTS: [Faulty; 10] = [
    Faulty(b"\x09\0\0\0o\x01\0\x11\0", WireFault::TooManyNames),
    Faulty(
        b"F\0\0\0}\x01\0=\0<\0\0\0\0\0\0\0\0\0\0\0\0\x04\0\0\0\0\0\0\0\xb4\x01\0\0\0\0\0\0\0\0\0\0\x05\0\0\0\0\0\0\0\x01\0f\x03\0ann\x05\0staff\x03\0ann",
        WireFault::SizeLies,
    ),
    Faulty(b"\x0a\0\0\0}\x01\0\x01\0\0", WireFault::SizeLies),
    Faulty(b"\x07\0\0\0j\x01\0", WireFault::UnknownType),
    Faulty(b"\x0b\0\0\0u\x01\0\x05\0\0\0", WireFault::Short),
    Faulty(
        b"<\0\0\0}\x01\0\x32\0\x30\0\0\0\0\0\0\0\0\0\0\0\0\0\0\0\0\0\0\0\0\0\0\0\0\0\0\0\0\0\0\0\0\0\0\0\0\0\0\0\0\x01\0f\0\0\0\0\x01\0\0",
        WireFault::SizeLies,
    ),
    Faulty(
        b";\0\0\0}\x01\0\x32\0\x30\0\0\0\0\0\0\0\0\0\0\0\0\0\0\0\0\0\0\0\0\0\0\0\0\0\0\0\0\0\0\0\0\0\0\0\0\0\0\0\0\x01\0\0\0\0\0\0\0\0",
        WireFault::BadText,
    ),
    Faulty(
        b"<\0\0\0}\x01\0\x33\0\x31\0\0\0\0\0\0\0\0\0\0\0\0\0\0\0\0\0\0\0\0\0\0\0\0\0\0\0\0\0\0\0\0\0\0\0\0\0\0\0\0\x01\0f\0\0\0\0\0\0\0",
        WireFault::SizeLies,
    ),
    Faulty(
        b"<\0\0\0}\x01\0\x32\0\x30\0\0\0\0\0\0\0\0\0\0\0\0\0\0\0\0\0\0\0\0\0\0\0\0\0\0\0\0\0\0\0\0\0\0\0\0\0\0\0\0\x01\0f\0\0\0\0\0\0\0",
        WireFault::Trailing,
    ),
    Faulty(
        b";\0\0\0}\x01\0\x33\0\x30\0\0\0\0\0\0\0\0\0\0\0\0\0\0\0\0\0\0\0\0\0\0\0\0\0\0\0\0\0\0\0\0\0\0\0\0\0\0\0\0\x01\0f\0\0\0\0\0\0",
        WireFault::Short,
    ),
];

fn expect_reply_fault(rt: &(impl Abort + AllocGlobal), faulty: &Faulty) {
    let fault = decode_reply(rt.alloc(), faulty.0)
        .err()
        .expect(rt, "a fault");
    assert!(rt; fault == faulty.1);
}

/// 17 qids; a stat whose inner size is wrong, and one of one byte; type 106; data that run past the
/// end; a stat with a text that runs past it, a NUL, a byte left in it, a byte after it, and bytes
/// that are missing.
#[test]
fn the_first_fault_of_a_reply_is_reported(rt: HostRuntime) {
    for faulty in &REPLY_FAULTS {
        expect_reply_fault(&rt, faulty);
    }
}

/// A reply to a version whose text is a constant is written to its bytes.
#[test]
fn a_reply_to_version_can_have_a_constant_text(rt: HostRuntime) {
    let body = RBody::Version {
        msize: 8192,
        version: CowStr::Borrowed("9P2000"),
    };
    let message = RMessage { tag: 65535, body };
    expect_reply_written(&rt, &message, b"\x13\0\0\0e\xff\xff\0 \0\0\x06\09P2000");
}

/// The reply to a stat of `/f`.
const F: &[u8] =
    b"F\0\0\0}\x01\0=\0;\0\0\0\0\0\0\0\0\0\0\0\0\x04\0\0\0\0\0\0\0\xb4\x01\0\0\0\0\0\0\0\0\0\0\x05\0\0\0\0\0\0\0\x01\0f\x03\0ann\x05\0staff\x03\0ann";

fn expect_entry(rt: &(impl Abort + AllocGlobal), stat: &Stat, bytes: &[u8]) {
    let stat = stat.as_stat_ref();
    assert!(rt; stat.fits());
    let mut out = Vec::new(rt.alloc());
    stat.encode_entry(&mut out).expect(rt, "memory");
    assert!(rt; out.as_slice() == bytes);
    assert!(rt; stat.entry_length() == 61);
}

/// An entry by itself is the last 61 bytes of the Rstat that has it.
#[test]
fn an_entry_is_what_a_reply_to_stat_holds(rt: HostRuntime) {
    let reply = decode_reply(rt.alloc(), F).expect(&rt, "a reply");
    let RBody::Stat { stat } = &reply.body else {
        panic!(rt; "the reply is Rstat");
    };
    expect_entry(&rt, stat, &F[9..]);
}

/// A Twstat that changes only the name.
const NAMED_G: &[u8] =
    b"?\0\0\0~\x01\0\x01\0\0\0\x32\0\x30\0\xff\xff\xff\xff\xff\xff\xff\xff\xff\xff\xff\xff\xff\xff\xff\xff\xff\xff\xff\xff\xff\xff\xff\xff\xff\xff\xff\xff\xff\xff\xff\xff\xff\xff\xff\xff\xff\xff\xff\x01\0g\0\0\0\0\0\0";

/// The mode, and the name and the gid, which are moved out.
fn taken_apart(stat: Stat) -> (u32, String, String) {
    let Stat {
        mode,
        name,
        gid,
        ..
    } = stat;
    (mode, name, gid)
}

/// The stat of a Twstat is taken apart, and its texts are moved out.
#[test]
fn a_stat_that_was_read_is_taken_apart(rt: HostRuntime) {
    let request = decode_request(rt.alloc(), NAMED_G).expect(&rt, "a message");
    let TBody::Wstat { fid, stat } = request.body else {
        panic!(rt; "the message is Twstat");
    };
    assert!(rt; fid == 1);
    let (mode, name, gid) = taken_apart(stat);
    assert!(rt; mode == 4294967295);
    assert!(rt; name.as_str() == "g", "{name}");
    assert!(rt; gid.as_str() == "", "{gid}");
}
