//! Connections over streams whose bytes come in pieces of any size, and whose calls fail.
use super::fake_port::Fake;
use cs_session::{Clock, ServeFault, serve_stream};
use cs_stream::{Counted, Counts, Stream, Transfer, TwoEnded, write_all};
use cs_wire::FrameFault;
use std::alloc::Global;
use std::io::{self, Error, ErrorKind, Read, Write};
use std::process::Abort;

/// A client's version, attach of ann to `0/a`, open of the root, and clunk, from outside.
const REQUESTS: [&[u8]; 4] = [
    b"\x13\0\0\0d\xff\xff\0 \0\0\x06\09P2000",
    b"\x19\0\0\0h\x01\0\0\0\0\0\xff\xff\xff\xff\x03\0ann\x03\00/a",
    b"\x0c\0\0\0p\x01\0\0\0\0\0\0",
    b"\x0b\0\0\0x\x01\0\0\0\0\0",
];

/// Their replies from a port whose every qid is of file 3 at version 4.
const REPLIES: &[u8] =
    b"\x13\0\0\0e\xff\xff\0 \0\0\x06\09P2000\x14\0\0\0i\x01\0\0\x04\0\0\0\x03\0\0\0\0\0\0\0\x18\0\0\0q\x01\0\0\x04\0\0\0\x03\0\0\0\0\0\0\0\0\0\0\0\x07\0\0\0y\x01\0";

/// The same requests, one after the other.
const ALL_REQUESTS: &[u8] =
    b"\x13\0\0\0d\xff\xff\0 \0\0\x06\09P2000\x19\0\0\0h\x01\0\0\0\0\0\xff\xff\xff\xff\x03\0ann\x03\00/a\x0c\0\0\0p\x01\0\0\0\0\0\0\x0b\0\0\0x\x01\0\0\0\0\0";

/// All of them except the clunk.
const THREE_REQUESTS: &[u8] =
    b"\x13\0\0\0d\xff\xff\0 \0\0\x06\09P2000\x19\0\0\0h\x01\0\0\0\0\0\xff\xff\xff\xff\x03\0ann\x03\00/a\x0c\0\0\0p\x01\0\0\0\0\0\0";

/// These, and a size that no message has.
const UNFINISHED: &[u8] =
    b"\x13\0\0\0d\xff\xff\0 \0\0\x06\09P2000\x19\0\0\0h\x01\0\0\0\0\0\xff\xff\xff\xff\x03\0ann\x03\00/a\x0c\0\0\0p\x01\0\0\0\0\0\0\x05\0\0\0";

/// A clock that always gives the same moment.
#[derive(Drop)]
pub struct Standing;

impl Clock for Standing {
    fn now(&mut self) -> u32 {
        720
    }
}

/// A clock that advances by a minute each time it is read.
#[derive(Drop)]
struct Ticking {
    moment: u32,
}

impl Clock for Ticking {
    fn now(&mut self) -> u32 {
        let now = self.moment;
        self.moment = now.wrapping_add(60);
        now
    }
}

/// Gives its bytes in pieces of at most so many, after so many reads that are interrupted.
#[derive(Drop)]
struct Pieces<'a> {
    bytes: &'a [u8],
    most: usize,
    interruptions: u32,
}

impl Read for Pieces<'_> {
    fn read(&mut self, buf: &mut [u8]) -> io::Result<usize> {
        if self.interruptions > 0 {
            self.interruptions -= 1;
            return Err(Error::from(ErrorKind::Interrupted));
        }
        let count = self.most.min(buf.len()).min(self.bytes.len());
        let (piece, rest) = self.bytes.split_at(count);
        let (front, _) = buf.split_at_mut(count);
        front.copy_from_slice(piece);
        self.bytes = rest;
        Ok(count)
    }
}

/// A writer that takes so many bytes at a time, after so many writes that are interrupted.
#[derive(Drop)]
struct Narrow {
    taken: Vec<u8>,
    most: usize,
    interruptions: u32,
}

impl Write for Narrow {
    fn write(&mut self, buf: &[u8]) -> io::Result<usize> {
        if self.interruptions > 0 {
            self.interruptions -= 1;
            return Err(Error::from(ErrorKind::Interrupted));
        }
        let count = self.most.min(buf.len());
        let (front, _) = buf.split_at(count);
        match self.taken.extend_from_slice(front) {
            Ok(()) => Ok(count),
            Err(_) => Err(Error::from(ErrorKind::OutOfMemory)),
        }
    }

    fn flush(&mut self) -> io::Result<()> {
        Ok(())
    }
}

/// A client that sends each request after the reply to the one before, and then disconnects.
#[derive(Drop)]
struct Client {
    sent: usize,
    replied: usize,
    replies: Vec<u8>,
}

impl Read for Client {
    fn read(&mut self, buf: &mut [u8]) -> io::Result<usize> {
        let Some(request) = REQUESTS.get(self.sent) else {
            return Err(Error::from(ErrorKind::ConnectionReset));
        };
        if self.replied != self.sent {
            return Err(Error::from(ErrorKind::WouldBlock));
        }
        self.sent = self.sent.wrapping_add(1);
        let count = request.len().min(buf.len());
        let (front, _) = buf.split_at_mut(count);
        front.copy_from_slice(&request[..count]);
        Ok(count)
    }
}

impl Write for Client {
    fn write(&mut self, buf: &[u8]) -> io::Result<usize> {
        self.replied = self.replied.wrapping_add(1);
        match self.replies.extend_from_slice(buf) {
            Ok(()) => Ok(buf.len()),
            Err(_) => Err(Error::from(ErrorKind::OutOfMemory)),
        }
    }

    fn flush(&mut self) -> io::Result<()> {
        Ok(())
    }
}

/// Serves a stream with this end for reading, and checks its result and what it writes.
fn expect_served<R: Read + Drop>(
    rt: &(impl Abort + AllocGlobal),
    reader: R,
    wanted: Result<(), ServeFault>,
    written: &[u8],
) {
    let mut stream = TwoEnded::new(reader, Vec::new(rt.alloc()));
    let mut port = Fake::new(rt.alloc());
    let served = serve_stream(rt.alloc(), &mut stream, &mut port, &mut Standing);
    assert!(rt; served == wanted);
    assert!(rt; stream.into_writer().as_slice() == written);
}

const CUT: Result<(), ServeFault> = Err(ServeFault::FrameFault(FrameFault::Cut));

const UNDERSIZE: Result<(), ServeFault> = Err(ServeFault::FrameFault(FrameFault::Undersize));

const OVERSIZE: Result<(), ServeFault> = Err(ServeFault::FrameFault(FrameFault::Oversize));

/// A Tversion and three bytes more through `serve_stream`: one Rversion, then FrameFault Cut.
#[test]
fn a_version_and_three_bytes_more_is_cut(rt: HostRuntime) {
    expect_served(
        &rt,
        b"\x13\0\0\0d\xff\xff\0 \0\0\x06\09P2000\x19\0\0".as_slice(),
        CUT,
        b"\x13\0\0\0e\xff\xff\0 \0\0\x06\09P2000",
    );
}

/// A size of 6 is FrameFault Undersize, one of 65,537 Oversize; nothing is written.
#[test]
fn a_size_that_no_message_has_ends_the_connection(rt: HostRuntime) {
    expect_served(&rt, b"\x06\0\0\0d\xff\xff".as_slice(), UNDERSIZE, b"");
    expect_served(&rt, b"\x01\0\x01\0d\xff\xff".as_slice(), OVERSIZE, b"");
}

/// The requests in pieces of at most so many bytes, after so many interruptions.
fn cut_up(most: usize, interruptions: u32) -> Pieces<'static> {
    Pieces {
        bytes: ALL_REQUESTS,
        most,
        interruptions,
    }
}

/// A version, an attach, an open and a clunk in pieces of one byte, of two, of seven, and whole:
/// the same replies.
#[test]
fn pieces_of_one_byte_have_the_same_replies(rt: HostRuntime) {
    expect_served(&rt, cut_up(1, 0), Ok(()), REPLIES);
    expect_served(&rt, cut_up(2, 0), Ok(()), REPLIES);
    expect_served(&rt, cut_up(7, 0), Ok(()), REPLIES);
    expect_served(&rt, cut_up(1_000, 0), Ok(()), REPLIES);
}

/// Cut in two at each place: the same.
#[test]
fn a_stream_cut_in_two_has_the_same_replies(rt: HostRuntime) {
    for place in 0..=ALL_REQUESTS.len() {
        let (front, back) = ALL_REQUESTS.split_at(place);
        expect_served(&rt, front.chain(back), Ok(()), REPLIES);
    }
}

/// Serves the requests to a writer that takes so many bytes at a time, after so many interruptions.
fn expect_narrow(
    rt: &(impl Abort + AllocGlobal),
    most: usize,
    interruptions: u32,
    wanted: Result<(), ServeFault>,
    written: &[u8],
    idle_writes: u64,
) {
    let taken = Vec::new(rt.alloc());
    let narrow = Narrow {
        taken,
        most,
        interruptions,
    };
    let mut stream = TwoEnded::new(ALL_REQUESTS, narrow);
    let mut port = Fake::new(rt.alloc());
    let served = serve_stream(rt.alloc(), &mut stream, &mut port, &mut Standing);
    assert!(rt; served == wanted);
    assert!(rt; stream.counts().idle_writes == idle_writes);
    assert!(rt; stream.into_writer().taken.as_slice() == written);
}

const READ_FAULT: Result<(), ServeFault> = Err(ServeFault::ReadFault);

const WRITE_FAULT: Result<(), ServeFault> = Err(ServeFault::WriteFault);

/// 999 interrupted reads in a row, and the stream goes on; 1,000 are a ReadFault. Likewise of
/// writes; 1,000 are a WriteFault.
#[test]
fn a_thousand_interruptions_in_a_row_are_too_many(rt: HostRuntime) {
    expect_served(&rt, cut_up(64, 999), Ok(()), REPLIES);
    expect_served(&rt, cut_up(64, 1_000), READ_FAULT, b"");
    expect_narrow(&rt, 64, 999, Ok(()), REPLIES, 0);
    expect_narrow(&rt, 64, 1_000, WRITE_FAULT, b"", 0);
}

/// A client that has not sent anything yet.
fn new_client(alloc: Global) -> Client {
    Client {
        sent: 0,
        replied: 0,
        replies: Vec::new(alloc),
    }
}

/// A client over `Counted` sends each request once it has the reply to the one before; then its
/// connection is reset. All four replies, ReadFault, five reads of which one failed.
#[test]
fn a_client_has_each_reply_before_it_sends_more(rt: HostRuntime) {
    let mut stream = Counted::new(new_client(rt.alloc()));
    let mut port = Fake::new(rt.alloc());
    let result = serve_stream(rt.alloc(), &mut stream, &mut port, &mut Standing);
    assert!(rt; result == READ_FAULT);
    let counts = stream.counts();
    assert!(rt; counts.reads == 5 && counts.failed_reads == 1 && counts.writes == 4);
    assert!(rt; stream.into_inner().replies.as_slice() == REPLIES);
}

/// The clock gives a minute more each time, from the second 720 on. A version asks nothing; the
/// attach is asked at 780, the open at 840, and the close at the hang-up at 900.
#[test]
fn each_message_is_answered_at_a_moment_of_its_own(rt: HostRuntime) {
    let mut stream = TwoEnded::new(THREE_REQUESTS, Vec::new(rt.alloc()));
    let mut port = Fake::new(rt.alloc());
    let mut clock = Ticking { moment: 720 };
    let result = serve_stream(rt.alloc(), &mut stream, &mut port, &mut clock);
    assert!(rt; result.is_ok());
    // A version asks nothing; the attach, the open, and the close at the hang-up.
    assert!(rt; port.moments.as_slice() == [780, 840, 900].as_slice());
}

/// A writer that takes one byte at a time gets all; one that takes none is a WriteFault, and
/// counted.
#[test]
fn writes_go_on_until_one_takes_no_byte(rt: HostRuntime) {
    expect_narrow(&rt, 1, 0, Ok(()), REPLIES, 0);
    expect_narrow(&rt, 0, 0, WRITE_FAULT, b"", 1);
}

/// A fid is open when the stream ends in a fault: its open is closed.
#[test]
fn it_hangs_up_before_it_returns(rt: HostRuntime) {
    let mut stream = TwoEnded::new(UNFINISHED, Vec::new(rt.alloc()));
    let mut port = Fake::new(rt.alloc());
    let result = serve_stream(rt.alloc(), &mut stream, &mut port, &mut Standing);
    assert!(rt; result == UNDERSIZE);
    assert!(rt; port.closed.as_slice() == [0].as_slice());
}

/// `Counted` over a cursor: one write, and one read that meets the end.
#[test]
fn counts_the_calls_of_a_stream(rt: HostRuntime) {
    let mut stream = Counted::new(io::Cursor::new(Vec::new(rt.alloc())));
    assert!(rt; stream.counts() == Counts::NONE);
    assert!(rt; write_all(&mut stream, b"abc").is_ok());
    assert!(rt; stream.read(&mut [0; 4]) == Transfer::Bytes(0));
    let counts = stream.counts();
    assert!(rt; counts.writes == 1 && counts.reads == 1 && counts.ends == 1);
    assert!(rt; stream.into_inner().position() == 3);
}
