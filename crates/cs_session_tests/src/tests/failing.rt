//! Streams that are cut, and streams whose reads and writes fail as planned.

use super::lone_run::{Alone, REPLIES, REQUESTS, WHOLE};
use super::streams::Standing;
use cs_session::{ServeFault, serve_stream};
use cs_stream::TwoEnded;
use cs_wire::FrameFault;
use std::alloc::Global;
use std::io::{self, Error, ErrorKind, Read, Write};
use std::process::Abort;

/// More than any call here moves.
const ALL: usize = 1 << 16;

/// How many reads, or writes, succeed, and what comes then.
#[derive(Clone, Copy)]
struct Plan {
    /// How many bytes each of these moves at most.
    most: usize,
    good: u32,
    interruptions: u32,
    end: End,
}

#[derive(Clone, Copy)]
enum End {
    /// It fails.
    Fails,
    /// It moves no byte.
    Stops,
    /// It moves all it can, and so do the calls after it.
    Goes,
}

impl Plan {
    /// How many bytes the next call may move, 0 if it moves none; a fault if it is interrupted or
    /// fails.
    fn next(&mut self) -> io::Result<usize> {
        if self.good > 0 {
            self.good -= 1;
            return Ok(self.most);
        }
        if self.interruptions > 0 {
            self.interruptions -= 1;
            return Err(Error::from(ErrorKind::Interrupted));
        }
        match self.end {
            End::Fails => Err(Error::from(ErrorKind::ConnectionReset)),
            End::Stops => Ok(0),
            End::Goes => Ok(ALL),
        }
    }
}

/// Gives bytes as planned.
#[derive(Drop)]
struct Source {
    plan: Plan,
    bytes: &'static [u8],
}

impl Read for Source {
    fn read(&mut self, buf: &mut [u8]) -> io::Result<usize> {
        let most = self.plan.next()?;
        let count = most.min(buf.len()).min(self.bytes.len());
        let (piece, rest) = self.bytes.split_at(count);
        let (front, _) = buf.split_at_mut(count);
        front.copy_from_slice(piece);
        self.bytes = rest;
        Ok(count)
    }
}

/// Takes bytes as planned.
#[derive(Drop)]
struct Sink {
    plan: Plan,
    taken: Vec<u8>,
}

impl Write for Sink {
    fn write(&mut self, buf: &[u8]) -> io::Result<usize> {
        let count = self.plan.next()?.min(buf.len());
        let (front, _) = buf.split_at(count);
        match self.taken.extend_from_slice(front) {
            Ok(()) => Ok(count),
            Err(_) => Err(Error::from(ErrorKind::OutOfMemory)),
        }
    }

    fn flush(&mut self) -> io::Result<()> {
        Ok(())
    }
}

const WELL: Plan = Plan {
    most: ALL,
    good: 0,
    interruptions: 0,
    end: End::Goes,
};

/// The result of serving, what was written, and how many files are open then.
struct Served(Result<(), ServeFault>, Vec<u8>, usize);

fn serve(
    rt: &impl Abort,
    alloc: Global,
    bytes: &'static [u8],
    reads: Plan,
    writes: Plan,
) -> Served {
    let mut port = Alone::new(rt, alloc);
    let source = Source { plan: reads, bytes };
    let sink = Sink {
        plan: writes,
        taken: Vec::new(alloc),
    };
    let mut stream = TwoEnded::new(source, sink);
    let end = serve_stream(alloc, &mut stream, &mut port, &mut Standing);
    Served(end, stream.into_writer().taken, port.opens())
}

const CUT: Result<(), ServeFault> = Err(ServeFault::FrameFault(FrameFault::Cut));

const READ_FAULT: Result<(), ServeFault> = Err(ServeFault::ReadFault);

const WRITE_FAULT: Result<(), ServeFault> = Err(ServeFault::WriteFault);

/// How many bytes the replies to the whole messages have, and whether the last message is whole.
fn whole_before(place: usize) -> (usize, bool) {
    let mut replies = 0usize;
    let mut is_end = false;
    for whole in &WHOLE {
        if whole.0 <= place {
            replies = whole.1;
            is_end = whole.0 == place;
        }
    }
    (replies, is_end)
}

/// Serves the exchange up to that place.
fn expect_cut(rt: &(impl Abort + AllocGlobal), place: usize) {
    let (front, _) = REQUESTS.split_at(place.min(REQUESTS.len()));
    let Served(end, written, opens) = serve(rt, rt.alloc(), front, WELL, WELL);
    let (replies, is_end) = whole_before(place);
    assert!(rt; end == if is_end { Ok(()) } else { CUT }, "at {place}");
    assert!(rt;
        Some(written.as_slice()) == REPLIES.get(..replies),
        "at {place}"
    );
    assert!(rt; opens == 0, "at {place}");
}

/// The first exchange's 121 bytes, ended after each byte: Ok after each message, else Cut, with the
/// replies of the whole messages, and no file open.
#[test]
fn a_stream_that_is_cut_has_the_replies_of_its_whole_messages(rt: HostRuntime) {
    for place in 0..=121usize {
        expect_cut(&rt, place);
    }
}

/// Reads and writes of 8 bytes, of which so many succeed.
fn after(good: u32, interruptions: u32, end: End) -> Plan {
    Plan {
        most: 8,
        good,
        interruptions,
        end,
    }
}

/// Serves the exchange, and checks its result, and that what was written begins the replies.
fn expect_end(
    rt: &(impl Abort + AllocGlobal),
    reads: Plan,
    writes: Plan,
    wanted: Result<(), ServeFault>,
) {
    let Served(end, written, opens) = serve(rt, rt.alloc(), REQUESTS, reads, writes);
    assert!(rt; end == wanted);
    assert!(rt; REPLIES.starts_with(&written));
    assert!(rt; wanted != Ok(()) || written.len() == REPLIES.len());
    assert!(rt; opens == 0);
}

/// So many reads succeed, and then one fails, or many are interrupted.
fn expect_read_fault(rt: &(impl Abort + AllocGlobal), good: u32) {
    expect_end(rt, after(good, 0, End::Fails), WELL, READ_FAULT);
    expect_end(rt, after(good, 999, End::Goes), WELL, Ok(()));
    expect_end(rt, after(good, 1_000, End::Goes), WELL, READ_FAULT);
}

/// 121 bytes take 16 reads of 8 bytes, and the last meets the end.
#[test]
fn a_read_that_fails_at_any_place_ends_the_connection(rt: HostRuntime) {
    for place in 0..=16u32 {
        expect_read_fault(&rt, place);
    }
}

/// So many writes succeed, and then one fails or takes no byte, or many are interrupted.
fn expect_write_fault(rt: &(impl Abort + AllocGlobal), good: u32) {
    expect_end(rt, WELL, after(good, 0, End::Fails), WRITE_FAULT);
    expect_end(rt, WELL, after(good, 0, End::Stops), WRITE_FAULT);
    expect_end(rt, WELL, after(good, 999, End::Goes), Ok(()));
    expect_end(rt, WELL, after(good, 1_000, End::Goes), WRITE_FAULT);
}

/// 178 bytes take 23 writes of 8 bytes at least.
#[test]
fn a_write_that_fails_at_any_place_ends_the_connection(rt: HostRuntime) {
    for place in 0..=22u32 {
        expect_write_fault(&rt, place);
    }
}

/// The first read or write moves so many bytes.
fn once(most: usize) -> Plan {
    Plan {
        most,
        good: 1,
        ..WELL
    }
}

/// The first write takes so many bytes, and the next one the rest.
#[test]
fn any_two_pieces_of_a_write_join(rt: HostRuntime) {
    for most in 1..=178usize {
        expect_end(&rt, WELL, once(most), Ok(()));
    }
}

/// The first read gives so many bytes, and the next one the rest.
#[test]
fn any_two_pieces_of_a_read_join(rt: HostRuntime) {
    for most in 1..=121usize {
        expect_end(&rt, once(most), WELL, Ok(()));
    }
}

/// The exchange comes a byte at a time: the replies are whole.
#[test]
fn the_first_exchange_is_read_byte_by_byte(rt: HostRuntime) {
    let reads = Plan {
        most: 1,
        good: 121,
        ..WELL
    };
    expect_end(&rt, reads, WELL, Ok(()));
}
