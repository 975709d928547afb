//! Scripts and lists whose input or output comes in pieces, is interrupted, or fails.
use crate::tests::commands::{TRACE, USERS, inputs_of};
use cs_list::{list_of, list_to};
use cs_script::{script_of, script_over};
use cs_stream::TwoEnded;
use std::alloc::Global;
use std::io::{self, Error, ErrorKind, Read, Write};
use std::process::Abort;

/// A version, a hang-up, and a stat of a connection without a session.
const SCRIPT: &[u8] = b"\
0 0 1300000064ffff002000000600395032303030
0 0 hangup
0 1 0b0000007c010001000000
";

const REPLIES: &[u8] = b"\
0 1300000065ffff002000000600395032303030
0 closed
0 160000006b01000d005331206e6f2073657373696f6e
";

/// What `list` prints of the start tree.
const LIST: &[u8] = b"state 0 prefix 0 says 0\n";

/// Gives its bytes in pieces of at most so many, after so many reads that are interrupted.
#[derive(Drop)]
struct Slow {
    bytes: &'static [u8],
    most: usize,
    interruptions: u32,
}

impl Read for Slow {
    fn read(&mut self, buf: &mut [u8]) -> io::Result<usize> {
        if self.interruptions > 0 {
            self.interruptions -= 1;
            return Err(Error::from(ErrorKind::Interrupted));
        }
        let count = self.most.min(buf.len()).min(self.bytes.len());
        let (piece, rest) = self.bytes.split_at(count);
        let (front, _) = buf.split_at_mut(count);
        front.copy_from_slice(piece);
        self.bytes = rest;
        Ok(count)
    }
}

/// The script in pieces of at most so many bytes, after so many interruptions.
fn given_by(most: usize, interruptions: u32) -> Slow {
    Slow {
        bytes: SCRIPT,
        most,
        interruptions,
    }
}

/// Takes so many bytes at a time, after so many writes that are interrupted; after so many more its
/// writes fail.
#[derive(Drop)]
struct Narrow {
    taken: Vec<u8>,
    most: usize,
    interruptions: u32,
    writes: u32,
}

impl Write for Narrow {
    fn write(&mut self, buf: &[u8]) -> io::Result<usize> {
        if self.interruptions > 0 {
            self.interruptions -= 1;
            return Err(Error::from(ErrorKind::Interrupted));
        }
        if self.writes == 0 {
            return Err(Error::from(ErrorKind::BrokenPipe));
        }
        self.writes -= 1;
        let count = self.most.min(buf.len());
        let (front, _) = buf.split_at(count);
        match self.taken.extend_from_slice(front) {
            Ok(()) => Ok(count),
            Err(_) => Err(Error::from(ErrorKind::OutOfMemory)),
        }
    }

    fn flush(&mut self) -> io::Result<()> {
        Ok(())
    }
}

fn taken_by(alloc: Global, most: usize, interruptions: u32, writes: u32) -> Narrow {
    Narrow {
        taken: Vec::new(alloc),
        most,
        interruptions,
        writes,
    }
}

/// More writes than there are.
const ENOUGH: u32 = 1_000;

/// Whether standard error has this fault; nothing if the status is 0.
fn is_told(err: &[u8], status: u8, fault: &str) -> bool {
    match status {
        0 => err.is_empty() && fault.is_empty(),
        _ => err.strip_prefix(b"crashfs: ".as_slice()) == Some(fault.as_bytes()),
    }
}

/// Runs the script, and looks for its fault, which is none or a line, and for what was written.
fn expect_script(
    rt: &(impl Abort + AllocGlobal),
    mut input: Slow,
    mut out: Narrow,
    fault: &str,
    written: &[u8],
) {
    let mut err: Vec<u8> = Vec::new(rt.alloc());
    let inputs = inputs_of(USERS, TRACE.as_bytes());
    let status = script_of(rt.alloc(), &inputs, &mut input, &mut out, &mut err);
    assert!(rt; is_told(&err, status, fault));
    assert!(rt; out.taken.as_slice() == written);
}

/// Lists the start tree, and looks for the same.
fn expect_list(rt: &(impl Abort + AllocGlobal), mut out: Narrow, fault: &str, written: &[u8]) {
    let mut err: Vec<u8> = Vec::new(rt.alloc());
    let inputs = inputs_of(&[], TRACE.as_bytes());
    let status = list_of(rt.alloc(), &inputs, &mut out, &mut err);
    assert!(rt; is_told(&err, status, fault));
    assert!(rt; out.taken.as_slice() == written);
}

const INPUT_FAILED: &str = "input failed\n";

const OUTPUT_FAILED: &str = "output failed\n";

/// A script that comes in pieces of one byte or of seven, and whose output is taken byte by byte:
/// the same is printed. So of a list.
#[test]
fn a_script_in_pieces_prints_the_same(rt: HostRuntime) {
    let alloc = rt.alloc();
    expect_script(
        &rt,
        given_by(1, 0),
        taken_by(alloc, 1, 0, ENOUGH),
        "",
        REPLIES,
    );
    expect_script(
        &rt,
        given_by(7, 0),
        taken_by(alloc, 64, 0, ENOUGH),
        "",
        REPLIES,
    );
    expect_list(&rt, taken_by(alloc, 1, 0, ENOUGH), "", LIST);
}

/// 999 interrupted reads in a row, and the stream goes on; 1,000 are a ReadFault. Likewise of
/// writes; 1,000 are a WriteFault.
#[test]
fn a_thousand_interruptions_in_a_row_are_too_many(rt: HostRuntime) {
    let alloc = rt.alloc();
    expect_script(
        &rt,
        given_by(64, 999),
        taken_by(alloc, 64, 999, ENOUGH),
        "",
        REPLIES,
    );
    expect_script(
        &rt,
        given_by(64, 1_000),
        taken_by(alloc, 64, 0, ENOUGH),
        INPUT_FAILED,
        b"",
    );
    expect_script(
        &rt,
        given_by(64, 0),
        taken_by(alloc, 64, 1_000, ENOUGH),
        OUTPUT_FAILED,
        b"",
    );
    expect_list(&rt, taken_by(alloc, 64, 999, ENOUGH), "", LIST);
    expect_list(&rt, taken_by(alloc, 64, 1_000, ENOUGH), OUTPUT_FAILED, b"");
}

/// A writer that takes no byte: `output failed`, for a script and for a list.
#[test]
fn a_write_that_takes_no_byte_is_a_fault(rt: HostRuntime) {
    let alloc = rt.alloc();
    expect_script(
        &rt,
        given_by(64, 0),
        taken_by(alloc, 0, 0, ENOUGH),
        OUTPUT_FAILED,
        b"",
    );
    expect_list(&rt, taken_by(alloc, 0, 0, ENOUGH), OUTPUT_FAILED, b"");
}

/// The first bytes, at most so many.
fn front_of(bytes: &[u8], most: u32) -> &[u8] {
    let (front, _) = bytes.split_at((most as usize).min(bytes.len()));
    front
}

/// The fault if these bytes are printed to an output that takes so many.
fn fault_of(printed: &[u8], taken: u32) -> &'static str {
    if printed.len() <= taken as usize {
        ""
    } else {
        OUTPUT_FAILED
    }
}

/// Runs the script over a stream whose writes, of one byte each, fail after so many.
fn expect_front(rt: &(impl Abort + AllocGlobal), writes: u32) {
    let out = taken_by(rt.alloc(), 1, 0, writes);
    let fault = fault_of(REPLIES, writes);
    expect_script(rt, given_by(64, 0), out, fault, front_of(REPLIES, writes));
}

/// Lists the start tree over such a stream.
fn expect_list_front(rt: &(impl Abort + AllocGlobal), writes: u32) {
    let out = taken_by(rt.alloc(), 1, 0, writes);
    expect_list(rt, out, fault_of(LIST, writes), front_of(LIST, writes));
}

/// A writer that fails after each byte of a script's output, and of a list: what it took is the
/// beginning of what would have been printed.
#[test]
fn what_was_written_before_a_fault_is_the_front(rt: HostRuntime) {
    for writes in 0..=REPLIES.len() as u32 {
        expect_front(&rt, writes);
    }
    for writes in 0..=LIST.len() as u32 {
        expect_list_front(&rt, writes);
    }
}

/// A script of three lines over a stream: it meets the end once, and each line is one write. A list
/// is one write, and reads nothing.
#[test]
fn a_stream_is_read_to_its_end_and_written(rt: HostRuntime) {
    let alloc = rt.alloc();
    let inputs = inputs_of(USERS, TRACE.as_bytes());
    let mut err: Vec<u8> = Vec::new(alloc);
    let mut stream = TwoEnded::new(SCRIPT, Vec::new(alloc));
    assert!(rt; script_over(alloc, &inputs, &mut stream, &mut err).is_ok());
    assert!(rt; stream.counts().ends == 1 && stream.counts().writes == 3);
    assert!(rt; stream.into_writer().as_slice() == REPLIES);
    let mut stream = TwoEnded::new(b"".as_slice(), Vec::new(alloc));
    assert!(rt; list_to(alloc, &inputs, &mut stream).is_ok());
    assert!(rt; stream.counts().reads == 0 && stream.counts().writes == 1);
    assert!(rt; stream.into_writer().as_slice() == LIST);
}
