//! The commands `script` and `list` over streams that fail.
use cs_inputs::Inputs;
use cs_list::list_of;
use cs_script::script_of;
use std::alloc::Global;
use std::io::{self, ErrorKind, Read, Write};
use std::process::Abort;

pub const USERS: &[u8] =
    b"# people\n1:ann::\n2:bob::\n3:cat::\n4:staff:ann:ann,bob,zed\n5:none::\n";

pub const TRACE: &str = r#"{"trace":1,"owner":"cat","group":"staff","mode":"775"}
{"start":"file","path":"/f","owner":"ann","group":"staff","mode":"664","bytes":"68656c6c6f"}
"#;

/// These users and this trace, and no more.
pub fn inputs_of<'a>(users: &'a [u8], trace: &'a [u8]) -> Inputs<'a> {
    Inputs {
        users,
        trace,
        picks: &[],
        holes: false,
        verbose: false,
    }
}

/// A reader whose reads fail.
#[derive(Drop)]
struct BrokenInput;

impl Read for BrokenInput {
    fn read(&mut self, _buf: &mut [u8]) -> io::Result<usize> {
        Err(io::Error::from(ErrorKind::ConnectionReset))
    }
}

/// A writer that takes `left` bytes, and whose writes fail from then on. Its flushes fail unless
/// `flushes`.
#[derive(Drop)]
struct BrokenOutput {
    left: usize,
    flushes: bool,
}

impl Write for BrokenOutput {
    fn write(&mut self, buf: &[u8]) -> io::Result<usize> {
        let taken = buf.len().min(self.left);
        if taken == 0 && !buf.is_empty() {
            return Err(io::Error::from(ErrorKind::BrokenPipe));
        }
        self.left -= taken;
        Ok(taken)
    }

    fn flush(&mut self) -> io::Result<()> {
        if self.flushes {
            return Ok(());
        }
        Err(io::Error::from(ErrorKind::BrokenPipe))
    }
}

/// Looks for the fault of a script that is read from this input, of which nothing is printed.
fn expect_unread<R: Read>(rt: &impl Abort, alloc: Global, inputs: &Inputs, input: &mut R) {
    let mut out: Vec<u8> = Vec::new(alloc);
    let mut err: Vec<u8> = Vec::new(alloc);
    let status = script_of(alloc, inputs, input, &mut out, &mut err);
    assert!(rt; status == 1 && out.is_empty());
    assert!(rt; err.as_slice() == b"crashfs: input failed\n".as_slice());
}

/// Looks for the fault of a script's output that takes so many bytes.
fn expect_unprinted(rt: &(impl Abort + AllocGlobal), left: usize) {
    let inputs = inputs_of(USERS, TRACE.as_bytes());
    let mut input = "0 0 hangup\n0 0 hangup\n".as_bytes();
    let mut out = BrokenOutput {
        left,
        flushes: true,
    };
    let mut err: Vec<u8> = Vec::new(rt.alloc());
    let status = script_of(rt.alloc(), &inputs, &mut input, &mut out, &mut err);
    assert!(rt; status == 1);
    assert!(rt; err.as_slice() == b"crashfs: output failed\n".as_slice());
}

/// A reader that fails is `input failed`. A writer that fails at once, in a line or after one is
/// `output failed`.
#[test]
fn reports_an_input_or_an_output_that_fails(rt: HostRuntime) {
    let inputs = inputs_of(USERS, TRACE.as_bytes());
    expect_unread(&rt, rt.alloc(), &inputs, &mut BrokenInput);
    expect_unprinted(&rt, 0);
    expect_unprinted(&rt, 5);
    expect_unprinted(&rt, 12);
}

/// Looks for the fault of a list's output that takes so many bytes.
fn expect_unlisted(rt: &(impl Abort + AllocGlobal), left: usize, flushes: bool) {
    let mut out = BrokenOutput { left, flushes };
    let mut err: Vec<u8> = Vec::new(rt.alloc());
    let inputs = inputs_of(&[], TRACE.as_bytes());
    let status = list_of(rt.alloc(), &inputs, &mut out, &mut err);
    assert!(rt; status == 1);
    assert!(rt; err.as_slice() == b"crashfs: output failed\n".as_slice());
}

/// A writer that fails at once, after ten bytes, or when it is flushed: `output failed`, status 1.
#[test]
fn reports_an_output_that_fails(rt: HostRuntime) {
    expect_unlisted(&rt, 0, true);
    expect_unlisted(&rt, 10, true);
    expect_unlisted(&rt, 1_000, false);
}
