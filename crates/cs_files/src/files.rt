//! Reading the files that the command line names.
ghost use Rattle.std.specs.Prelude.{◌≡◌};

use crate::users::users_of_trace;
use cs_inputs::{Inputs, first_return};
use cs_options::{Ask, Job};
use std::fs::{File, OpenFile};
use std::io::{self, Read, Write};
use std::rt::Files;

/// The status of a command that a fault ended.
pub const FAULT: u8 = 1;

/// The bytes of each file that the command line names. Empty for a file that it doesn't name.
#[derive(Drop)]
pub struct InputFiles {
    /// Of a file, or of standard input.
    trace: Vec<u8>,
    /// Empty without `--picks`.
    picks: Vec<u8>,
    /// As `bytes_of_users` has them.
    users: Vec<u8>,
}

/// Prints on standard error that the program is out of memory, and returns the status, FAULT.
pub fn out_of_memory(rt: &impl Eprint) -> u8
    ensures { result ≡ 1 }
{
    let _unheard = eprintln!(rt; "crashfs: out of memory");
    FAULT
}

/// The bytes of the file at the path. Room for its size is reserved at once, and one byte for the
/// read that finds the end. If there are more bytes, as in a pipe, which has no size, the room
/// grows. The error is the file's, or out of memory.
fn bytes_of_file<R: Files + AllocGlobal>(rt: &R, path: &str) -> io::Result<Vec<u8>> {
    let mut file = File::open(rt, path)?;
    let size = file.metadata()?.len();
    let mut bytes = Vec::new(rt.alloc());
    bytes.reserve_exact(usize::try_from(size).unwrap_or(0).saturating_add(1))?;
    file.read_to_end(&mut bytes)?;
    Ok(bytes)
}

/// The bytes that were read from the file at the path. If they couldn't be read, the error is the
/// status, after two lines on `err`: that the file can't be read, and why. If memory ran out, only
/// that is printed, on standard error.
fn bytes_or_status<R: Eprint, E: Write>(
    rt: &R,
    path: &str,
    bytes: io::Result<Vec<u8>>,
    err: &mut E,
) -> Result<Vec<u8>, u8> {
    match bytes {
        Ok(bytes) => Ok(bytes),
        Err(error) if error.kind() == io::ErrorKind::OutOfMemory => Err(out_of_memory(rt)),
        Err(error) => {
            let _unheard = writeln!(
                err,
                "crashfs: {path}: cannot read\ncrashfs: {path}: {error}"
            );
            Err(FAULT)
        }
    }
}

/// All bytes of standard input, to its end. The error is that of a read, or out of memory.
fn read_input<R: Input + AllocGlobal>(rt: &R) -> io::Result<Vec<u8>> {
    let mut bytes = Vec::new(rt.alloc());
    rt.reader().read_to_end(&mut bytes)?;
    Ok(bytes)
}

/// The bytes of the trace, which is standard input if its path is `-`. The error is the status,
/// after its lines on `err`.
fn bytes_of_trace<R: Files + Input + Eprint + AllocGlobal, E: Write>(
    rt: &R,
    path: &str,
    err: &mut E,
) -> Result<Vec<u8>, u8> {
    let bytes = if path == "-" {
        read_input(rt)
    } else {
        bytes_of_file(rt, path)
    };
    bytes_or_status(rt, path, bytes, err)
}

/// The bytes of the file at the path; no bytes if `path` is None. The error is the status, after
/// its lines on `err`.
fn read_if_given<R: Files + Eprint + AllocGlobal, E: Write>(
    rt: &R,
    path: Option<&str>,
    err: &mut E,
) -> Result<Vec<u8>, u8> {
    match path {
        Some(path) => bytes_or_status(rt, path, bytes_of_file(rt, path), err),
        None => Ok(Vec::new(rt.alloc())),
    }
}

/// The bytes of a users file that the command line names. If one of its lines ends with a carriage
/// return, a line on `err` says so. The error is the status, after its lines on `err`.
fn read_users<R: Files + Eprint + AllocGlobal, E: Write>(
    rt: &R,
    path: &str,
    err: &mut E,
) -> Result<Vec<u8>, u8> {
    let bytes = bytes_or_status(rt, path, bytes_of_file(rt, path), err)?;
    if let Some(note) = first_return(&bytes) {
        let _unheard = writeln!(err, "crashfs: {note}");
    }
    Ok(bytes)
}

/// The bytes of the users file, as they are in the file. If the command line names none, `serve`
/// gets a file of the trace's owners and groups, and other commands get no bytes. The error is the
/// status, after its lines on `err`.
fn bytes_of_users<R: Files + Eprint + AllocGlobal, E: Write>(
    rt: &R,
    ask: &Ask,
    trace: &[u8],
    err: &mut E,
) -> Result<Vec<u8>, u8> {
    if let Some(path) = ask.users {
        return read_users(rt, path, err);
    }
    if !matches!(ask.job, Job::Serve(_)) {
        return Ok(Vec::new(rt.alloc()));
    }
    match users_of_trace(rt.alloc(), trace) {
        Ok(users) => Ok(users),
        Err(_) => Err(out_of_memory(rt)),
    }
}

impl InputFiles {
    /// Reads the trace, the picks and the users, in this order. The error is the status, FAULT, if
    /// one can't be read, after its lines on `err`; the files after it aren't read.
    pub fn read<R: Files + Input + Eprint + AllocGlobal, E: Write>(
        rt: &R,
        ask: &Ask,
        err: &mut E,
    ) -> Result<InputFiles, u8> {
        let trace = bytes_of_trace(rt, ask.wanted.trace, err)?;
        let picks = read_if_given(rt, ask.wanted.picks, err)?;
        let users = bytes_of_users(rt, ask, &trace, err)?;
        Ok(InputFiles {
            trace,
            picks,
            users,
        })
    }

    /// The files, and the command line's `--holes` and `--verbose`, as the commands take them.
    pub fn inputs(&self, ask: &Ask) -> Inputs<'_> {
        Inputs {
            users: &self.users,
            trace: &self.trace,
            picks: &self.picks,
            holes: ask.wanted.holes,
            verbose: ask.verbose,
        }
    }
}
