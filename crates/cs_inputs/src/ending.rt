//! How a command ends.
ghost use Rattle.std.specs.Prelude.{◌≡◌, ◌≤◌, Ok};
ghost use Rattle.std.specs.Io.KnownBytes.{Keeps};

use std::fmt;
use std::io::Write;

/// Flushes `out`, also after a fault. The result is `done`; but `unflushed` if `done` is Ok and the
/// flush fails.
fn flush_after<F: Drop, W: Write>(done: Result<(), F>, unflushed: F, out: &mut W) -> Result<(), F>
    ensures done { result ≡ Ok tt → done ≡ Ok tt }
    ensures kept { Keeps (W.contents out.old) (W.contents out.new) }
{
    match done {
        Ok(()) => match out.flush() {
            Ok(()) => Ok(()),
            Err(_) => Err(unflushed),
        },
        Err(fault) => {
            // only the fault that ended the command is reported
            let _flushed = out.flush();
            Err(fault)
        }
    }
}

/// The status of a command that ended with `done`: 0, or 1 if it failed, which one line on `err`
/// reports. `out` is flushed first; if only the flush fails, the fault is `unflushed`. A failed
/// write to `err` is ignored. What was written to `out` stays.
pub fn exit_status<F: fmt::Display + Drop, W: Write, E: Write>(
    done: Result<(), F>,
    unflushed: F,
    out: &mut W,
    err: &mut E,
) -> u8
    ensures status { result ≤ 1 }
    ensures done { result ≡ 0 → done ≡ Ok tt }
    ensures kept { Keeps (W.contents out.old) (W.contents out.new) }
{
    match flush_after(done, unflushed, out) {
        Ok(()) => 0,
        Err(fault) => {
            let _unheard = writeln!(err, "crashfs: {fault}");
            1
        }
    }
}
