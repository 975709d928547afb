//! How a text is written to a stream, or to a writer.
ghost use Rattle.std.specs.Prelude.{◌≡◌, IfErr};
ghost use Rattle.cs_stream.specs.Streams.{KeepsFaults, KeepsReads, Writes};
ghost use Rattle.cs_inputs.specs.Written.{BlamesOutput};

use crate::fault::ProgramFault;
use cs_stream::{Stream, write_all};
use std::io::Write;

/// Writes a text to a stream. The error is Output if a write fails, takes no byte, or is the
/// thousandth in a row that is interrupted. After it some of the text, from the front, was written,
/// or none. It doesn't flush.
pub fn print<S: Stream>(stream: &mut S, text: &[u8]) -> Result<(), ProgramFault>
    ensures written { Writes result (S.contents stream.old) (S.contents stream.new) text.now }
    ensures fault { IfErr result (BlamesOutput (S.counts stream.old) (S.counts stream.new)) }
    ensures faults { KeepsFaults (S.counts stream.old) (S.counts stream.new) }
    ensures reads { KeepsReads (S.counts stream.old) (S.counts stream.new) }
    ensures remaining { S.remaining stream.new ≡ S.remaining stream.old }
{
    match write_all(stream, text) {
        Ok(()) => Ok(()),
        Err(_) => Err(ProgramFault::Output),
    }
}

/// Writes a text to a writer. It doesn't flush. The error is Output, as that of `print`; then some
/// of the text was written, from the front, or none.
pub fn print_to<W: Write>(out: &mut W, text: &[u8]) -> Result<(), ProgramFault>
    ensures { Writes result (W.contents out.old) (W.contents out.new) text.now }
{
    match cs_tar::write_all(out, text) {
        Ok(()) => Ok(()),
        Err(_) => Err(ProgramFault::Output),
    }
}
