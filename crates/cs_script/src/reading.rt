//! All bytes that a stream gives.
ghost use Rattle.std.specs.Prelude.{◌≡◌, ◌≤◌, IfErr, IfOk, OnOk};
ghost use Rattle.std.specs.Io.KnownBytes.{Consumes, IsAtEnd};
ghost use Rattle.cs_names.specs.declared.limits.TheConstants.{CONNECTION_READS};
ghost use Rattle.cs_stream.specs.Streams.{KeepsFaults, saturating_sum};
ghost use Rattle.cs_inputs.specs.Written.{Blames};

use cs_inputs::ProgramFault;
use cs_names::limits::{CONNECTION_READS, INTERRUPTIONS};
use cs_stream::{Stream, Transfer};
use std::alloc::Global;

/// How many bytes a read can give at most. Any number above 0 gives the same bytes in the end.
const ROOM: usize = 65_536;

/// Reads to the end of the stream, and returns the bytes. An interrupted read is tried again, up to
/// 999 in a row, as `write_all` of cs_stream does with writes. The error is Input if a read fails,
/// the thousandth in a row is interrupted, or the end isn't reached in 4,294,967,295 reads, the
/// interrupted ones included; or Memory. After an error the bytes that were read are lost.
pub(crate) fn read_all<S: Stream>(alloc: Global, stream: &mut S) -> Result<Vec<u8>, ProgramFault>
    ensures bytes { IfOk result (λ bytes.
        Consumes (S.remaining stream.old) (S.remaining stream.new) bytes.items) }
    ensures end { OnOk result (IsAtEnd (S.remaining stream.new)) }
    ensures contents { S.contents stream.new ≡ S.contents stream.old }
    ensures fault { IfErr result (Blames (S.counts stream.old) (S.counts stream.new)) }
    ensures faults { KeepsFaults (S.counts stream.old) (S.counts stream.new) }
    ensures bounded { (S.counts stream.new).reads
        ≤ saturating_sum CONNECTION_READS (S.counts stream.old).reads }
{
    let mut bytes = Vec::new(alloc);
    let Ok(mut room) = vec![in alloc; 0u8; ROOM] else {
        return Err(ProgramFault::Memory);
    };
    // reads in a row that were interrupted
    let mut waits = 0;
    for _ in 0..CONNECTION_READS {
        match stream.read(room.as_mut_slice()) {
            Transfer::Failed => return Err(ProgramFault::Input),
            Transfer::Interrupted => {
                waits += 1;
                if waits >= INTERRUPTIONS {
                    return Err(ProgramFault::Input);
                }
                continue;
            }
            Transfer::Bytes(0) => return Ok(bytes),
            Transfer::Bytes(count) => {
                waits = 0;
                if bytes.extend_from_slice(&room[..count]).is_err() {
                    return Err(ProgramFault::Memory);
                }
            }
        }
    }
    // the end isn't reached in that many reads
    Err(ProgramFault::Input)
}
