//! Bytes that are written, with this crate's fault.
ghost use Rattle.std.specs.Prelude.{IfErr, OnOk};
ghost use Rattle.std.specs.Io.KnownBytes.{Appends};
ghost use Rattle.cs_every.specs.Faults.{IsOutside};

use crate::fault::EveryFault;
use std::io::Write;

/// Writes all of the bytes. The only fault is Output; then some of them may be written.
pub fn write_bytes<W: Write>(bytes: &[u8], out: &mut W) -> Result<(), EveryFault>
    ensures fault { IfErr result IsOutside }
    ensures text { OnOk result (Appends (W.contents out.old) (W.contents out.new) bytes.now) }
{
    out.write_all(bytes).map_err(|_| EveryFault::Output)
}
