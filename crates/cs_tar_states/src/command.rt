//! The command `tar`, after its files were read.
ghost use Rattle.std.specs.Prelude.{◌≡◌, ◌≤◌};
ghost use Rattle.cs_inputs.specs.Ended.{IsTextOf, WritesSuch, reported};
ghost use Rattle.cs_tar_states.specs.Archives.{archive_of};

use crate::fault::{ArchiveFault, CommandFault};
use crate::states::write_states;
use cs_inputs::{Inputs, exit_status, scene_of};
use cs_options::TarOptions;
use std::alloc::Global;
use std::io::Write;
use std::sync::Arc;

/// Makes the scene of the inputs, and writes the archive of these states. A fault is one of the
/// inputs or of `write_states`. After it nothing is written, or some of the archive, from the
/// front.
fn write_archive<W: Write>(
    alloc: Global,
    inputs: &Inputs,
    options: &TarOptions,
    out: &mut W,
) -> Result<(), CommandFault>
    ensures { WritesSuch (IsTextOf inputs.now (archive_of options.now)) result
        (W.contents out.old) (W.contents out.new) }
{
    let scene = scene_of(alloc, inputs)?;
    let Ok(scene) = Arc::new(alloc, scene) else {
        return Err(CommandFault::Archive(ArchiveFault::Memory));
    };
    write_states(alloc, &scene, options, out)?;
    Ok(())
}

/// The command `tar`: writes the trees of some states, or their changes, as one archive, and
/// flushes it. Returns the status: 0, or 1 after a fault, which one line on `err` reports; some of
/// the archive may be written by then, from the front. If a state is past the plan's end, nothing
/// is written.
pub fn tar_of<W: Write, E: Write>(
    alloc: Global,
    inputs: &Inputs,
    options: &TarOptions,
    out: &mut W,
    err: &mut E,
) -> u8
    ensures status { result ≤ 1 }
    ensures archive { WritesSuch (IsTextOf inputs.now (archive_of options.now)) (reported result)
        (W.contents out.old) (W.contents out.new) }
{
    let done = write_archive(alloc, inputs, options, out);
    let unflushed = CommandFault::Archive(ArchiveFault::Output);
    exit_status(done, unflushed, out, err)
}
