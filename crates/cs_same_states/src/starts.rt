//! The bytes of a file before any micro-operation changes it. The three functions here are also in
//! `file_steps` of cs_state, which lends them to its own modules only: change both together. Those
//! in `files` of cs_apm copy the bytes.
ghost use Rattle.std.specs.Prelude.{◌≡◌, slice_index_or};
ghost use Rattle.cs_apm.specs.Atlases.{AreMakings, AreStarts, content_before, content_made};
ghost use Rattle.cs_apm.specs.States.{content_of_bytes, files_made, no_content};
ghost use Rattle.cs_state.specs.Windows.{whole_content};

use cs_apm::tables::Tables;
use cs_micro::MicroOp;
use cs_trace::Trace;

/// The bytes with which the micro-operation makes a symbolic link: its target. Empty if it makes
/// anything else, or nothing: a new file has no bytes. (`bytes_made` of cs_state has the same
/// body.)
fn bytes_made(op: &MicroOp) -> &[u8]
    ensures { content_of_bytes result.now ≡ content_made op.now }
{
    match op {
        MicroOp::CreateDirEntry { bytes, .. } => bytes.as_slice(),
        _ => &[],
    }
}

/// The bytes with which a file that isn't there at the start is made; empty if no micro-operation
/// makes it. `number` counts only such files, from 0, and `makings` has the place of the making of
/// each. (`made_bytes` of cs_state has the same body.)
fn made_bytes<'a>(ops: &'a [MicroOp], makings: &[u32], number: usize) -> &'a [u8]
    requires { AreMakings ops.now makings.now }
    ensures { whole_content result.now
        ≡ slice_index_or (files_made ops.now) number no_content }
{
    match makings.get(number) {
        None => &[],
        Some(place) => bytes_made(&ops[*place as usize]),
    }
}

/// The bytes of the file at the start, or those with which it is made: the target of a symbolic
/// link, or none. Empty if the trace has no such file. The tables must be those of the trace and
/// its micro-operations. (`start_bytes` of cs_state has the same body.)
pub fn start_bytes<'a>(
    trace: &'a Trace,
    ops: &'a [MicroOp],
    tables: &Tables,
    file: usize,
) -> &'a [u8]
    requires starts { AreStarts trace.now tables.now.starts.items }
    requires makings { AreMakings ops.now tables.now.makings.items }
    ensures { whole_content result.now ≡ content_before trace.now ops.now file }
{
    let starts = &tables.starts;
    if file >= starts.len() {
        return made_bytes(ops, &tables.makings, file - starts.len());
    }
    let content = trace.records().content(starts[file] as usize);
    content.bytes().unwrap_or(&[])
}
